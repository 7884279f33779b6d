//! Mirrors of documents, and the events that update them.

ghost use Rattle.std.specs.Prelude.{◌≡◌, ◌<◌, ◌-◌, MatchBool};
ghost use Rattle.std.specs.Option.{option_copied};
ghost use Rattle.document_rules.specs.Outcomes.{Appends};
ghost use Rattle.group_rules.specs.declared.TheConstants.{DOC_COUNT};
ghost use Rattle.textmodel_c.specs.Documents.{document_in};
ghost use Rattle.textmodel_c.specs.Mirroring.{CarriesOut, DeliversHeld, FollowedHeld, IsStatusOf, SaysNothing, Mirrors, SendsHeld, MirroredHeld, TakesEvent, followed_in, followed_of, gap_or, mirror_in, mirrored_line, sent_count};
ghost use Rattle.textmodel_c.specs.Rules.{in_utf8};
ghost use Rattle.textmodel_c.specs.Told.{LeavesWith, Lists, handed};

use crate::contents::Contents;
use crate::handle::{Handle, taken_for};
use crate::lists::hand_out_of;
use crate::status::Status;
use crate::utf8::utf8_out;
use mirror_model::Mirror;
use model_core::ModelError;
use script_lines::{Command, Refusal, Short};
use sessions::{Follower, Outcome, Refused};
use std::alloc::Global;

/// A mirror after an event: its version, and the length of its text in units and in lines.
#[repr(C)]
#[derive(Clone, Copy)]
pub struct Followed {
    pub version: u64,
    pub units: u64,
    pub lines: u64,
}

// Carries out a script command on this document.
fn carry_out(contents: &mut Contents, doc: u64, command: Command) -> Status
    requires { doc < DOC_COUNT }
    ensures { CarriesOut result doc command contents.old contents.new }
{
    let outcome = contents.session.carry_out(doc, command);
    status_of(&outcome)
}

// Delivers an event to the mirror. If earlier events are missing, sets `have` to the version of the mirror and `need` to the version from
// which the event leads.
fn take_event(
    contents: &mut Contents,
    doc: u64,
    number: u64,
    have: &mut u64,
    need: &mut u64,
) -> Status
    requires { doc < DOC_COUNT }
    ensures { TakesEvent result doc number contents.old contents.new
        (have.old, need.old) (have.new, need.new) }
{
    let outcome = contents
        .session
        .carry_out(doc, Command::Deliver { n: number });
    gap_out(&outcome, have, need);
    status_of(&outcome)
}

fn gap_out(outcome: &Outcome, have: &mut u64, need: &mut u64)
    ensures { (have.new, need.new) ≡ gap_or (have.old, need.old) outcome.now }
{
    match outcome {
        Err(
            Refused(
                Refusal::Gap {
                    have: is,
                    need: begins,
                },
            ),
        ) => {
            *have = *is;
            *need = *begins;
        }
        _ => {}
    }
}

// Returns the status for the outcome of a command.
fn status_of(outcome: &Outcome) -> Status
    ensures { IsStatusOf result outcome.now }
{
    match outcome {
        Ok(reply) if says_nothing(reply.as_slice()) => Status::Nothing,
        Ok(_) => Status::Ok,
        Err(Refused(reason)) => Status::of_refusal(*reason),
    }
}

// Returns whether the reply says that there was nothing to do.
fn says_nothing(reply: &[u8]) -> bool
    ensures { MatchBool result (SaysNothing reply.now) (¬ SaysNothing reply.now) }
{
    reply == Short::none().as_slice() || reply == Short::old().as_slice()
}

// Returns the mirror of this document, if it has one.
fn mirror_in(followers: &[Follower], doc: u64) -> Option<&Mirror>
    ensures { option_copied result ≡ mirror_in followers.now doc }
{
    followers.get(doc as usize)?.mirror.as_ref()
}

fn begin_mirror(contents: &mut Contents, doc: u64, version: &mut u64) -> Status
    requires { doc < DOC_COUNT }
    ensures carried { CarriesOut result doc Command.Mirror contents.old contents.new }
    ensures version { version.new
        ≡ handed result version.old (document_in contents.new.session.group doc).version }
{
    let status = carry_out(contents, doc, Command::Mirror);
    if let Status::Ok = status {
        *version = contents.document(doc).versions().0;
    }
    status
}

/// Begins a mirror with the present text, in place of the document's old one. Sets `version` to its version. `Memory` if there is none for
/// it.
#[unsafe(no_mangle)]
pub extern "C" fn tm_mirror(alloc: Global, handle: &mut Handle, doc: u64, version: &mut u64) -> u32
    ensures carried { LeavesWith result doc handle.old.held handle.new.held (version.new ≡ version.old)
        (Mirrors result doc version.old version.new) }
{
    let mut contents = taken_for!(handle, doc, alloc);
    let status = begin_mirror(&mut contents, doc, version);
    handle.put(contents);
    status.number()
}

// Returns how many events of this document were sent.
fn sent_count(followers: &[Follower], doc: u64) -> u64
    ensures { result ≡ sent_count followers.now doc }
{
    match followers.get(doc as usize) {
        Some(follower) => follower.sent.len() as u64,
        None => 0,
    }
}

fn send(contents: &mut Contents, doc: u64, number: &mut u64, from: &mut u64) -> Status
    requires { doc < DOC_COUNT }
    ensures carried { CarriesOut result doc Command.Send contents.old contents.new }
    ensures number { number.new
        ≡ handed result number.old (sent_count contents.new.session.followers.items doc) }
    ensures from { from.new
        ≡ handed result from.old ((document_in contents.new.session.group doc).version - 1) }
{
    let status = carry_out(contents, doc, Command::Send);
    if let Status::Ok = status {
        *number = sent_count(&contents.session.followers, doc);
        *from = contents.document(doc).versions().0.saturating_sub(1);
    }
    status
}

/// Sends the document's last change as an event. Sets `number` to its number, from 1 on, and `from` to the version before the change.
/// `Nothing` in version 1; `Limit` if 2^16 events were sent.
#[unsafe(no_mangle)]
pub extern "C" fn tm_send(
    alloc: Global,
    handle: &mut Handle,
    doc: u64,
    number: &mut u64,
    from: &mut u64,
) -> u32
    ensures carried { SendsHeld result doc handle.old.held handle.new.held
        number.old number.new from.old from.new }
{
    let mut contents = taken_for!(handle, doc, alloc);
    let status = send(&mut contents, doc, number, from);
    handle.put(contents);
    status.number()
}

fn followed_of(mirror: &Mirror) -> Followed
    ensures { result ≡ followed_of mirror.now }
{
    Followed {
        version: mirror.version(),
        units: mirror.len(),
        lines: mirror.line_count(),
    }
}

fn deliver(
    contents: &mut Contents,
    doc: u64,
    number: u64,
    followed: &mut Followed,
    have: &mut u64,
    need: &mut u64,
) -> Status
    requires { doc < DOC_COUNT }
    ensures carried { TakesEvent result doc number contents.old contents.new
        (have.old, need.old) (have.new, need.new) }
    ensures followed { followed.new ≡ handed result followed.old
        (followed_in contents.new.session.followers.items doc followed.old) }
{
    let status = take_event(contents, doc, number, have, need);
    if let Status::Ok = status {
        if let Some(mirror) = mirror_in(&contents.session.followers, doc) {
            *followed = followed_of(mirror);
        }
    }
    status
}

/// Delivers the event of this number to the document's mirror, which then has the next version. Sets `followed` to the mirror's state.
/// `Nothing` if the mirror has that version or a later one; `Unknown` if there is no such event or no mirror; `Gap` if earlier events are
/// missing: `have` is then the mirror's version, `need` the version from which the event leads.
#[unsafe(no_mangle)]
pub extern "C" fn tm_raw_deliver(
    alloc: Global,
    handle: &mut Handle,
    doc: u64,
    number: u64,
    followed: &mut Followed,
    have: &mut u64,
    need: &mut u64,
) -> u32
    ensures carried { DeliversHeld result doc handle.old.held handle.new.held number
        followed.old followed.new (have.old, need.old) (have.new, need.new) }
{
    let mut contents = taken_for!(handle, doc, alloc);
    let status = deliver(&mut contents, doc, number, followed, have, need);
    handle.put(contents);
    status.number()
}

/// Sets `followed` to the mirror's state; `Nothing` if there is no mirror.
#[unsafe(no_mangle)]
pub extern "C" fn tm_mirror_now(
    alloc: Global,
    handle: &mut Handle,
    doc: u64,
    followed: &mut Followed,
) -> u32
    ensures kept { handle.new.held ≡ handle.old.held }
    ensures followed { FollowedHeld result doc handle.old.held followed.old followed.new }
{
    let contents = taken_for!(handle, doc, alloc);
    let found = mirror_in(&contents.session.followers, doc).map(followed_of);
    handle.put(contents);
    let Some(found) = found else {
        return Status::Nothing.number();
    };
    *followed = found;
    Status::Ok.number()
}

fn append_line(
    followers: &[Follower],
    doc: u64,
    n: u64,
    out: &mut Vec<u16>,
) -> Result<(), ModelError>
    ensures { Appends result out.old.items out.new.items
        (mirrored_line (mirror_in followers.now doc) n) }
{
    let mirror = mirror_in(followers, doc).ok_or(ModelError::Unknown)?;
    if n == 0 || n > mirror.line_count() {
        return Err(ModelError::Range);
    }
    mirror.line(n, out).map_err(|_| ModelError::Memory)?;
    Ok(())
}

fn mirrored_out(
    alloc: Global,
    followers: &[Follower],
    doc: u64,
    n: u64,
    out: &mut [u16],
    count: &mut u64,
) -> Status
    ensures { Lists result out.old out.new count.old count.new
        (mirrored_line (mirror_in followers.now doc) n) }
{
    let mut units = Vec::new(alloc);
    let answer = append_line(followers, doc, n, &mut units);
    hand_out_of(answer, &units, out, count)
}

/// Copies the content of a line of the document's mirror. Sets `count` to its length in units. `Unknown` if there is no mirror. `Range` if
/// there is no such line. `Short` if `out` is too short.
#[unsafe(no_mangle)]
pub extern "C" fn tm_raw_mirrored(
    alloc: Global,
    handle: &mut Handle,
    doc: u64,
    n: u64,
    out: &mut [u16],
    count: &mut u64,
) -> u32
    ensures kept { handle.new.held ≡ handle.old.held }
    ensures units { MirroredHeld result doc n handle.old.held out.old out.new
        count.old count.new (λ line. line) }
{
    let contents = taken_for!(handle, doc, alloc);
    let status = mirrored_out(alloc, &contents.session.followers, doc, n, out, count);
    handle.put(contents);
    status.number()
}

fn mirrored_utf8_out(
    alloc: Global,
    followers: &[Follower],
    doc: u64,
    n: u64,
    out: &mut [u8],
    count: &mut u64,
) -> Status
    ensures { Lists result out.old out.new count.old count.new
        (in_utf8 (mirrored_line (mirror_in followers.now doc) n)) }
{
    let mut units = Vec::new(alloc);
    let answer = append_line(followers, doc, n, &mut units);
    utf8_out(alloc, answer, &units, out, count)
}

/// Like `tm_raw_mirrored`, in UTF-8; `count` is in bytes. A lone surrogate becomes U+FFFD.
#[unsafe(no_mangle)]
pub extern "C" fn tm_raw_mirrored_utf8(
    alloc: Global,
    handle: &mut Handle,
    doc: u64,
    n: u64,
    out: &mut [u8],
    count: &mut u64,
) -> u32
    ensures kept { handle.new.held ≡ handle.old.held }
    ensures bytes { MirroredHeld result doc n handle.old.held out.old out.new
        count.old count.new in_utf8 }
{
    let contents = taken_for!(handle, doc, alloc);
    let status = mirrored_utf8_out(alloc, &contents.session.followers, doc, n, out, count);
    handle.put(contents);
    status.number()
}
