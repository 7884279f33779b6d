//! Replies to the commands on a mirror and its events.

ghost use Rattle.std.specs.Prelude.{◌≡◌, ◌-◌, ◌<◌, ◌==◌, ◌∷◌, [], None, if◌then◌else◌, slice_get, length, IfOk};
ghost use Rattle.std.specs.Option.{option_copied};
ghost use Rattle.document_rules.specs.Document.{FlatState};
ghost use Rattle.group_rules.specs.declared.TheConstants.{DOC_COUNT};
ghost use Rattle.session_rules.specs.Step.{most_sent, mirror_reply, mirror_answer, send_answer, deliver_answer, mirrored_answer, sent_at};
ghost use Rattle.sessions.specs.Told.{Tells, TellsAfter};
ghost use Rattle.sessions.specs.Bytes.{bytes_of};

use crate::outcome::{Outcome, Refused, Reply};
use crate::reply::text_reply;
use crate::session::{Follower, Session};
use mirror_model::{Mirror, MirrorError};
use model_core::{Event, Model};
use script_lines::{Command, Refusal, Short};
use std::alloc::{AllocError, Global};

/// At most this many events are sent of one document.
const MOST_SENT: usize = 0x1_0000;

pub(crate) fn mirror_reply(session: &mut Session, doc: u64) -> Outcome
    requires { doc < DOC_COUNT }
    ensures { Tells session.old doc Command.Mirror result session.new }
{
    let Some(follower) = session.followers.get_mut(doc as usize) else {
        return Err(Refused(Refusal::Unknown));
    };
    begin_mirror(session.alloc, session.group.doc(doc), follower)
}

fn begin_mirror(alloc: Global, model: &Model, follower: &mut Follower) -> Outcome
    ensures { TellsAfter model.now.document (mirror_answer model.now.document)
        follower.old result follower.new }
{
    let mirror = mirror_of(alloc, model)?;
    let version = mirror.version();
    follower.mirror = Some(mirror);
    Ok(Reply::Short(Short::ok(&[version])))
}

fn mirror_of(alloc: Global, model: &Model) -> Result<Mirror, AllocError>
    ensures { IfOk result (λ m. m ≡
        record { version = model.now.document.version; units = model.now.document.units }) }
{
    let mut text = Vec::new(alloc);
    model.text(&mut text)?;
    Mirror::of_text(alloc, model.versions().0, text)
}

pub(crate) fn send_reply(session: &mut Session, doc: u64) -> Outcome
    requires { doc < DOC_COUNT }
    ensures { Tells session.old doc Command.Send result session.new }
{
    let Some(follower) = session.followers.get_mut(doc as usize) else {
        return Err(Refused(Refusal::Unknown));
    };
    send_event(session.group.doc(doc), follower)
}

fn send_event(model: &Model, follower: &mut Follower) -> Outcome
    ensures { TellsAfter model.now.document (send_answer model.now.document)
        follower.old result follower.new }
{
    let sent = follower.sent.as_slice().len();
    if sent >= MOST_SENT {
        if model.has_last_event() {
            return Err(Refused(Refusal::Limit));
        }
        return Ok(Reply::Short(Short::none()));
    }
    let Some(event) = model.last_event()? else {
        return Ok(Reply::Short(Short::none()));
    };
    let from = event.from();
    if follower.sent.push(event).is_err() {
        return Err(Refused(Refusal::Memory));
    }
    Ok(Reply::Short(Short::ok(&[sent as u64 + 1, from])))
}

pub(crate) fn deliver_reply(session: &mut Session, doc: u64, n: u64) -> Outcome
    requires { doc < DOC_COUNT }
    ensures { Tells session.old doc (Command.Deliver n) result session.new }
{
    let Some(follower) = session.followers.get_mut(doc as usize) else {
        return Err(Refused(Refusal::Unknown));
    };
    take_event(follower, n)
}

fn take_event(follower: &mut Follower, n: u64) -> Outcome
    ensures { (f : FlatState) → TellsAfter f
        (λ flat. deliver_answer flat flat.mirror (sent_at flat.sent n))
        follower.old result follower.new }
{
    let Some(mirror) = &mut follower.mirror else {
        return Err(Refused(Refusal::Unknown));
    };
    let Some(event) = event_at(&follower.sent, n) else {
        return Err(Refused(Refusal::Unknown));
    };
    match mirror.take(event) {
        Ok(true) => Ok(followed_reply(mirror)),
        Ok(false) => Ok(Reply::Short(Short::old())),
        Err(MirrorError::Gap { have, need }) => Err(Refused(Refusal::Gap { have, need })),
        Err(MirrorError::Memory) => Err(Refused(Refusal::Memory)),
        // Never happens: the events of a document fit its texts.
        Err(MirrorError::Misfit { .. }) => Err(Refused(Refusal::Unknown)),
    }
}

/// Returns the event of this number, counted from 1.
fn event_at(sent: &[Event], n: u64) -> Option<&Event>
    ensures { option_copied result ≡ if n == 0 then None else slice_get sent.now (n - 1) }
{
    let at = n.checked_sub(1)?;
    sent.get(at as usize)
}

fn followed_reply(mirror: &Mirror) -> Reply
    ensures { bytes_of result ≡ mirror_reply mirror.now }
{
    Reply::Short(Short::ok(&[mirror.version(), mirror.len(), mirror.line_count()]))
}

pub(crate) fn mirrored_reply(session: &Session, doc: u64, n: u64) -> Outcome
    requires { doc < DOC_COUNT }
    ensures { Tells session.now doc (Command.Mirrored n) result session.now }
{
    let Some(follower) = session.followers.get(doc as usize) else {
        return Err(Refused(Refusal::Unknown));
    };
    mirror_line(session.alloc, follower, n)
}

fn mirror_line(alloc: Global, follower: &Follower, n: u64) -> Outcome
    ensures { (f : FlatState) → TellsAfter f (λ flat. (mirrored_answer flat.mirror n, flat))
        follower.now result follower.now }
{
    let Some(mirror) = &follower.mirror else {
        return Err(Refused(Refusal::Unknown));
    };
    if n == 0 || n > mirror.line_count() {
        return Err(Refused(Refusal::Range));
    }
    let mut units = Vec::new(alloc);
    mirror.line(n, &mut units)?;
    Ok(text_reply(alloc, units.as_slice())?)
}
