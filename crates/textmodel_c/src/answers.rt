//! Script lines and their replies.

ghost use Rattle.std.specs.Prelude.{◌≡◌, None, length};
ghost use Rattle.sessions.specs.Bytes.{bytes_of_outcome};
ghost use Rattle.sessions.specs.Standing.{Turns};
ghost use Rattle.textmodel_c.specs.Told.{CopiedFrom, HasAnswered, LeavesSession, RepliesHeld};

use crate::contents::Contents;
use crate::handle::{Handle, taken};
use crate::status::Status;
use script_lines::refusal;
use sessions::{Outcome, Refused};
use std::alloc::Global;

/// Returns the version of this library: 10000 times the major number, 100 times the minor number, plus the patch.
#[unsafe(no_mangle)]
pub extern "C" fn tm_version() -> u32
    ensures { result ≡ 10000 }
{
    10000
}

// Answers the line, keeps the reply and returns its length in bytes. The line may have opened a document, so `tm_next_change` starts again.
fn answer(contents: &mut Contents, line: &[u8]) -> u64
    ensures turn { Turns contents.old.session line.now
        (bytes_of_outcome contents.new.reply) contents.new.session }
    ensures len { result ≡ length (bytes_of_outcome contents.new.reply) }
    ensures telling { contents.new.telling ≡ None }
{
    let outcome = contents.session.answer(line);
    let len = reply_len(&outcome);
    contents.reply = outcome;
    contents.telling = None;
    len
}

// Returns the length of a reply in bytes.
fn reply_len(outcome: &Outcome) -> u64
    ensures { result ≡ length (bytes_of_outcome outcome.now) }
{
    match outcome {
        Ok(reply) => reply.as_slice().len() as u64,
        Err(Refused(reason)) => refusal(*reason).as_slice().len() as u64,
    }
}

/// Answers a script line for the whole session. The line comes without its LF. Keeps the reply and sets `len` to its length in bytes.
#[unsafe(no_mangle)]
pub extern "C" fn tm_raw_answer(
    alloc: Global,
    handle: &mut Handle,
    line: &[u8],
    len: &mut u64,
) -> u32
    ensures document { LeavesSession result handle.old.held handle.new.held (len.new ≡ len.old)
        (HasAnswered result line.now len.new) }
{
    let mut contents = taken!(handle, alloc);
    *len = answer(&mut contents, line);
    handle.put(contents);
    Status::Ok.number()
}

// Copies as many bytes from the offset `from` on as fit into `out`. Sets `count` to their number.
fn copy_from(bytes: &[u8], from: u64, out: &mut [u8], count: &mut u64) -> Status
    ensures { CopiedFrom result bytes.now from out.old out.new count.old count.new }
{
    if from > bytes.len() as u64 {
        return Status::Range;
    }
    let (_, rest) = bytes.split_at(from as usize);
    let n = rest.len().min(out.len());
    let (source, _) = rest.split_at(n);
    let (front, _) = out.split_at_mut(n);
    front.copy_from_slice(source);
    *count = n as u64;
    Status::Ok
}

fn copy_reply(outcome: &Outcome, from: u64, out: &mut [u8], count: &mut u64) -> Status
    ensures { CopiedFrom result (bytes_of_outcome outcome.now) from
        out.old out.new count.old count.new }
{
    match outcome {
        Ok(reply) => copy_from(reply.as_slice(), from, out, count),
        Err(Refused(reason)) => copy_from(refusal(*reason).as_slice(), from, out, count),
    }
}

/// Copies as much of the last reply from byte `from` on as fits into `out`. Sets `count` to its length in bytes. `Range` if `from` is
/// beyond the end of the reply.
#[unsafe(no_mangle)]
pub extern "C" fn tm_raw_reply(
    alloc: Global,
    handle: &mut Handle,
    from: u64,
    out: &mut [u8],
    count: &mut u64,
) -> u32
    ensures kept { handle.new.held ≡ handle.old.held }
    ensures reply { RepliesHeld result handle.old.held from out.old out.new count.old count.new }
{
    let contents = taken!(handle, alloc);
    let status = copy_reply(&contents.reply, from, out, count);
    handle.put(contents);
    status.number()
}
