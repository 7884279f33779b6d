//! Answers the line that was read.

ghost use Rattle.std.specs.Prelude.{◌++◌, ℕ, List};
ghost use Rattle.script_runner.specs.Progress.{IsLineSoFar};
ghost use Rattle.sessions.specs.Bytes.{bytes_of_outcome};
ghost use Rattle.sessions.specs.Standing.{Turns};
ghost use Rattle.sessions.specs.Told.{IsAccepted};

use crate::line::PartialLine;
use script_lines::Refusal;
use sessions::{Outcome, Refused, Reply, Session};

/// Answers the line that ends with these bytes. Does not copy them if they are the whole line.
pub(crate) fn reply_at_end(session: &mut Session, line: &mut PartialLine, end: &[u8]) -> Outcome
    ensures turn { (bytes : List ℕ) → IsLineSoFar line.old bytes
        → Turns session.old (bytes ++ end.now) (bytes_of_outcome result) session.new }
    ensures accepted { IsAccepted result }
{
    if line.len == 0 {
        return session.answer(end);
    }
    line.extend(end);
    reply_to_kept(session, line)
}

/// Answers the line from the bytes that were kept.
fn reply_to_kept(session: &mut Session, line: &PartialLine) -> Outcome
    ensures turn { (bytes : List ℕ) → IsLineSoFar line.now bytes
        → Turns session.old bytes (bytes_of_outcome result) session.new }
    ensures accepted { IsAccepted result }
{
    if line.is_too_long() {
        return Err(Refused(Refusal::Limit));
    }
    if line.is_blank {
        return Ok(Reply::Nothing);
    }
    if line.is_lost {
        return Err(Refused(Refusal::Memory));
    }
    session.answer(line.bytes.as_slice())
}
