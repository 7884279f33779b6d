//! Answers a script line by line.

ghost use Rattle.std.specs.Prelude.{◌≡◌, ◌<◌, ◌+◌, length, min, [], ◌∷◌, ◌++◌, if◌then◌else◌, is_err, IfNone, IfSome};
ghost use Rattle.script_streams.specs.Streams.{greatest_count};
ghost use Rattle.sessions.specs.Bytes.{is_for_memory};
ghost use Rattle.session_rules.specs.Script.{IsInOneLine};
ghost use Rattle.script_runner.specs.Progress.{IsLineSoFar, AnswersLine, AnswersPiece};
ghost use Rattle.script_runner.specs.Serving.{Serves, Finishes};

use crate::line::PartialLine;
use crate::outcome::write_outcome;
use crate::reply::reply_at_end;
use memchr::memchr;
use script_lines::Refusal;
use script_streams::{Failed, Sink, Source};
use sessions::{Outcome, Refused, Session};
use std::alloc::Global;

/// How serving a script ended.
#[derive(Clone, Copy, PartialEq, Eq, Debug)]
pub enum Served {
    /// The whole script was read and every reply written. `refused` replies begin with `!`; `memory` of them are `! memory`.
    Ended { refused: u64, memory: u64 },
    /// A read failed.
    ReadFault,
    /// A write failed.
    WriteFault,
    /// The limit of bytes was read, and the script had not ended.
    TooLong,
}

/// The state that is kept from one piece of the script to the next.
#[derive(Drop)]
pub(crate) struct Progress {
    pub line: PartialLine,
    pub refused: u64,
    pub memory: u64,
}

impl Progress {
    fn new(alloc: Global) -> Progress
        ensures line { IsLineSoFar result.line [] }
        ensures refused { result.refused ≡ 0 }
        ensures memory { result.memory ≡ 0 }
    {
        Progress {
            line: PartialLine::new(alloc),
            refused: 0,
            memory: 0,
        }
    }

    fn ended(&self) -> Served
        ensures { result ≡ Served.Ended self.now.refused self.now.memory }
    {
        Served::Ended {
            refused: self.refused,
            memory: self.memory,
        }
    }

    /// Counts a refusal, and separately one with `! memory`.
    fn count(&mut self, outcome: &Outcome)
        ensures line { self.new.line ≡ self.old.line }
        ensures refused { self.new.refused ≡ min
            (self.old.refused + (if is_err outcome.now then 1 else 0)) greatest_count }
        ensures memory { self.new.memory ≡ min
            (self.old.memory + (if is_for_memory outcome.now then 1 else 0)) greatest_count }
    {
        self.refused = self.refused.saturating_add(u64::from(outcome.is_err()));
        self.memory = self
            .memory
            .saturating_add(u64::from(is_for_memory(outcome)));
    }
}

fn is_for_memory(outcome: &Outcome) -> bool
    ensures { result ≡ is_for_memory outcome.now }
{
    matches!(outcome, Err(Refused(Refusal::Memory)))
}

/// Reads the script line by line, carries out each command, and writes its whole reply before the next command. Reads at most `most` bytes.
/// A last line without LF counts as a line if the end was seen.
pub fn serve<S: Source, K: Sink>(
    session: &mut Session,
    src: &mut S,
    out: &mut K,
    buf: &mut [u8],
    most: u64,
) -> Served
    requires { 0 < length buf.old }
    ensures { Serves result most session.old session.new
        (S.state src.old) (S.state src.new) (K.state out.old) (K.state out.new) }
{
    let mut progress = Progress::new(session.alloc);
    let mut left = most;
    while left > 0 {
        let room = buf.len().min(left as usize);
        let Ok(given) = src.read(&mut buf[..room]) else {
            return Served::ReadFault;
        };
        if given == 0 {
            return finish(session, progress, out);
        }
        left -= given as u64;
        if answer_piece(session, &mut progress, &buf[..given], out).is_err() {
            return Served::WriteFault;
        }
    }
    Served::TooLong
}

/// Answers the last line, if the script does not end with LF.
fn finish<K: Sink>(session: &mut Session, mut progress: Progress, out: &mut K) -> Served
    ensures { Finishes result session.old progress session.new
        (K.state out.old) (K.state out.new) }
{
    if progress.line.len == 0 {
        return progress.ended();
    }
    match answer_line(session, &mut progress, &[], out) {
        Ok(()) => progress.ended(),
        Err(Failed) => Served::WriteFault,
    }
}

/// Answers the line that ends with these bytes.
fn answer_line<K: Sink>(
    session: &mut Session,
    progress: &mut Progress,
    end: &[u8],
    out: &mut K,
) -> Result<(), Failed>
    ensures { AnswersLine result end.now session.old progress.old
        session.new progress.new (K.state out.old) (K.state out.new) }
{
    let outcome = reply_at_end(session, &mut progress.line, end);
    write_outcome(&outcome, out)?;
    progress.count(&outcome);
    progress.line.clear();
    Ok(())
}

/// Answers each line that ends in this piece of the script, and keeps the bytes after the last LF.
fn answer_piece<K: Sink>(
    session: &mut Session,
    progress: &mut Progress,
    piece: &[u8],
    out: &mut K,
) -> Result<(), Failed>
    ensures { AnswersPiece result piece.now session.old progress.old
        session.new progress.new (K.state out.old) (K.state out.new) }
{
    let mut rest = piece;
    while let Some((line, after)) = split_line(rest) {
        answer_line(session, progress, line, out)?;
        rest = after;
    }
    progress.line.extend(rest);
    Ok(())
}

/// Returns the bytes before the first LF, and those after it; None if there is no LF.
fn split_line(bytes: &[u8]) -> Option<(&[u8], &[u8])>
    ensures none { IfNone result (IsInOneLine bytes.now) }
    ensures split { IfSome result (λ parts. bytes.now ≡ parts.0.now ++ 10 ∷ parts.1.now) }
    ensures line { IfSome result (λ parts. IsInOneLine parts.0.now) }
{
    let at = memchr(b'\n', bytes)?;
    Some((&bytes[..at], &bytes[at + 1..]))
}
