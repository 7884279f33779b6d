//! Plays the script made from a count and a seed, and sums up the replies.

ghost use Rattle.std.specs.Prelude.{◌≡◌, ◌≤◌, ◌<◌, ◌+◌, ◌++◌, length, IfSome};
ghost use Rattle.arrayvec.specs.ArrayVec.{array_vec_len};
ghost use Rattle.script_play.specs.Script.{IsCount};
ghost use Rattle.script_runner.specs.Playing.{part, line_of, SumsUp, Shows, Plays, HasEnded};

use crate::running::{MOST_SCRIPT_BYTES, Status, read_buffer};
use crate::serving::{Served, serve};
use arrayvec::ArrayVec;
use itoa::Buffer;
use script_play::{PlaySource, TallySink};
use script_streams::{Sink, write_whole};
use sessions::Session;
use std::alloc::Global;

/// The summary of a played script.
#[derive(Clone, Copy, PartialEq, Eq, Debug)]
pub(crate) struct Summary {
    /// The number of lines of the script.
    pub count: u32,
    /// The number of replies that begin with `!`.
    pub refused: u64,
    /// The length of document 0 at the end, in units.
    pub units: u64,
    /// The number of its lines.
    pub lines: u64,
    /// The number of bytes of all replies, modulo 2^32.
    pub bytes: u32,
    /// The sum of those bytes, modulo 2^32.
    pub total: u32,
}

/// Runs the script on new documents and writes one line of summary. Writes nothing if memory was short.
pub(crate) fn play<K: Sink>(alloc: Global, count: u32, seed: u64, out: &mut K) -> Status
    requires { IsCount count }
    ensures { Plays result count seed (K.state out.old) (K.state out.new) }
{
    let Ok(mut buf) = read_buffer(alloc) else {
        return Status::Memory;
    };
    let Some(summary) = sum_up(alloc, count, seed, buf.as_mut_slice()) else {
        return Status::Memory;
    };
    show(&summary, out)
}

/// Runs the script on new documents. `None` if there is no memory for them or a reply is `! memory`.
fn sum_up(alloc: Global, count: u32, seed: u64, buf: &mut [u8]) -> Option<Summary>
    requires count { IsCount count }
    requires room { 0 < length buf.old }
    ensures { IfSome result (λ summary. SumsUp summary count seed) }
{
    let Ok(mut session) = Session::new(alloc) else {
        return None;
    };
    let mut src = PlaySource::new(count, seed);
    let mut tally = TallySink::new();
    let served = serve(&mut session, &mut src, &mut tally, buf, MOST_SCRIPT_BYTES);
    let refused = refused_of(served)?;
    let model = session.group.doc(0);
    Some(Summary {
        count,
        refused,
        units: model.len(),
        lines: model.line_count(),
        bytes: tally.count(),
        total: tally.sum(),
    })
}

/// Returns how many replies begin with `!`. `None` if one of them is `! memory`.
fn refused_of(served: Served) -> Option<u64>
    requires { HasEnded served }
    ensures { IfSome result (λ refused. served ≡ Served.Ended refused 0) }
{
    match served {
        Served::Ended { refused, memory: 0 } => Some(refused),
        Served::Ended { .. } => None,
        Served::ReadFault | Served::WriteFault | Served::TooLong => unreachable!(),
    }
}

/// Writes the line of the summary.
fn show<K: Sink>(summary: &Summary, out: &mut K) -> Status
    ensures { Shows result summary.now (K.state out.old) (K.state out.new) }
{
    let line = line_of(summary);
    match write_whole(out, line.as_slice()) {
        Ok(()) if summary.refused == 0 => Status::Answered,
        Ok(()) => Status::Refused,
        Err(_) => Status::WriteFault,
    }
}

/// Returns `commands C refused R units U lines L bytes B sum S` and LF.
fn line_of(summary: &Summary) -> ArrayVec<u8, 192>
    ensures { result.items ≡ line_of summary.now }
{
    let mut line = ArrayVec::new();
    push_part(&mut line, b"commands ", u64::from(summary.count));
    push_part(&mut line, b" refused ", summary.refused);
    push_part(&mut line, b" units ", summary.units);
    push_part(&mut line, b" lines ", summary.lines);
    push_part(&mut line, b" bytes ", u64::from(summary.bytes));
    push_part(&mut line, b" sum ", u64::from(summary.total));
    line.push(b'\n');
    line
}

/// Appends a word and its number.
fn push_part(line: &mut ArrayVec<u8, 192>, word: &[u8], number: u64)
    requires { array_vec_len line.old + length word.now + 20 ≤ 192 }
    ensures bytes { line.new.items ≡ line.old.items ++ part word.now number }
    ensures most { array_vec_len line.new ≤ array_vec_len line.old + length word.now + 20 }
{
    let mut buffer = Buffer::new();
    line.try_extend_from_slice(word).unwrap();
    line.try_extend_from_slice(buffer.format(number).as_bytes())
        .unwrap();
}
