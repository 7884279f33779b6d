//! Sources and sinks over std's readers and writers, whose behaviour is trusted.
ghost use Rattle.std.specs.Prelude.{◌≡◌, ◌<◌, None};
ghost use Rattle.std.specs.Io.{ReadsAtMost, WritesAtMost};
ghost use Rattle.std.specs.Io.KnownBytes.{WriteAppends};
ghost use Rattle.script_streams.specs.Fresh.{fresh_source, fresh_sink};
ghost use Rattle.script_streams.specs.Writer.{TellsAlwaysOrNever, TakesFront};

use crate::{Failed, Sink, Source};
use std::io;
use std::io::{ErrorKind, Read, Write};
use std::marker::Model;

/// A source over a reader. Contracts know nothing of the bytes that are left. An error of the reader counts as a fault,
/// but a read interrupted by a signal is tried again.
#[derive(Drop)]
pub struct StdSource<R> {
    reader: R,
    given: u64,
    ended: bool,
    faults: u64,
}

impl<R> Model for StdSource<R> {
    ghost use Rattle.std.specs.Prelude.{None};
    ghost use Rattle.script_streams.specs.Streams.{SourceState};

    ghost Value = { SourceState };

    ghost view = { λ s. record {
      left = None;
      given = s.given;
      ended = s.ended;
      faults = s.faults;
    } };
}

impl<R> StdSource<R> {
    /// Creates a source over the reader. Its counts of bytes and faults begin at 0.
    pub fn new(reader: R) -> StdSource<R>
        ensures { result ≡ fresh_source None }
    {
        StdSource {
            reader,
            given: 0,
            ended: false,
            faults: 0,
        }
    }
}

impl<R: Read> Source for StdSource<R> {
    ghost state = { λ s. s };

    fn read(&mut self, buf: &mut [u8]) -> Result<usize, Failed> {
        let answer = read_past_signals(&mut self.reader, buf);
        self.ended = !buf.is_empty() && matches!(answer, Ok(0));
        match answer {
            Ok(count) => {
                self.given = self.given.saturating_add(count as u64);
                Ok(count)
            }
            Err(_) => {
                self.faults = self.faults.saturating_add(1);
                Err(Failed)
            }
        }
    }
}

/// Reads, and tries again after a read interrupted by a signal.
fn read_past_signals<R: Read>(reader: &mut R, buf: &mut [u8]) -> io::Result<usize>
    ensures { ReadsAtMost result buf.new }
{
    for _ in 0..u64::MAX {
        match reader.read(buf) {
            Err(error) if error.kind() == ErrorKind::Interrupted => {}
            answer => return answer,
        }
    }
    Err(io::Error::from(ErrorKind::Interrupted))
}

/// A sink over a writer. Contracts know the bytes written if they know those of the writer; the room is 0. Each piece is
/// flushed before the write returns. An error of the writer counts as a fault, and so does a write of 0 bytes of a
/// non-empty piece, but a write interrupted by a signal is tried again.
#[derive(Drop)]
pub struct StdSink<W: Write> {
    writer: W,
    faults: u64,
}

impl<W: Write> Model for StdSink<W> {
    ghost use Rattle.std.specs.Prelude.{None};
    ghost use Rattle.script_streams.specs.Streams.{SinkState};
    ghost use Rattle.script_streams.specs.Writer.{TellsAlwaysOrNever};

    ghost Value = { SinkState };

    ghost view = { λ s. record {
      taken = W.contents s.writer;
      room = 0;
      faults = s.faults;
      tally = None;
    } };

    ghost invariant = { λ _. TellsAlwaysOrNever W.contents };
}

impl<W: Write> StdSink<W> {
    /// Creates a sink over the writer. The contents of the writer must be known at all times, or never, as for standard output.
    pub fn new(writer: W) -> StdSink<W>
        requires { TellsAlwaysOrNever W.contents }
        ensures { result ≡ fresh_sink 0 (W.contents writer) }
    {
        StdSink { writer, faults: 0 }
    }

    /// Returns the writer, with all bytes written to the sink.
    pub fn into_inner(self) -> W
        ensures { W.contents result ≡ self.taken }
    {
        self.writer
    }
}

impl<W: Write> Sink for StdSink<W> {
    ghost state = { λ s. s };

    fn write(&mut self, piece: &[u8]) -> Result<usize, Failed> {
        match write_flushed(&mut self.writer, piece) {
            Ok(taken) => {
                if taken == 0 && !piece.is_empty() {
                    self.faults = self.faults.saturating_add(1);
                }
                Ok(taken)
            }
            Err(_) => {
                self.faults = self.faults.saturating_add(1);
                Err(Failed)
            }
        }
    }
}

/// Writes a prefix of the piece, and flushes the writer.
fn write_flushed<W: Write>(writer: &mut W, piece: &[u8]) -> io::Result<usize>
    requires { TellsAlwaysOrNever W.contents }
    ensures bound { WritesAtMost result piece.now }
    ensures bytes { TakesFront result (W.contents writer.old) (W.contents writer.new) piece.now }
{
    let taken = write_past_signals(writer, piece)?;
    writer.flush()?;
    Ok(taken)
}

/// Writes, and tries again after a write interrupted by a signal.
fn write_past_signals<W: Write>(writer: &mut W, piece: &[u8]) -> io::Result<usize>
    ensures bound { WritesAtMost result piece.now }
    ensures bytes { WriteAppends (W.contents writer.old) (W.contents writer.new) result piece.now }
{
    for _ in 0..u64::MAX {
        match writer.write(piece) {
            Err(error) if error.kind() == ErrorKind::Interrupted => {}
            answer => return answer,
        }
    }
    Err(io::Error::from(ErrorKind::Interrupted))
}
