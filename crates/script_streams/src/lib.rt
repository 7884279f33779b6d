//! Traits for the source of a script and the sink of its replies, and implementations over std's readers and writers.
#![tactic(auto)]

mod front;
mod standard;
mod whole;

ghost use Rattle.script_streams.specs.Streams.{SourceState, SinkState, Reads, Writes};

pub use front::copy_front;
pub use standard::{StdSink, StdSource};
use thiserror::Error;
pub use whole::write_whole;

/// A read or a write failed.
#[derive(Clone, Copy, PartialEq, Eq, Debug, Error)]
#[error("a read or a write failed")]
pub struct Failed;

/// A source of the bytes of a script.
pub trait Source {
    ghost state: { Self → SourceState };

    /// Reads the next bytes into the front of the buffer, and returns their number. 0 for a non-empty buffer means the
    /// end of the script. A read that fails consumes nothing.
    fn read(&mut self, buf: &mut [u8]) -> Result<usize, Failed>
        ensures { Reads result (state self.old) (state self.new) buf.new };
}

/// A sink for the bytes of replies. If contracts know the bytes written to it, they still do while these are at most `room`
/// bytes.
pub trait Sink {
    ghost state: { Self → SinkState };

    /// Writes a prefix of the piece, and returns its length. A write that fails may have written a prefix too. A write
    /// of nothing counts as failed, unless the piece is empty.
    fn write(&mut self, piece: &[u8]) -> Result<usize, Failed>
        ensures { Writes result (state self.old) (state self.new) piece.now };
}
