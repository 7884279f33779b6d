//! Pieces, their names and their sums.
ghost use Rattle.std.specs.Prelude.{◌≡◌, ◌+◌, ◌<◌, ◌^◌};
ghost use Rattle.chunk_buffers.specs.Chunks.{LiesIn};
ghost use Rattle.piece_tree.specs.Pieces.{piece_of, IsPieceOf, goes_on, prolonged};

use chunk_buffers::{ChunkSpan, Chunks};
use raw_arena::NodeId;

/// The name of a piece in its tree: its run, and its place in the run. A splice may change it.
#[derive(Clone, Copy, PartialEq, Eq, Debug)]
pub struct PieceId {
    pub(crate) run: NodeId,
    pub(crate) place: u32,
}

/// A part of the text: a span of units, with its number of breaks.
#[derive(Clone, Copy, PartialEq, Eq, Debug)]
pub struct Piece {
    pub span: ChunkSpan,
    /// The number of breaks of its units.
    pub breaks: u32,
}

/// The number of units and of breaks of some pieces together.
#[derive(Clone, Copy, PartialEq, Eq, Debug)]
pub struct PieceSum {
    pub units: u64,
    pub breaks: u64,
}

/// A looked-up piece, with its name and the sum of the pieces before it.
#[derive(Clone, Copy, PartialEq, Eq, Debug)]
pub struct Found {
    pub id: PieceId,
    pub span: ChunkSpan,
    /// The number of breaks of its units.
    pub breaks: u32,
    /// The sum of the pieces before it.
    pub before: PieceSum,
}

/// Returns the piece of a span, with its breaks counted.
pub fn piece_of(chunks: &Chunks, span: ChunkSpan) -> Piece
    requires { LiesIn chunks.now.buffers span }
    ensures piece { result ≡ piece_of chunks.now.buffers span }
    ensures counted { IsPieceOf chunks.now.buffers result }
{
    Piece {
        span,
        breaks: chunks.breaks(span) as u32,
    }
}

/// Returns whether the second span starts where the first one ends, in the same buffer.
pub(crate) fn goes_on(first: ChunkSpan, second: ChunkSpan) -> bool
    ensures { result ≡ goes_on first second }
{
    first.buffer == second.buffer
        && first.start <= second.start
        && second.start - first.start == first.units
}

/// Returns the first span extended by the length of the second, which starts where the first ends.
pub(crate) fn prolonged(first: ChunkSpan, second: ChunkSpan) -> ChunkSpan
    requires { first.units + second.units < 2 ^ 32 }
    ensures { result ≡ prolonged first second }
{
    ChunkSpan {
        buffer: first.buffer,
        start: first.start,
        units: first.units + second.units,
    }
}
