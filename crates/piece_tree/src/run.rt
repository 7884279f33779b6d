//! A run: adjacent pieces in one block.
ghost use Rattle.std.specs.Prelude.{◌≡◌, ◌+◌, ◌-◌, ◌<◌, ◌≤◌, ◌++◌, [], length};
ghost use Rattle.piece_tree.specs.Pieces.{listed, sum_of};
ghost use Rattle.piece_tree.specs.Runs.{most_pieces, replaced, IsRun, listed_in};

use crate::piece::{Piece, PieceSum};
use chunk_buffers::ChunkSpan;

/// The most pieces of a run.
pub const MOST_PIECES: usize = 16;

/// Fills the unused places of a run.
const NO_PIECE: Piece = Piece {
    span: ChunkSpan {
        buffer: 0,
        start: 0,
        units: 0,
    },
    breaks: 0,
};

/// At most 16 pieces.
#[derive(Clone, Copy)]
pub struct Run {
    pieces: [Piece; MOST_PIECES],
    count: usize,
}

impl Run {
    /// Returns an empty run.
    pub(crate) fn new() -> Run
        ensures run { IsRun result }
        ensures none { listed_in result ≡ [] }
    {
        Run {
            pieces: [NO_PIECE; MOST_PIECES],
            count: 0,
        }
    }

    /// Returns a run of these pieces.
    pub(crate) fn of(pieces: &[Piece]) -> Run
        requires { length pieces.now ≤ most_pieces }
        ensures run { IsRun result }
        ensures pieces { listed_in result ≡ pieces.now }
    {
        let mut run = Run::new();
        run.replace(0, 0, pieces);
        run
    }

    /// Returns the pieces in order.
    pub(crate) fn pieces(&self) -> &[Piece]
        requires { IsRun self.now }
        ensures { result.now ≡ listed_in self.now }
    {
        &self.pieces[..self.count]
    }

    /// Appends a piece, if one is given.
    pub(crate) fn push_some(&mut self, piece: Option<Piece>)
        requires run { IsRun self.old }
        requires room { length (listed_in self.old) < most_pieces }
        ensures run { IsRun self.new }
        ensures pieces { listed_in self.new ≡ listed_in self.old ++ listed piece }
    {
        if let Some(piece) = piece {
            self.pieces[self.count] = piece;
            self.count += 1;
        }
    }

    /// Replaces the pieces from index `from` to `to` by others.
    pub(crate) fn replace(&mut self, from: usize, to: usize, with: &[Piece])
        requires run { IsRun self.old }
        requires ordered { from ≤ to }
        requires within { to ≤ length (listed_in self.old) }
        requires fits { from + length with.now + (length (listed_in self.old) - to) ≤ most_pieces }
        ensures run { IsRun self.new }
        ensures pieces { listed_in self.new ≡ replaced from to with.now (listed_in self.old) }
    {
        let end = from + with.len();
        let behind = self.count - to;
        self.pieces.copy_within(to..self.count, end);
        self.pieces[from..end].copy_from_slice(with);
        self.count = end + behind;
    }
}

/// Returns the sum of these pieces.
pub(crate) fn sum_of(pieces: &[Piece]) -> PieceSum
    requires { length pieces.now ≤ most_pieces }
    ensures { result ≡ sum_of pieces.now }
{
    let mut sum = PieceSum {
        units: 0,
        breaks: 0,
    };
    for piece in pieces {
        sum.units += piece.span.units as u64;
        sum.breaks += piece.breaks as u64;
    }
    sum
}
