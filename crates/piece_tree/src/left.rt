//! The rest of some pieces after their first units are removed.
ghost use Rattle.std.specs.Prelude.{◌≡◌, ◌≤◌, nat_lt, length};
ghost use Rattle.std.specs.List.{All};
ghost use Rattle.std.specs.Option.{ForSome};
ghost use Rattle.piece_tree.specs.Pieces.{IsPieceOf};
ghost use Rattle.piece_tree.specs.Splicing.{IsLeft, count_left};

use crate::piece::{Piece, piece_of};
use chunk_buffers::Chunks;

/// The rest of some pieces after their first units are removed.
#[derive(Clone, Copy)]
pub(crate) struct Left {
    /// The rest of a piece that is cut, if one is.
    pub rest: Option<Piece>,
    /// The index of the first piece that stays whole.
    pub from: usize,
    /// The number of units to remove beyond those of the pieces.
    pub missing: u64,
}

impl Left {
    /// Returns whether anything is left of `count` pieces.
    pub fn has_any(&self, count: usize) -> bool
        ensures { result ≡ nat_lt 0 (count_left self.now count) }
    {
        self.from < count || self.rest.is_some()
    }
}

/// Returns what is left of the pieces from index `from` on without their first `units` units. Empty pieces before the first unit that stays
/// go too.
pub(crate) fn left_of(pieces: &[Piece], from: usize, units: u64, chunks: &Chunks) -> Left
    requires place { from ≤ length pieces.now }
    requires counted { All (IsPieceOf chunks.now.buffers) pieces.now }
    ensures left { IsLeft chunks.now.buffers pieces.now from units result }
    ensures counted { ForSome result.rest (IsPieceOf chunks.now.buffers) }
{
    let mut missing = units;
    let mut place = from;
    while place < pieces.len() {
        let span = pieces[place].span;
        let own = span.units as u64;
        if missing == 0 && 0 < own {
            return Left {
                rest: None,
                from: place,
                missing,
            };
        }
        if missing < own {
            return Left {
                rest: Some(piece_of(chunks, chunks.part(span, missing, own))),
                from: place + 1,
                missing: 0,
            };
        }
        missing -= own;
        place += 1;
    }
    Left {
        rest: None,
        from: place,
        missing,
    }
}
