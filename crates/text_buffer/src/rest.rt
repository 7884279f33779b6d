//! The rest of a text from an offset on.

ghost use Rattle.std.specs.Prelude.{◌≡◌, ◌∷◌, ◌+◌, ◌-◌, ◌≤◌, [], None, length, MatchOption, IfSome};
ghost use Rattle.std.specs.Option.{ForNone};
ghost use Rattle.piece_tree.specs.Costs.{WithinLookUps};
ghost use Rattle.piece_tree.specs.Pieces.{pieces_of, back, IsFound};
ghost use Rattle.text_buffer.specs.Reading.{spans_left, pieces_left, AreBehind, CanRead};
ghost use Rattle.text_buffer.specs.Views.{IsView, units_in, entries_in, buffers_in};

use crate::view::View;
use chunk_buffers::ChunkSpan;
use piece_tree::{Found, PieceTree, PieceWalk};
use steps::Steps;

/// The rest of a text: the rest of a piece, if any, and the pieces after it.
#[derive(Drop)]
pub(crate) struct Rest<'t> {
    pub first: Option<ChunkSpan>,
    pub behind: PieceWalk<'t>,
}

impl<'t> View<'t> {
    /// Returns the rest from the offset on, with at most one search. The piece `near` is tried first.
    pub(crate) fn rest_from(&self, near: &Option<Found>, offset: u64) -> Rest<'t>
        requires view { IsView self.now }
        requires near { IfSome near.now (IsFound (entries_in self.now)) }
        requires within { offset ≤ length (units_in self.now) }
        ensures left { pieces_left (buffers_in self.now) result
            ≡ back (buffers_in self.now) offset (pieces_of (entries_in self.now)) }
        ensures can { CanRead (buffers_in self.now) (pieces_left (buffers_in self.now) result) }
        ensures due { WithinLookUps 2 (length (entries_in self.now)) result.behind.due }
    {
        if offset == self.len() {
            return Rest {
                first: None,
                behind: self.pieces.walk_from(None),
            };
        }
        let found = self.piece_at(near, offset);
        let own = offset - found.before.units;
        Rest {
            first: Some(self.part_in(&found, own, found.span.units as u64)),
            behind: walk_behind(self.pieces, &found),
        }
    }
}

// Walks over the pieces after this one.
fn walk_behind<'t>(pieces: &'t PieceTree, found: &Found) -> PieceWalk<'t>
    requires { IsFound pieces.now.entries found.now }
    ensures left { AreBehind pieces.now.entries found.now result.left }
    ensures due { WithinLookUps 2 (length pieces.now.entries) result.due }
{
    match pieces.next_found(found) {
        Some(next) => pieces.walk_from(Some(next.id)),
        None => pieces.walk_from(None),
    }
}

impl Rest<'_> {
    /// Takes the next span from the rest; None if nothing is left. Each visited node is a step.
    pub(crate) fn next<L>(&mut self, steps: &mut Steps<L>) -> Option<ChunkSpan>
        ensures span { MatchOption result (spans_left self.old ≡ [])
            (λ span. spans_left self.old ≡ span ∷ spans_left self.new) }
        ensures end { ForNone result (spans_left self.new ≡ []) }
        ensures taken { self.new.first ≡ None }
        ensures cost { (steps.new - steps.old) + self.new.behind.due ≤ self.old.behind.due + 3 }
    {
        if let Some(span) = self.first.take() {
            return Some(span);
        }
        let (_, piece) = self.behind.next(steps)?;
        Some(piece.span)
    }
}
