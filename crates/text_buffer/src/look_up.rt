//! Looks up pieces, by a search or near a given piece.

ghost use Rattle.std.specs.Prelude.{◌≡◌, ◌-◌, length, List, IfSome, IsTrue};
ghost use Rattle.piece_tree.specs.Costs.{WithinLookUps};
ghost use Rattle.piece_tree.specs.Pieces.{Entry, IsFound};
ghost use Rattle.text_buffer.specs.LookUps.{Has, IsThere};

use piece_tree::{Found, PieceTree};
use steps::Steps;

/// What is sought: the unit at an offset, or the n-th break, counted from 1.
#[derive(Clone, Copy)]
pub(crate) enum Sought {
    Offset(u64),
    Break(u64),
}

impl Sought {
    /// Returns whether it is in the piece.
    pub(crate) fn is_in(self, found: &Found) -> bool
        ensures { IsTrue result → (entries : List Entry) → IsFound entries found.now
            → Has entries found.now self }
    {
        match self {
            Sought::Offset(offset) => {
                found.before.units <= offset
                    && offset - found.before.units < found.span.units as u64
            }
            Sought::Break(n) => {
                found.before.breaks < n && n - found.before.breaks <= found.breaks as u64
            }
        }
    }

    /// Returns whether it is before the piece.
    pub(crate) fn is_before(self, found: &Found) -> bool {
        match self {
            Sought::Offset(offset) => offset < found.before.units,
            Sought::Break(n) => n <= found.before.breaks,
        }
    }

    /// Finds its piece by a search. Each visited node is a step.
    pub(crate) fn find<L>(self, pieces: &PieceTree, steps: &mut Steps<L>) -> Found
        requires { IsThere pieces.now.entries self }
        ensures has { Has pieces.now.entries result self }
        ensures cost { WithinLookUps 1 (length pieces.now.entries) (steps.new - steps.old) }
    {
        match self {
            Sought::Offset(offset) => pieces.find_offset(offset, steps),
            Sought::Break(n) => pieces.find_line(n, steps),
        }
    }
}

/// Finds the sought piece. Makes no search if the piece `near` or the one beside it has what is sought. Steps are not counted.
pub(crate) fn piece_near(pieces: &PieceTree, near: &Option<Found>, sought: Sought) -> Found
    requires there { IsThere pieces.now.entries sought }
    requires near { IfSome near.now (IsFound pieces.now.entries) }
    ensures { Has pieces.now.entries result sought }
{
    let nearest = piece_toward(pieces, near, sought);
    match nearest {
        Some(found) if sought.is_in(&found) => found,
        _ => sought.find(pieces, &mut Steps::new()),
    }
}

// Returns the piece `near` if it has what is sought, else the one beside it on the sought side, if any. Steps are not counted.
fn piece_toward(pieces: &PieceTree, near: &Option<Found>, sought: Sought) -> Option<Found>
    requires { IfSome near.now (IsFound pieces.now.entries) }
    ensures { IfSome result (IsFound pieces.now.entries) }
{
    let found = (*near)?;
    if sought.is_in(&found) {
        return Some(found);
    }
    beside(pieces, &found, sought)
}

/// Returns the piece beside this one, on the side of what is sought, if any. Makes no search.
pub(crate) fn beside(pieces: &PieceTree, found: &Found, sought: Sought) -> Option<Found>
    requires { IsFound pieces.now.entries found.now }
    ensures { IfSome result (IsFound pieces.now.entries) }
{
    if sought.is_before(found) {
        pieces.prev_found(found)
    } else {
        pieces.next_found(found)
    }
}

/// Returns the first piece if it has the unit at this offset, else the second.
pub(crate) fn nearer(first: &Option<Found>, second: &Option<Found>, offset: u64) -> Option<Found>
    ensures { (entries : List Entry) → IfSome first.now (IsFound entries)
        → IfSome second.now (IsFound entries) → IfSome result (IsFound entries) }
{
    match first {
        Some(found) if Sought::Offset(offset).is_in(found) => *first,
        _ => *second,
    }
}
