//! Pieces by their names, and their neighbours.
ghost use Rattle.std.specs.Prelude.{◌≡◌, ◌∷◌, ◌++◌, [], None, IfSome, MatchOption};
ghost use Rattle.rb_arena.specs.RbTree.{IsItem, AtItem};
ghost use Rattle.piece_tree.specs.Pieces.{IsAmong, AtEntry};
ghost use Rattle.piece_tree.specs.Runs.{entries_of, first_named, last_named, found_in};

use crate::piece::{Found, Piece, PieceId, PieceSum};
use crate::runs::RunTree;
use raw_arena::NodeId;

/// Returns the first piece of a run; None for None.
fn first_in(runs: &RunTree, run: Option<NodeId>) -> Option<(PieceId, Piece)>
    requires { IfSome run (IsItem runs.now.runs) }
    ensures { MatchOption run (result ≡ None) (λ id. AtItem runs.now.runs id (λ us x vs.
        result ≡ first_named (entries_of ((id, x) ∷ vs)))) }
{
    let run = run?;
    let id = PieceId { run, place: 0 };
    Some((id, runs.get(run)[0]))
}

/// Returns the last piece of a run; None for None.
fn last_in(runs: &RunTree, run: Option<NodeId>) -> Option<(PieceId, Piece)>
    requires { IfSome run (IsItem runs.now.runs) }
    ensures { MatchOption run (result ≡ None) (λ id. AtItem runs.now.runs id (λ us x vs.
        result ≡ last_named (entries_of (us ++ (id, x) ∷ [])))) }
{
    let run = run?;
    let pieces = runs.get(run);
    let place = pieces.len() - 1;
    let id = PieceId {
        run,
        place: place as u32,
    };
    Some((id, pieces[place]))
}

/// Returns the last piece with its name; None if there are no pieces.
pub(crate) fn last_piece(runs: &RunTree) -> Option<(PieceId, Piece)>
    ensures { result ≡ last_named (entries_of runs.now.runs) }
{
    last_in(runs, runs.last())
}

/// Returns the piece after the named one; None after the last.
pub(crate) fn piece_after(runs: &RunTree, id: PieceId) -> Option<(PieceId, Piece)>
    requires { IsAmong (entries_of runs.now.runs) id }
    ensures { AtEntry (entries_of runs.now.runs) id (λ earlier later.
        result ≡ first_named later) }
{
    let pieces = runs.get(id.run);
    let place = id.place as usize + 1;
    if place == pieces.len() {
        return first_in(runs, runs.next(id.run));
    }
    let next = PieceId {
        run: id.run,
        place: id.place + 1,
    };
    Some((next, pieces[place]))
}

/// Returns the piece before the named one; None before the first.
pub(crate) fn piece_before(runs: &RunTree, id: PieceId) -> Option<(PieceId, Piece)>
    requires { IsAmong (entries_of runs.now.runs) id }
    ensures { AtEntry (entries_of runs.now.runs) id (λ earlier later.
        result ≡ last_named earlier) }
{
    if id.place == 0 {
        return last_in(runs, runs.prev(id.run));
    }
    let pieces = runs.get(id.run);
    let before = PieceId {
        run: id.run,
        place: id.place - 1,
    };
    Some((before, pieces[id.place as usize - 1]))
}

/// Returns a piece as a look-up would, with its name and the sum of the pieces before it.
pub(crate) fn found(at: (PieceId, Piece), before: PieceSum) -> Found
    ensures { result ≡ found_in at.0 at.1 before }
{
    let (id, piece) = at;
    Found {
        id,
        span: piece.span,
        breaks: piece.breaks,
        before,
    }
}
