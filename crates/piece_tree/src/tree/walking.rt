//! A walk over the pieces, from a given one on.
ghost use Rattle.std.specs.Prelude.{◌≡◌, ◌∷◌, ◌+◌, ◌-◌, ◌≤◌, [], length, IfSome, MatchOption};
ghost use Rattle.std.specs.Option.{ForNone};
ghost use Rattle.piece_tree.specs.Pieces.{IsAmong};
ghost use Rattle.piece_tree.specs.Costs.{WithinLookUps};
ghost use Rattle.piece_tree.specs.Walking.{LeftFrom, place_of};

use crate::piece::{Piece, PieceId};
use crate::runs::RunWalk;
use crate::tree::PieceTree;
use raw_arena::NodeId;
use std::marker::Model;
use steps::Steps;

/// A walk over the pieces of a text in their order, from a given one on. Contracts see the pieces that are left, and `due`: the rest of the
/// walk takes at most `due` steps more than three for each of them.
#[derive(Drop)]
pub struct PieceWalk<'t> {
    /// The current run, if any, its pieces, and the place of the next piece.
    run: Option<NodeId>,
    pieces: &'t [Piece],
    place: u32,
    behind: RunWalk<'t>,
}

impl<'t> Model for PieceWalk<'t> {
    ghost use Rattle.piece_tree.specs.Walking.{Walked, left_of, WalksIn};

    ghost Value = { Walked };

    ghost view = { λ a. record { left = left_of a.run a.pieces.now a.place a.behind.left; due = a.behind.due } };

    ghost invariant = { λ a. WalksIn a.run a.pieces.now a.place a.behind.left };
}

/// Returns the run and the place of a name; None and 0 for None.
fn place_of(id: Option<PieceId>) -> (Option<NodeId>, u32)
    ensures { result ≡ place_of id }
{
    match id {
        Some(id) => (Some(id.run), id.place),
        None => (None, 0),
    }
}

impl PieceTree {
    /// Returns a walk over the pieces from the named one on; over no piece for None. No node is visited before the first call of `next`.
    pub fn walk_from(&self, id: Option<PieceId>) -> PieceWalk<'_>
        requires { IfSome id (IsAmong self.now.entries) }
        ensures left { LeftFrom self.now.entries id result.left }
        ensures due { WithinLookUps 2 (length self.now.entries) result.due }
    {
        let (run, place) = place_of(id);
        PieceWalk {
            run: None,
            pieces: &[],
            place,
            behind: self.runs.walk_from(run),
        }
    }
}

impl<'t> PieceWalk<'t> {
    /// Returns the next piece with its name; None after the last one. Each visited node is a step.
    pub fn next<L>(&mut self, steps: &mut Steps<L>) -> Option<(PieceId, Piece)>
        ensures piece { MatchOption result (self.old.left ≡ [])
            (λ told. self.old.left ≡ record { id = told.0; piece = told.1 } ∷ self.new.left) }
        ensures end { ForNone result (self.new.left ≡ []) }
        ensures cost { (steps.new - steps.old) + self.new.due ≤ self.old.due + 3 }
    {
        if self.run.is_none() {
            let Some(told) = self.behind.next(steps) else {
                return None;
            };
            self.run = Some(told.0);
            self.pieces = told.1;
        }
        let run = self.run?;
        let place = self.place;
        let piece = self.pieces[place as usize];
        self.place += 1;
        if self.place as usize == self.pieces.len() {
            self.run = None;
            self.place = 0;
        }
        Some((PieceId { run, place }, piece))
    }
}
