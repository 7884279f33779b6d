//! The runs of a text in a red-black tree, each with its sums. The pieces of a run are in an arena beside the tree, so that the nodes stay
//! small and a run is changed in place.
ghost use Rattle.std.specs.Prelude.{◌≡◌, ◌+◌, ◌-◌, ◌<◌, ◌≤◌, ◌≢◌, ◌^◌, ◌∷◌, ◌++◌, [], None, length, IfSome, MatchOption, OnOk};
ghost use Rattle.std.specs.List.{All};
ghost use Rattle.std.specs.Option.{ForNone};
ghost use Rattle.rb_arena.specs.RbTree.{IsItem, AtItem, LeavesOut, HasAfter, first_or, last_or};
ghost use Rattle.rb_arena.specs.Walking.{LeftFrom};
ghost use Rattle.piece_tree.specs.Pieces.{unit_count, sum_of};
ghost use Rattle.piece_tree.specs.Searches.{few_breaks, count_of, number_of};
ghost use Rattle.piece_tree.specs.Runs.{most_pieces, pieces_in, CanReplaceIn, HasReplacedIn, HasRunOf};

use crate::piece::{Piece, PieceSum};
use crate::run::{Run, sum_of};
use crate::weave::{RunWeave, Sought, StoredRun};
use raw_arena::{Arena, NodeId};
use rb_arena::{RbTree, Walk};
use std::alloc::{AllocError, Global};
use std::marker::Model;
use steps::Steps;

/// The runs in the order of the text. Contracts see the pieces of each, under its name, and the number of further runs for which there is
/// room. No run is empty.
#[derive(Drop)]
pub(crate) struct RunTree {
    tree: RbTree<RunWeave>,
    stored: Arena<Run>,
}

impl Model for RunTree {
    ghost use Rattle.piece_tree.specs.Runs.{Runs};
    ghost use Rattle.piece_tree.specs.Stored.{runs_of, AreStored};

    ghost Value = { Runs };

    ghost view = { λ t. runs_of t.tree t.stored };

    ghost invariant = { λ t. AreStored t.tree t.stored };
}

impl RunTree {
    /// Returns a tree without runs.
    pub(crate) fn new(alloc: Global) -> RunTree
        ensures runs { result.runs ≡ [] }
        ensures spare { result.spare ≡ 0 }
    {
        RunTree {
            tree: RbTree::new(alloc),
            stored: Arena::new(alloc),
        }
    }

    /// Makes room for `count` more runs. Fails if memory is short.
    pub(crate) fn reserve(&mut self, count: u64) -> Result<(), AllocError>
        ensures runs { self.new.runs ≡ self.old.runs }
        ensures room { OnOk result (count ≤ self.new.spare) }
        ensures kept { self.old.spare ≤ self.new.spare }
    {
        self.stored.reserve(count)?;
        self.tree.reserve(count)
    }

    /// Returns the sum of all pieces.
    pub(crate) fn sum(&self) -> PieceSum
        ensures sum { result ≡ sum_of (pieces_in self.now.runs) }
        ensures small { result.units < 2 ^ 62 }
    {
        self.tree.sum()
    }

    /// Returns the name of the first run.
    pub(crate) fn first(&self) -> Option<NodeId>
        ensures { result ≡ first_or None self.now.runs }
    {
        self.tree.first()
    }

    /// Returns the name of the last run.
    pub(crate) fn last(&self) -> Option<NodeId>
        ensures { result ≡ last_or None self.now.runs }
    {
        self.tree.last()
    }

    /// Returns the name of the run after this one; None after the last.
    pub(crate) fn next(&self, id: NodeId) -> Option<NodeId>
        requires { IsItem self.now.runs id }
        ensures { AtItem self.now.runs id (λ us x vs. result ≡ first_or None vs) }
    {
        self.tree.next(id)
    }

    /// Returns the name of the run before this one; None before the first.
    pub(crate) fn prev(&self, id: NodeId) -> Option<NodeId>
        requires { IsItem self.now.runs id }
        ensures { AtItem self.now.runs id (λ us x vs. result ≡ last_or None us) }
    {
        self.tree.prev(id)
    }

    /// Returns the pieces of the run of this name. Names are unique, a run is not empty, and no piece has more breaks than units.
    pub(crate) fn get(&self, id: NodeId) -> &[Piece]
        requires { IsItem self.now.runs id }
        ensures run { AtItem self.now.runs id (λ us x vs. result.now ≡ x) }
        ensures own { AtItem self.now.runs id (λ us x vs. All (λ r. r.0 ≢ id) (us ++ vs)) }
        ensures some { 0 < length result.now }
        ensures few { length result.now ≤ most_pieces }
        ensures counted { All few_breaks result.now }
    {
        let run = self.stored.visit(self.tree.get(id).at, &mut Steps::new());
        run.pieces()
    }

    /// Finds the run that contains the target. Returns its name and the sum of the pieces before it. Each visited node is a step.
    pub(crate) fn find<L>(&self, sought: Sought, steps: &mut Steps<L>) -> (NodeId, PieceSum)
        requires { number_of sought < count_of sought (pieces_in self.now.runs) }
        ensures run { HasRunOf self.now.runs sought result }
        ensures full { All (λ r. 0 < length r.1) self.now.runs }
        ensures cost { 2 ^ (steps.new - steps.old) ≤ (length self.now.runs + 1) ^ 2 }
    {
        let Some(found) = self.tree.descend(sought, steps) else {
            unreachable!();
        };
        (found.0, found.2)
    }

    /// Replaces the pieces of a run from index `from` to `to` by others. The run keeps its name.
    pub(crate) fn replace_in(&mut self, id: NodeId, from: usize, to: usize, with: &[Piece])
        requires fits { CanReplaceIn self.old.runs id from to with.now }
        requires counted { All few_breaks with.now }
        ensures runs { HasReplacedIn self.old.runs self.new.runs id from to with.now }
        ensures spare { self.new.spare ≡ self.old.spare }
    {
        let at = self.tree.get(id).at;
        let run = self.stored.visit_mut(at, &mut Steps::new());
        run.replace(from, to, with);
        let sum = sum_of(run.pieces());
        self.tree.set(id, StoredRun { at, sum });
    }

    /// Inserts a run of these pieces right after the named one, and returns its name.
    pub(crate) fn insert_after(&mut self, id: NodeId, pieces: &[Piece]) -> NodeId
        requires room { 0 < self.old.spare }
        requires named { IsItem self.old.runs id }
        requires some { 0 < length pieces.now }
        requires few { length pieces.now ≤ most_pieces }
        requires counted { All few_breaks pieces.now }
        requires small { unit_count (pieces_in self.old.runs) + unit_count pieces.now < 2 ^ 62 }
        ensures runs { HasAfter self.old.runs self.new.runs id (result, pieces.now) }
        ensures spare { self.new.spare + 1 ≡ self.old.spare }
    {
        let run = StoredRun {
            at: self.stored.put(Run::of(pieces)),
            sum: sum_of(pieces),
        };
        self.tree.insert_after(id, run)
    }

    /// Inserts a run of these pieces before all others, and returns its name.
    pub(crate) fn insert_first(&mut self, pieces: &[Piece]) -> NodeId
        requires room { 0 < self.old.spare }
        requires some { 0 < length pieces.now }
        requires few { length pieces.now ≤ most_pieces }
        requires counted { All few_breaks pieces.now }
        requires small { unit_count (pieces_in self.old.runs) + unit_count pieces.now < 2 ^ 62 }
        ensures runs { self.new.runs ≡ (result, pieces.now) ∷ self.old.runs }
        ensures spare { self.new.spare + 1 ≡ self.old.spare }
    {
        let run = StoredRun {
            at: self.stored.put(Run::of(pieces)),
            sum: sum_of(pieces),
        };
        self.tree.insert_first(run)
    }

    /// Removes the run of this name. The name may be used again.
    pub(crate) fn remove(&mut self, id: NodeId)
        requires { IsItem self.old.runs id }
        ensures runs { LeavesOut self.old.runs self.new.runs id }
        ensures spare { self.new.spare ≡ self.old.spare + 1 }
    {
        let at = self.tree.get(id).at;
        self.tree.remove(id);
        self.stored.take(at);
    }

    /// Returns a walk over the runs from the named one on; over no run for None. No node is visited before the first call of `next`.
    pub(crate) fn walk_from(&self, id: Option<NodeId>) -> RunWalk<'_>
        requires { IfSome id (IsItem self.now.runs) }
        ensures left { LeftFrom self.now.runs id result.left }
        ensures full { All (λ r. 0 < length r.1) self.now.runs }
        ensures due { 2 ^ result.due ≤ (length self.now.runs + 1) ^ 4 }
    {
        RunWalk {
            walk: self.tree.walk_from(id),
            stored: &self.stored,
        }
    }
}

/// A walk over the runs of a text in their order. Contracts see the runs that are left, and `due`: the rest of the walk takes at most `due`
/// steps more than three for each of them.
#[derive(Drop)]
pub(crate) struct RunWalk<'t> {
    walk: Walk<'t, RunWeave>,
    stored: &'t Arena<Run>,
}

impl<'t> Model for RunWalk<'t> {
    ghost use Rattle.piece_tree.specs.Runs.{WalkedRuns};
    ghost use Rattle.piece_tree.specs.Stored.{walked_of, WalksStored};

    ghost Value = { WalkedRuns };

    ghost view = { λ a. walked_of a.walk a.stored.now };

    ghost invariant = { λ a. WalksStored a.walk a.stored.now };
}

impl<'t> RunWalk<'t> {
    /// Returns the next run with its name; None after the last one. Each visited node is a step.
    pub(crate) fn next<L>(&mut self, steps: &mut Steps<L>) -> Option<(NodeId, &'t [Piece])>
        ensures run { MatchOption result (self.old.left ≡ [])
            (λ told. self.old.left ≡ (told.0, told.1.now) ∷ self.new.left) }
        ensures some { IfSome result (λ told. 0 < length told.1.now) }
        ensures few { IfSome result (λ told. length told.1.now ≤ most_pieces) }
        ensures end { ForNone result (self.new.left ≡ []) }
        ensures cost { (steps.new - steps.old) + self.new.due ≤ self.old.due + 3 }
    {
        let (id, run) = self.walk.next(steps)?;
        Some((id, self.stored.visit(run.at, &mut Steps::new()).pieces()))
    }
}
