//! A walk over the items, from a given item on.
ghost use Rattle.std.specs.Prelude.{◌≡◌, ◌+◌, ◌-◌, ◌≤◌, ◌^◌, [], length, IfSome, MatchOption};
ghost use Rattle.std.specs.Option.{ForNone};
ghost use Rattle.rb_arena.specs.RbTree.{IsItem};
ghost use Rattle.rb_arena.specs.Walking.{LeftFrom, TellsFirst};

use crate::links::{Links, visit};
use crate::tree::RbTree;
use crate::walk::beside_of;
use raw_arena::NodeId;
use rb_rules::{Data, Side, Weave};
use std::marker::Model;
use steps::Steps;

/// A walk over the items of a tree in order, from a given item on.
///
/// A contract sees the items that are left, and `due`: the number of steps that the rest of the walk may take beyond three for each item
/// left.
#[derive(Drop)]
pub struct Walk<'t, W: Weave> {
    links: &'t Links<Data<W::Item, W::Sum, W::By>>,
    /// The node of the next item; None at the end.
    at: Option<NodeId>,
}

impl<'t, W: Weave> Model for Walk<'t, W> {
    ghost use Rattle.rb_arena.specs.Walking.{Walked, walked_code, walked_of, Walks};

    ghost Value = { Walked W.Item };

    ghost coded = { walked_code W.Item.code };

    ghost view = { λ a. walked_of W.weaving a.links.now a.at };

    ghost invariant = { λ a. Walks W.Weave a.links.now a.at };
}

impl<W: Weave> RbTree<W> {
    /// Starts a walk at the item `id`; it is empty if `id` is None. No node is visited before the first call of `next`.
    #[tactic(auto, using(crate::proofs::Walking::starting))]
    pub fn walk_from(&self, id: Option<NodeId>) -> Walk<'_, W>
        requires { IfSome id (IsItem self.now.items) }
        ensures left { LeftFrom self.now.items id result.left }
        ensures due { 2 ^ result.due ≤ (length self.now.items + 1) ^ 4 }
    {
        Walk {
            links: &self.links,
            at: id,
        }
    }
}

impl<'t, W: Weave> Walk<'t, W> {
    /// Returns the next item with its name; None after the last one. The item is relative, as its node keeps it: the shifts of the path
    /// to the node are not applied. Each visited node counts as a step.
    #[tactic(auto, using(crate::proofs::Walking::stepping))]
    pub fn next<L>(&mut self, steps: &mut Steps<L>) -> Option<(NodeId, W::Item)>
        ensures item { MatchOption result (self.old.left ≡ [])
            (λ told. TellsFirst W.weaving self.old.left self.new.left told) }
        ensures end { ForNone result (self.new.left ≡ []) }
        ensures cost { (steps.new - steps.old) + self.new.due ≤ self.old.due + 3 }
    {
        let id = self.at?;
        let slot = visit(&self.links.nodes, id, steps);
        self.at = beside_of(self.links, id, &slot, Side::Right, steps);
        Some((id, slot.data.item))
    }
}
