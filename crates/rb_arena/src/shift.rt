//! Moving of all items after a place.
ghost use Rattle.rb_rules.specs.Shifts.{moved_datum};
ghost use Rattle.rb_arena.specs.Leaving.{StoresWithin};
ghost use Rattle.rb_arena.specs.Nodes.{KeepsCount, Rewritten};
ghost use Rattle.rb_arena.specs.Shifting.{CanMove, CanShiftUp, CanShiftAll};
ghost use Rattle.rb_arena.specs.Shifting.{ShiftsUp, ShiftsAll, FindsReach};

use crate::climb::{LONGEST, renew_up};
use crate::insert::parent_at;
use crate::level::level;
use crate::links::{Links, Place, node_of, place, rewrite};
use raw_arena::NodeId;
use rb_rules::{Data, Side, Weave};

/// Moves a node's item and its right subtree by `by`, without recomputing its sums.
#[tactic(auto, unfolding(crate::specs::Shifting::CanMove, crate::specs::Nodes::Rewrites))]
fn move_node<W: Weave>(tree: &mut Links<Data<W::Item, W::Sum, W::By>>, id: NodeId, by: W::By)
    requires { CanMove W.weaving W.is_near W.is_item tree.old.nodes.live tree.old.root by id }
    ensures made { Rewritten tree.old tree.new id (λ s. moved_datum W.weaving by s.datum) }
    ensures count { KeepsCount tree.old.nodes tree.new.nodes }
{
    let slot = node_of(tree, id);
    let datum = Data {
        item: W::shift(by, slot.data.item),
        delta: W::plus(by, slot.data.delta),
        before: slot.data.before,
        whole: slot.data.whole,
    };
    rewrite(tree, id, slot.red, datum);
}

/// Moves the items after a place, without recomputing sums: at each node that the path leaves to the left, its item and its right
/// subtree.
#[tactic(auto, using(crate::proofs::Shifting::shifting_up))]
fn shift_up<W: Weave>(tree: &mut Links<Data<W::Item, W::Sum, W::By>>, from: Place, by: W::By)
    requires { CanShiftUp W.Weave tree.old from by }
    ensures made { ShiftsUp W.Weave tree.old tree.new from by }
    ensures count { KeepsCount tree.old.nodes tree.new.nodes }
{
    let mut at = from;
    for _turn in 0..LONGEST {
        let Some(above) = at else {
            return;
        };
        #[tactic(auto, unfolding(crate::specs::Shifting::MovesSoFar))]
        let next = place(tree, above.0);
        match above.1 {
            Side::Left => move_node::<W>(tree, above.0, by),
            Side::Right => {}
        }
        at = next;
    }
}

/// Moves the items after an empty place and recomputes the sums above it.
#[tactic(auto, using(crate::proofs::Moving::shifting))]
pub(crate) fn shift_from<W: Weave>(
    tree: &mut Links<Data<W::Item, W::Sum, W::By>>,
    at: Place,
    by: W::By,
)
    requires { CanShiftAll W.Weave tree.old at by }
    ensures mended { ShiftsAll W.Weave tree.old tree.new at by }
    ensures count { KeepsCount tree.old.nodes tree.new.nodes }
{
    let parent = parent_at(&at);
    shift_up::<W>(tree, at, by);
    renew_up::<W>(tree, parent);
}

/// Returns a reach for the tree once some of its items are moved by `by`. If `reach` would grow too great, the shifts in the tree are
/// applied first. None if `by` is too great for any tree.
#[tactic(auto, using(crate::proofs::Moving::reaches))]
pub(crate) fn reach_for<W: Weave>(
    tree: &mut Links<Data<W::Item, W::Sum, W::By>>,
    reach: W::By,
    by: W::By,
) -> Option<W::By>
    requires { StoresWithin W.Weave tree.old reach }
    ensures reaches { FindsReach W.Weave tree.old tree.new reach by result }
    ensures count { KeepsCount tree.old.nodes tree.new.nodes }
{
    if let Some(wide) = W::widen(reach, by) {
        return Some(wide);
    }
    let root = tree.root;
    level::<W>(tree, root, W::still(), LONGEST);
    W::widen(W::still(), by)
}
