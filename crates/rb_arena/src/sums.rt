//! Sums in the nodes, and their update in a rotation.
ghost use Rattle.std.specs.Prelude.{◌≡◌};
ghost use Rattle.rb_arena.specs.Nodes.{KeepsCount, LivesIf};
ghost use Rattle.rb_arena.specs.Relative.{CanSumOver, CanTurnOver, CanTurnNode, Turns};
ghost use Rattle.rb_arena.specs.Relative.{IsLowered, IsRaised, IsSummed};
ghost use Rattle.rb_rules.specs.Woven.{whole_in};

use crate::links::{Links, node_of, read, turn};
use raw_arena::{Arena, NodeId};
use rb_rules::{Data, Packed, Side, Weave};

/// Returns the sum that the root of a subtree keeps; the empty sum for None.
#[tactic(auto, unfolding(crate::specs::Nodes::Lives, crate::specs::Nodes::LivesIf))]
#[inline(always)]
pub(crate) fn whole<W: Weave>(
    nodes: &Arena<Packed<Data<W::Item, W::Sum, W::By>>>,
    id: Option<NodeId>,
) -> W::Sum
    requires { LivesIf nodes.now id }
    ensures { result ≡ whole_in W.weaving nodes.now.live id }
{
    match id {
        None => W::none(),
        Some(id) => read(nodes, id).data.whole,
    }
}

/// Returns the data of a node over subtrees whose roots keep the sums `left` and `right`.
#[tactic(auto, unfolding(crate::specs::Relative::CanSumOver, crate::specs::Relative::IsSummed))]
pub(crate) fn summed<W: Weave>(
    item: W::Item,
    delta: W::By,
    left: W::Sum,
    right: W::Sum,
) -> Data<W::Item, W::Sum, W::By>
    requires { CanSumOver W.Weave item delta left right }
    ensures { IsSummed W.Weave item delta left right result }
{
    let right = W::shift_sum(delta, right);
    let tail = W::join(W::one(item), right);
    Data {
        item,
        delta,
        before: left,
        whole: W::join(left, tail),
    }
}

/// Returns the data of the lower and of the upper node after a rotation that lifts the child on the side `side`. `mid` is the sum of the
/// subtree that changes its parent, `far` that of the node's other subtree.
#[tactic(auto, using(crate::proofs::Turning::lowering), unfolding(crate::specs::Relative::CanTurnOver, crate::specs::Relative::IsLowered, crate::specs::Relative::IsSummed, crate::specs::Relative::IsRaised))]
fn turned_data<W: Weave>(
    side: Side,
    upper: &Data<W::Item, W::Sum, W::By>,
    lower: &Data<W::Item, W::Sum, W::By>,
    mid: W::Sum,
    far: W::Sum,
) -> (Data<W::Item, W::Sum, W::By>, Data<W::Item, W::Sum, W::By>)
    requires { CanTurnOver W.Weave side upper.now lower.now mid far }
    ensures low { IsLowered W.Weave side upper.now lower.now mid far result.0 }
    ensures high { IsRaised W.Weave side upper.now lower.now mid far result.1 }
{
    match side {
        Side::Left => {
            let item = W::shift(W::minus(W::still(), lower.delta), upper.item);
            let low = summed::<W>(item, W::minus(upper.delta, lower.delta), mid, far);
            let high = Data {
                item: lower.item,
                delta: lower.delta,
                before: lower.before,
                whole: upper.whole,
            };
            (low, high)
        }
        Side::Right => {
            let low = summed::<W>(upper.item, upper.delta, far, mid);
            let high = Data {
                item: W::shift(upper.delta, lower.item),
                delta: W::plus(upper.delta, lower.delta),
                before: low.whole,
                whole: upper.whole,
            };
            (low, high)
        }
    }
}

/// Rotates at a node, as `turn` does, and updates the sums of both nodes.
#[tactic(auto, using(crate::proofs::Turning::turning_node), unfolding(crate::specs::Nodes::TurnsAt, crate::specs::Relative::CanTurnNode))]
pub(crate) fn turn_node<W: Weave>(
    tree: &mut Links<Data<W::Item, W::Sum, W::By>>,
    id: NodeId,
    side: Side,
)
    requires { CanTurnNode W.Weave tree.old id side }
    ensures turned { Turns W.Weave tree.old tree.new id side }
    ensures count { KeepsCount tree.old.nodes tree.new.nodes }
{
    let upper = node_of(tree, id);
    let Some(child) = upper.child(side) else {
        return;
    };
    let lower = read(&tree.nodes, child);
    let mid = whole::<W>(&tree.nodes, lower.child(side.other()));
    let far = whole::<W>(&tree.nodes, upper.child(side.other()));
    let (low, high) = turned_data::<W>(side, &upper.data, &lower.data, mid, far);
    turn(tree, id, side, low, high);
}
