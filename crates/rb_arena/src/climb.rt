//! Walks from a node up to the root.
ghost use Rattle.rb_arena.specs.Nodes.{KeepsCount};
ghost use Rattle.rb_arena.specs.Relative.{CanRenewNode, IsSlackFrom, Renews, RenewsFrom};
ghost use Rattle.rb_arena.specs.Stopping.{CanSet, Sets};

use crate::links::{Links, node_of, rewrite};
use crate::sums::{summed, whole};
use raw_arena::NodeId;
use rb_rules::{Data, Weave};

/// Upper bound for the number of nodes on a path. It follows from the balance of the tree.
pub(crate) const LONGEST: u32 = 128;

/// Recomputes the sums of one node from those of its subtrees.
#[tactic(auto, using(crate::proofs::Renewing::renewing), unfolding(crate::specs::Nodes::Rewrites, crate::specs::Relative::CanRenewNode))]
fn renew<W: Weave>(tree: &mut Links<Data<W::Item, W::Sum, W::By>>, id: NodeId)
    requires { CanRenewNode W.Weave tree.old id }
    ensures made { Renews W.Weave tree.old tree.new id }
    ensures count { KeepsCount tree.old.nodes tree.new.nodes }
{
    let slot = node_of(tree, id);
    let left = whole::<W>(&tree.nodes, slot.left);
    let right = whole::<W>(&tree.nodes, slot.right);
    let datum = summed::<W>(slot.data.item, slot.data.delta, left, right);
    rewrite(tree, id, slot.red, datum);
}

/// Recomputes the sums of the node `from` and of its ancestors.
pub(crate) fn renew_up<W: Weave>(
    tree: &mut Links<Data<W::Item, W::Sum, W::By>>,
    from: Option<NodeId>,
)
    requires { IsSlackFrom W.Weave tree.old from 128 }
    ensures made { RenewsFrom W.Weave tree.old tree.new from 128 }
    ensures count { KeepsCount tree.old.nodes tree.new.nodes }
{
    let mut at = from;
    for _turn in 0..LONGEST {
        let Some(id) = at else {
            return;
        };
        at = node_of(tree, id).parent;
        renew::<W>(tree, id);
    }
}

/// Replaces the item of a node and recomputes the node's sums. The sums of its ancestors are recomputed too, unless `same` finds the
/// node's sum unchanged.
#[tactic(auto, using(crate::proofs::Stopping::setting_item), unfolding(crate::specs::Stopping::CanSet))]
pub(crate) fn set_item<W: Weave>(
    tree: &mut Links<Data<W::Item, W::Sum, W::By>>,
    id: NodeId,
    item: W::Item,
)
    requires { CanSet W.Weave tree.old id item }
    ensures made { Sets W.Weave tree.old tree.new id item }
    ensures count { KeepsCount tree.old.nodes tree.new.nodes }
{
    let slot = node_of(tree, id);
    let left = whole::<W>(&tree.nodes, slot.left);
    let right = whole::<W>(&tree.nodes, slot.right);
    let datum = summed::<W>(item, slot.data.delta, left, right);
    let same = W::same(datum.whole, slot.data.whole);
    rewrite(tree, id, slot.red, datum);
    if same {
        return;
    }
    renew_up::<W>(tree, slot.parent);
}
