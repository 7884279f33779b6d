//! Rebalancing after an insertion: the new node is red, and its parent may be red too.
ghost use Rattle.std.specs.Prelude.{◌≡◌};
ghost use Rattle.rb_rules.specs.Tree.{fork};
ghost use Rattle.rb_rules.specs.Memory.{AtSpot, Stands};
ghost use Rattle.rb_arena.specs.Nodes.{Becomes, KeepsCount};
ghost use Rattle.rb_arena.specs.Rising.{IsRising, IsRisingFrom, IsRisen, RisesTo, MendsFrom, MendsUp};
ghost use Rattle.rb_arena.specs.Mending.{case_of, bent, HasChild, red_child_in};

use crate::links::{Links, node_of, place, read, rewrite};
use crate::sums::turn_node;
use raw_arena::{Arena, NodeId};
use rb_rules::{Data, Packed, Side, Weave};

/// Upper bound for the number of steps: one for each node on a path, and one at the root.
const MOST_STEPS: u32 = 129;

/// The position of a red node relative to its parent, grandparent and uncle.
#[derive(Clone, Copy)]
pub enum Case {
    /// The node may be red: it has no parent, or a black one.
    Settled,
    /// Its parent is red and the root.
    RedRoot(NodeId),
    /// Its parent and its uncle are red: parent, uncle, grandparent.
    RedUncle(NodeId, NodeId, NodeId),
    /// Its parent is red, its uncle is not, and both are on the same side: grandparent, side.
    Outer(NodeId, Side),
    /// Its parent is red, its uncle is not, and they are on different sides: parent, side of the node, grandparent.
    Inner(NodeId, Side, NodeId),
}

/// Sets a node's colour.
#[tactic(auto, unfolding(crate::specs::Nodes::Rewrites))]
pub(crate) fn paint<D: Copy>(tree: &mut Links<D>, id: NodeId, red: bool)
    requires { Stands tree.old.nodes.live tree.old.root id }
    ensures made { Becomes tree.old tree.new id (λ s. fork red id s.datum s.left s.right) }
    ensures count { KeepsCount tree.old.nodes tree.new.nodes }
{
    let datum = node_of(tree, id).data;
    rewrite(tree, id, red, datum);
}

/// Returns the child on the side `side` if it is red.
#[tactic(auto, unfolding(crate::specs::Nodes::Lives))]
pub(crate) fn red_child<D: Copy>(nodes: &Arena<Packed<D>>, id: NodeId, side: Side) -> Option<NodeId>
    requires { HasChild nodes.now.live id side }
    ensures { result ≡ red_child_in nodes.now.live id side }
{
    let child = read(nodes, id).child(side)?;
    if read(nodes, child).red {
        Some(child)
    } else {
        None
    }
}

/// Returns the case of a red node with a red parent and no red uncle, from the sides of the node and of the parent.
fn bend(side: Side, parent_side: Side, parent: NodeId, grand: NodeId) -> Case
    ensures { result ≡ bent side parent_side parent grand }
{
    match side {
        Side::Left => match parent_side {
            Side::Left => Case::Outer(grand, side),
            Side::Right => Case::Inner(parent, side, grand),
        },
        Side::Right => match parent_side {
            Side::Left => Case::Inner(parent, side, grand),
            Side::Right => Case::Outer(grand, side),
        },
    }
}

/// Returns the case of a red node.
fn find_case<D: Copy>(tree: &Links<D>, id: NodeId) -> Case
    requires { Stands tree.now.nodes.live tree.now.root id }
    ensures { AtSpot tree.now.nodes.live tree.now.root id (λ s. result ≡ case_of s.hole) }
{
    let Some(at) = place(tree, id) else {
        return Case::Settled;
    };
    if !node_of(tree, at.0).red {
        return Case::Settled;
    }
    let Some(above) = place(tree, at.0) else {
        return Case::RedRoot(at.0);
    };
    match red_child(&tree.nodes, above.0, above.1.other()) {
        Some(uncle) => Case::RedUncle(at.0, uncle, above.0),
        None => bend(at.1, above.1, at.0, above.0),
    }
}

/// Mends one step. Returns the node that is red now and may have a red parent, or `None` if the tree is red-black.
fn step<W: Weave>(tree: &mut Links<Data<W::Item, W::Sum, W::By>>, id: NodeId) -> Option<NodeId>
    requires { IsRising W.Weave tree.old id }
    ensures risen { RisesTo W.Weave tree.old tree.new id result }
    ensures count { KeepsCount tree.old.nodes tree.new.nodes }
{
    match find_case(tree, id) {
        Case::Settled => None,
        Case::RedRoot(parent) => {
            paint(tree, parent, false);
            None
        }
        Case::RedUncle(parent, uncle, grand) => {
            paint(tree, parent, false);
            paint(tree, uncle, false);
            paint(tree, grand, true);
            Some(grand)
        }
        Case::Outer(grand, side) => {
            turn_node::<W>(tree, grand, side);
            None
        }
        Case::Inner(parent, side, grand) => {
            turn_node::<W>(tree, parent, side);
            turn_node::<W>(tree, grand, side.other());
            None
        }
    }
}

/// Mends the tree from a red node up. Does nothing if `from` is None.
fn mend_up<W: Weave>(tree: &mut Links<Data<W::Item, W::Sum, W::By>>, from: Option<NodeId>)
    requires { IsRisen W.Weave tree.old from 128 }
    ensures mended { MendsUp W.Weave tree.old tree.new from 128 }
    ensures count { KeepsCount tree.old.nodes tree.new.nodes }
{
    let mut at = from;
    for _turn in 0..MOST_STEPS {
        let Some(red) = at else {
            return;
        };
        at = step::<W>(tree, red);
    }
}

/// Makes the tree red-black again after the insertion of a red leaf.
#[tactic(auto, unfolding(crate::specs::Rising::IsRisingFrom, crate::specs::Rising::MendsFrom))]
pub(crate) fn mend<W: Weave>(tree: &mut Links<Data<W::Item, W::Sum, W::By>>, id: NodeId)
    requires { IsRisingFrom W.Weave tree.old id 128 }
    ensures mended { MendsFrom W.Weave tree.old tree.new id 128 }
    ensures count { KeepsCount tree.old.nodes tree.new.nodes }
{
    mend_up::<W>(tree, Some(id));
}
