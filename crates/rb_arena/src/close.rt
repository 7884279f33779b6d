//! Rebalancing after a removal: the paths through one place may have one black node too few.
ghost use Rattle.rb_arena.specs.Nodes.{KeepsCount};
ghost use Rattle.rb_arena.specs.Closing.{IsShort, IsClosing, ClosesTo, ClosesFrom};

use crate::links::{Links, Place, place, read};
use crate::mend::{paint, red_child};
use crate::sums::turn_node;
use raw_arena::NodeId;
use rb_rules::{Data, Side, Weave};

/// Upper bound for the number of steps: one for each node on a path, and one more below a red node.
const MOST_STEPS: u32 = 129;

/// Closes the gap on the side `side` of `parent`, by way of its child on the other side, or moves the gap. Returns the new place of the
/// gap, or `None` if it is closed.
fn step<W: Weave>(
    tree: &mut Links<Data<W::Item, W::Sum, W::By>>,
    parent: NodeId,
    side: Side,
) -> Place
    requires { IsShort W.Weave tree.old (parent, side) }
    ensures closing { ClosesTo W.Weave tree.old tree.new (parent, side) result }
    ensures count { KeepsCount tree.old.nodes tree.new.nodes }
{
    let away = side.other();
    let Some(brother) = read(&tree.nodes, parent).child(away) else {
        return None;
    };
    if read(&tree.nodes, brother).red {
        turn_node::<W>(tree, parent, away);
        return Some((parent, side));
    }
    if let Some(outer) = red_child(&tree.nodes, brother, away) {
        turn_node::<W>(tree, parent, away);
        paint(tree, outer, false);
        return None;
    }
    if let Some(_inner) = red_child(&tree.nodes, brother, side) {
        turn_node::<W>(tree, brother, side);
        turn_node::<W>(tree, parent, away);
        paint(tree, brother, false);
        return None;
    }
    paint(tree, brother, true);
    if read(&tree.nodes, parent).red {
        paint(tree, parent, false);
        return None;
    }
    place(tree, parent)
}

/// Makes the tree red-black again after the removal of a black node.
#[tactic(auto, unfolding(crate::specs::Closing::IsClosing, crate::specs::Closing::ClosesFrom))]
pub(crate) fn close<W: Weave>(tree: &mut Links<Data<W::Item, W::Sum, W::By>>, from: Place)
    requires { IsClosing W.Weave tree.old from 129 }
    ensures mended { ClosesFrom W.Weave tree.old tree.new from 129 }
    ensures count { KeepsCount tree.old.nodes tree.new.nodes }
{
    let mut at = from;
    for _turn in 0..MOST_STEPS {
        let Some(above) = at else {
            return;
        };
        at = step::<W>(tree, above.0, above.1);
    }
}
