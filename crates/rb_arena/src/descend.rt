//! Searches from the root down, or from a node on.
ghost use Rattle.std.specs.Prelude.{◌≡◌, ◌-◌, IfSome};
ghost use Rattle.raw_arena.specs.Arena.{IsLive};
ghost use Rattle.rb_arena.specs.Relative.{RelativeItem, RelativeSum, RelativeBy, before_node};
ghost use Rattle.rb_arena.specs.Searching.{past_item, inside, past_subtree, right_of_node};
ghost use Rattle.rb_arena.specs.Searching.{CanGoDown, FindsBelow, StepsBelow};
ghost use Rattle.rb_arena.specs.Searching.{CanSearchAfter, GoesOn, StepsAfter};

use crate::climb::LONGEST;
use crate::insert::{copy_of, shift_to};
use crate::links::{Links, place, visit};
use crate::sums::whole;
use raw_arena::NodeId;
use rb_rules::{Data, Side, Slot, Turn, Weave};
use steps::Steps;

/// The position of a search: a subtree, the sum of the shifts on the path to it, the sum of the items before it, and the last node
/// compared, with its item and the sum before it.
#[derive(Clone, Copy)]
pub struct Standing<X, S, B> {
    pub at: Option<NodeId>,
    pub by: B,
    pub before: S,
    pub last: Option<(NodeId, X, S)>,
}

/// The state of a search after its climb: it has found its item, or goes on down from a position.
pub enum Next<X, S, B> {
    Stop((NodeId, X, S)),
    Down(Standing<X, S, B>),
}

/// Returns a node's item with the shift `by` of its path applied.
fn item_below<W: Weave>(by: W::By, datum: &Data<W::Item, W::Sum, W::By>) -> W::Item
    requires { RelativeItem W.Weave (W.weaving.shift by datum.now.item) }
    ensures { result ≡ W.weaving.shift by datum.now.item }
{
    W::shift(by, datum.item)
}

/// Returns a node's item with the shift of its path applied, and the sum of the items before the node. `by` is the sum of the shifts on
/// the path to the node, `before` the sum of the items before its subtree.
fn at_node<W: Weave>(
    by: W::By,
    before: W::Sum,
    datum: &Data<W::Item, W::Sum, W::By>,
) -> (W::Item, W::Sum)
    requires item { RelativeItem W.Weave (W.weaving.shift by datum.now.item) }
    requires left { RelativeSum W.Weave (W.weaving.shift_sum by datum.now.before) }
    requires sum { RelativeSum W.Weave (before_node W.weaving by before datum.now) }
    ensures item { result.0 ≡ W.weaving.shift by datum.now.item }
    ensures sum { result.1 ≡ before_node W.weaving by before datum.now }
{
    let item = W::shift(by, datum.item);
    let left = W::shift_sum(by, datum.before);
    (item, W::join(before, left))
}

/// Returns the position of the search at the right subtree of a node that was compared. `by` is the sum of the shifts on the path to that
/// node.
fn right_of<W: Weave>(
    by: W::By,
    slot: &Slot<Data<W::Item, W::Sum, W::By>>,
    asked: (NodeId, W::Item, W::Sum),
) -> Standing<W::Item, W::Sum, W::By>
    requires sum { RelativeSum W.Weave (past_item W.weaving asked.1 asked.2) }
    requires shift { RelativeBy W.Weave (W.weaving.plus by slot.now.«data».delta) }
    ensures { result ≡ right_of_node W.weaving by slot.now asked }
{
    Standing {
        at: slot.right,
        by: W::plus(by, slot.data.delta),
        before: W::join(asked.2, W::one(asked.1)),
        last: Some(asked),
    }
}

/// Runs a search down from the position `from`. Returns the item at which it ends, with its name and the sum of the items before it. Each
/// node on the way counts as a step.
pub(crate) fn go_down<W: Weave, L>(
    tree: &Links<Data<W::Item, W::Sum, W::By>>,
    from: Standing<W::Item, W::Sum, W::By>,
    key: W::Key,
    steps: &mut Steps<L>,
) -> Option<(NodeId, W::Item, W::Sum)>
    requires { CanGoDown W.Weave tree.now 126 key from }
    ensures found { FindsBelow W.Weave tree.now 126 key from result }
    ensures cost { StepsBelow W.Weave tree.now 126 key from (steps.new - steps.old) }
{
    let mut standing = from;
    for _turn in 0..LONGEST {
        let Some(id) = standing.at else {
            return standing.last;
        };
        let slot = visit(&tree.nodes, id, steps);
        let (item, sum) = at_node::<W>(standing.by, standing.before, &slot.data);
        let asked = (id, item, sum);
        match W::turn_at(key, sum, item) {
            Turn::Stop => return Some(asked),
            Turn::Left => {
                standing.at = slot.left;
                standing.last = Some(asked);
            }
            Turn::Right => standing = right_of::<W>(standing.by, &slot, asked),
        }
    }
    standing.last
}

/// Returns the sum of the items before a subtree and in it.
#[tactic(auto, unfolding(crate::specs::Nodes::LivesIf))]
fn through<W: Weave>(
    tree: &Links<Data<W::Item, W::Sum, W::By>>,
    standing: &Standing<W::Item, W::Sum, W::By>,
) -> W::Sum
    requires live { IfSome standing.now.at (λ i. IsLive tree.now.nodes i) }
    requires inside { RelativeSum W.Weave (inside W.weaving tree.now standing.now) }
    requires sum { RelativeSum W.Weave (past_subtree W.weaving tree.now standing.now) }
    ensures { result ≡ past_subtree W.weaving tree.now standing.now }
{
    let inside = W::shift_sum(standing.by, whole::<W>(&tree.nodes, standing.at));
    W::join(standing.before, inside)
}

/// Climbs from the node `id` in a search among the items after it, past the nodes from which the search goes right, and returns where it
/// goes on. Each ancestor of `id` counts as a step for the shift of the path; `id` and each ancestor that the climb visits count as
/// another.
pub(crate) fn climb<W: Weave, L>(
    tree: &Links<Data<W::Item, W::Sum, W::By>>,
    id: NodeId,
    key: W::Key,
    steps: &mut Steps<L>,
) -> Next<W::Item, W::Sum, W::By>
    requires { CanSearchAfter W.Weave tree.now 126 id }
    ensures next { GoesOn W.Weave tree.now 126 id key result }
    ensures cost { StepsAfter W.Weave tree.now 126 id 2 (steps.new - steps.old) }
{
    #[tactic(auto, unfolding(crate::specs::Searching::CanSearchAfter))]
    let mut at = place(tree, id);
    let mut by = shift_to::<W, L>(tree, copy_of(&at), steps);
    let slot = visit(&tree.nodes, id, steps);
    let mut standing = Standing {
        at: slot.right,
        by: W::plus(by, slot.data.delta),
        before: W::none(),
        last: None,
    };
    for _turn in 0..LONGEST {
        let Some(above) = at else {
            return Next::Down(standing);
        };
        let upper = above.0;
        let slot = visit(&tree.nodes, upper, steps);
        if above.1 == Side::Right {
            by = W::minus(by, slot.data.delta);
        } else {
            let item = item_below::<W>(by, &slot.data);
            let sum = through::<W>(tree, &standing);
            let asked = (upper, item, sum);
            match W::turn_at(key, sum, item) {
                Turn::Stop => return Next::Stop(asked),
                Turn::Left => {
                    standing.last = Some(asked);
                    return Next::Down(standing);
                }
                Turn::Right => standing = right_of::<W>(by, &slot, asked),
            }
        }
        at = place(tree, upper);
    }
    Next::Down(standing)
}
