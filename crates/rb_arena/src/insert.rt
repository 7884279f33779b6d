//! Insertion of an item at a place of the tree.
ghost use Rattle.std.specs.Prelude.{◌≡◌, ◌-◌, ◌<◌};
ghost use Rattle.rb_arena.specs.Nodes.{GainsOne, KeepsCount, Lives};
ghost use Rattle.rb_arena.specs.Placing as placing;
ghost use Rattle.rb_arena.specs.Placing.{above_place, passed, IsWovenPlace, IsShiftTo};
ghost use Rattle.rb_arena.specs.Placing.{CanPass, StepsTo};
ghost use Rattle.rb_arena.specs.Placing.{IsValueAlone, IsLeafFor, CanKeep, CanKeepAlone};
ghost use Rattle.rb_arena.specs.Placing.{Takes, TakesLeaf, TakesNode};
ghost use Rattle.rb_arena.specs.Placing.{ListsAt, ListsLeafAt, ListsNodeAt};

use crate::climb::{LONGEST, renew_up};
use crate::links::{Links, Place, hang, place, visit, write};
use crate::mend::mend;
use crate::sums::summed;
use raw_arena::NodeId;
use rb_rules::{Data, Packed, Side, Slot, Weave};
use steps::Steps;

/// Returns the node above a place; None for the place of the root.
pub(crate) fn parent_at(at: &Place) -> Option<NodeId>
    ensures { result ≡ above_place at.now }
{
    match at {
        Some(above) => Some(above.0),
        None => None,
    }
}

/// Extends the lower part of a path, whose shifts add up to `by`, by the node above it: `delta` is added if the path goes to the right
/// side of that node.
#[tactic(auto, unfolding(crate::specs::Placing::CanPass))]
fn pass<W: Weave>(side: Side, delta: W::By, by: W::By) -> W::By
    requires { CanPass W.Weave side delta by }
    ensures { result ≡ passed W.weaving side delta by }
{
    match side {
        Side::Left => by,
        Side::Right => W::plus(delta, by),
    }
}

/// Returns the sum of the shifts on the path to a place. Each node on the path counts as a step.
#[tactic(auto, using(crate::proofs::Paths::path_shifts))]
pub(crate) fn shift_to<W: Weave, L>(
    tree: &Links<Data<W::Item, W::Sum, W::By>>,
    from: Place,
    steps: &mut Steps<L>,
) -> W::By
    requires { IsWovenPlace W.Weave tree.now from }
    ensures shift { IsShiftTo W.Weave tree.now from result }
    ensures cost { StepsTo W.Weave tree.now from (steps.new - steps.old) }
{
    let mut at = from;
    let mut by = W::still();
    for _turn in 0..LONGEST {
        let Some(above) = at else {
            return by;
        };
        #[tactic(auto, unfolding(crate::specs::Placing::PathSoFar))]
        let delta = visit(&tree.nodes, above.0, steps).data.delta;
        by = pass::<W>(above.1, delta, by);
        #[tactic(auto, unfolding(crate::specs::Placing::PathSoFar))]
        let next = place(tree, above.0);
        at = next;
    }
    by
}

/// Returns the sum of the shifts on the path to a place, without counting steps. Reads no node if the weave has only one shift.
#[tactic(auto, using(crate::proofs::Paths::only_shift))]
pub(crate) fn path_shift<W: Weave>(tree: &Links<Data<W::Item, W::Sum, W::By>>, from: Place) -> W::By
    requires { IsWovenPlace W.Weave tree.now from }
    ensures { IsShiftTo W.Weave tree.now from result }
{
    if let Some(only) = W::only_shift() {
        return only;
    }
    shift_to::<W, _>(tree, from, &mut Steps::new())
}

pub(crate) fn copy_of(at: &Place) -> Place
    ensures { result ≡ at.now }
{
    match at {
        Some(above) => Some((above.0, above.1)),
        None => None,
    }
}

/// Returns an item in the form that a node keeps, relative to the shift `by` of its path.
#[tactic(auto, unfolding(crate::specs::Placing::CanKeep))]
pub(crate) fn kept_below<W: Weave>(by: W::By, item: W::Item) -> W::Item
    requires { CanKeep W.Weave by item }
    ensures { result ≡ placing.kept_below W.weaving by item }
{
    W::shift(W::minus(W::still(), by), item)
}

/// Returns the data of a leaf with an item, relative to the shift `by` of its path.
#[tactic(auto, unfolding(crate::specs::Placing::CanKeepAlone, crate::specs::Relative::IsSummed))]
fn leaf_below<W: Weave>(by: W::By, item: W::Item) -> Data<W::Item, W::Sum, W::By>
    requires { CanKeepAlone W.Weave by item }
    ensures { result ≡ placing.leaf_below W.weaving by item }
{
    summed::<W>(kept_below::<W>(by, item), W::still(), W::none(), W::none())
}

/// Makes a red leaf with an item for an empty place.
#[tactic(auto, using(crate::proofs::Inserting::making_leaf))]
fn leaf_at<W: Weave>(
    tree: &Links<Data<W::Item, W::Sum, W::By>>,
    at: &Place,
    item: W::Item,
) -> Slot<Data<W::Item, W::Sum, W::By>>
    requires place { IsWovenPlace W.Weave tree.now at.now }
    requires value { IsValueAlone W.Weave item }
    ensures { IsLeafFor W.Weave tree.now at.now item result }
{
    let by = path_shift::<W>(tree, copy_of(at));
    let datum = leaf_below::<W>(by, item);
    Slot::sided(Side::Left, parent_at(at), None, None, true, datum)
}

/// Attaches a leaf at an empty place, recomputes the sums above it and rebalances the tree.
#[tactic(auto, using(crate::proofs::Inserting::hung_leaf))]
fn hang_leaf<W: Weave>(tree: &mut Links<Data<W::Item, W::Sum, W::By>>, at: Place, id: NodeId)
    requires { TakesLeaf W.Weave tree.old at id }
    ensures mended { ListsLeafAt W.Weave tree.old tree.new at id }
    ensures count { KeepsCount tree.old.nodes tree.new.nodes }
{
    let parent = parent_at(&at);
    hang(tree, at, Some(id));
    renew_up::<W>(tree, parent);
    mend::<W>(tree, id);
}

/// Inserts an item at an empty place and returns its name.
#[tactic(auto, using(crate::proofs::Inserting::inserted))]
pub(crate) fn insert_at<W: Weave>(
    tree: &mut Links<Data<W::Item, W::Sum, W::By>>,
    at: Place,
    item: W::Item,
) -> NodeId
    requires room { 0 < tree.old.nodes.spare }
    requires hole { Takes W.Weave tree.old at item }
    ensures mended { ListsAt W.Weave tree.old tree.new at result item }
    ensures count { GainsOne tree.old.nodes tree.new.nodes }
{
    let leaf = leaf_at::<W>(tree, &at, item);
    let id = tree.nodes.put(Packed::of(&leaf));
    hang_leaf::<W>(tree, at, id);
    id
}

/// Inserts an item at an empty place, in the node `id`, which is in no tree.
#[tactic(auto, using(crate::proofs::Inserting::landed), unfolding(crate::specs::Nodes::Lives))]
pub(crate) fn land_at<W: Weave>(
    tree: &mut Links<Data<W::Item, W::Sum, W::By>>,
    at: Place,
    id: NodeId,
    item: W::Item,
)
    requires live { Lives tree.old.nodes id }
    requires hole { TakesNode W.Weave tree.old at id item }
    ensures mended { ListsNodeAt W.Weave tree.old tree.new at id item }
    ensures count { KeepsCount tree.old.nodes tree.new.nodes }
{
    let leaf = leaf_at::<W>(tree, &at, item);
    write(&mut tree.nodes, id, leaf);
    hang_leaf::<W>(tree, at, id);
}
