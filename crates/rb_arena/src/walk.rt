//! Walks to the end of a subtree, and to the next node on one side.
ghost use Rattle.std.specs.Prelude.{◌≡◌, ◌-◌, Some};
ghost use Rattle.raw_arena.specs.Arena.{node};
ghost use Rattle.rb_rules.specs.declared.slot.Side.TheVariants.{Left};
ghost use Rattle.rb_arena.specs.Ends.{HangsAt, IsEnd, EndsAfter, HangsPast, IsFirstPast, StandsLow};
ghost use Rattle.rb_arena.specs.Ends.{IsParent, IsAboveOn, RisesAfter, IsBeside, IsBesideAfter};

use crate::climb::LONGEST;
use crate::insert::parent_at;
use crate::links::{Links, Place, node_of, visit};
use raw_arena::NodeId;
use rb_rules::{Side, Slot};
use steps::Steps;

/// Returns the last place on the side `side` of the subtree `below`, which hangs at the place `from`. Each node on the way counts as a
/// step.
#[tactic(auto, using(crate::proofs::Walks::to_end))]
fn end_from<D: Copy, L>(
    tree: &Links<D>,
    from: Place,
    below: Option<NodeId>,
    side: Side,
    steps: &mut Steps<L>,
) -> Place
    requires { HangsAt tree.now from below }
    ensures end { IsEnd tree.now from below side result }
    ensures cost { EndsAfter tree.now from below side (steps.new - steps.old) }
{
    let mut at = from;
    let mut next = below;
    for _turn in 0..LONGEST {
        let Some(id) = next else {
            return at;
        };
        at = Some((id, side));
        next = visit(&tree.nodes, id, steps).child(side);
    }
    at
}

/// Returns the same place as `end_from`, without counting steps.
pub(crate) fn end_place<D: Copy>(
    tree: &Links<D>,
    from: Place,
    below: Option<NodeId>,
    side: Side,
) -> Place
    requires { HangsAt tree.now from below }
    ensures { IsEnd tree.now from below side result }
{
    end_from(tree, from, below, side, &mut Steps::new())
}

/// Returns the first place of the subtree `below`, which hangs at the place `from`.
fn first_place<D: Copy>(tree: &Links<D>, from: Place, below: Option<NodeId>) -> Place
    requires { HangsAt tree.now from below }
    ensures { IsEnd tree.now from below Left result }
{
    end_place(tree, from, below, Side::Left)
}

/// Returns the place right after the node `id`, or before all nodes if `id` is None.
#[tactic(auto, using(crate::proofs::Walks::past))]
pub(crate) fn place_after<D: Copy>(tree: &Links<D>, id: Option<NodeId>) -> Place
    requires { HangsPast tree.now id }
    ensures { IsFirstPast tree.now id result }
{
    match id {
        None => first_place(tree, None, tree.root),
        Some(id) => {
            #[tactic(auto, unfolding(crate::specs::Ends::HangsPast))]
            let above = node_of(tree, id);
            first_place(tree, Some((id, Side::Right)), above.right)
        }
    }
}

/// Returns the nearest ancestor of `id` that has it on the side `side`, or None; `parent` is the parent of `id`. Each node on the way
/// counts as a step.
#[tactic(auto, using(crate::proofs::Walks::up))]
fn rise_on<D: Copy, L>(
    tree: &Links<D>,
    id: NodeId,
    parent: Option<NodeId>,
    side: Side,
    steps: &mut Steps<L>,
) -> Option<NodeId>
    requires stands { StandsLow tree.now id }
    requires parent { IsParent tree.now id parent }
    ensures above { IsAboveOn tree.now id side result }
    ensures cost { RisesAfter tree.now id side (steps.new - steps.old) }
{
    let mut low = id;
    let mut next = parent;
    for _turn in 0..LONGEST {
        let Some(above) = next else {
            return None;
        };
        let slot = visit(&tree.nodes, above, steps);
        if slot.side_of(low) == side {
            return Some(above);
        }
        low = above;
        next = slot.parent;
    }
    None
}

/// Returns the next node after `id` on the side `side`, in the order of the tree; `slot` is the content of `id`. Each visited node counts
/// as a step.
#[tactic(auto, using(crate::proofs::Walks::sideways), unfolding(crate::specs::Ends::StandsLow))]
pub(crate) fn beside_of<D: Copy, L>(
    tree: &Links<D>,
    id: NodeId,
    slot: &Slot<D>,
    side: Side,
    steps: &mut Steps<L>,
) -> Option<NodeId>
    requires stands { StandsLow tree.now id }
    requires slot { node tree.now.nodes id ≡ Some slot.now }
    ensures beside { IsBeside tree.now id side result }
    ensures cost { IsBesideAfter tree.now id side (steps.new - steps.old) }
{
    let below = slot.child(side);
    match below {
        None => rise_on(tree, id, slot.parent, side.other(), steps),
        Some(_) => parent_at(&end_from(tree, Some((id, side)), below, side.other(), steps)),
    }
}

/// Returns the next node after `id` on the side `side`, in the order of the tree, without counting steps.
#[tactic(auto, unfolding(crate::specs::Ends::StandsLow))]
pub(crate) fn neighbour<D: Copy>(tree: &Links<D>, id: NodeId, side: Side) -> Option<NodeId>
    requires { StandsLow tree.now id }
    ensures { IsBeside tree.now id side result }
{
    let slot = node_of(tree, id);
    beside_of(tree, id, &slot, side, &mut Steps::new())
}
