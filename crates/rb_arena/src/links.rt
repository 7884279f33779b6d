//! Nodes and links of a tree, for any node data.
ghost use Rattle.std.specs.Prelude.{◌≡◌, ◌+◌, ◌<◌, Some, None, IfSome};
ghost use Rattle.std.specs.FinMap as map;
ghost use Rattle.raw_arena.specs.Arena.{node, IsLive};
ghost use Rattle.rb_rules.specs.declared.slot.Slot.{Slot};
ghost use Rattle.rb_rules.specs.Memory.{place_of, adopted, hung, root_hung};
ghost use Rattle.rb_rules.specs.Memory.{Stands, AtSpot};
ghost use Rattle.rb_arena.specs.Nodes.{HasChildAt, HeadsChain, Inherits, KeepLive, KeepsCount, LosesFirst};
ghost use Rattle.rb_arena.specs.Nodes.{Lives, LivesAt, LivesIf, Rewrites, TurnsAt, slot_of, strung};

use raw_arena::{Arena, NodeId};
use rb_rules::{Packed, Side, Slot};
use steps::Steps;

/// The place of a node: the node above it and the side of that node; None for the root.
pub(crate) type Place = Option<(NodeId, Side)>;

/// The nodes of a tree, and its root.
#[derive(Drop)]
pub struct Links<D: Copy> {
    pub(crate) nodes: Arena<Packed<D>>,
    pub(crate) root: Option<NodeId>,
}

/// Reads a node and counts one step.
#[inline(always)]
pub(crate) fn visit<D: Copy, L>(
    nodes: &Arena<Packed<D>>,
    id: NodeId,
    steps: &mut Steps<L>,
) -> Slot<D>
    requires { IsLive nodes.now id }
    ensures value { node nodes.now id ≡ Some result }
    ensures step { steps.new ≡ steps.old + 1 }
{
    nodes.visit(id, steps).slot()
}

/// Reads a node without counting a step.
#[tactic(auto, unfolding(crate::specs::Nodes::Lives))]
#[inline(always)]
pub(crate) fn read<D: Copy>(nodes: &Arena<Packed<D>>, id: NodeId) -> Slot<D>
    requires { Lives nodes.now id }
    ensures { node nodes.now id ≡ Some result }
{
    visit(nodes, id, &mut Steps::new())
}

/// Writes a node without counting a step.
#[tactic(auto, using(crate::proofs::Slots::writing), unfolding(crate::specs::Nodes::Lives))]
pub(crate) fn write<D: Copy>(nodes: &mut Arena<Packed<D>>, id: NodeId, slot: Slot<D>)
    requires { Lives nodes.old id }
    ensures live { nodes.new.live ≡ map.insert nodes.old.live id slot }
    ensures kept { KeepLive nodes.old nodes.new }
    ensures count { KeepsCount nodes.old nodes.new }
{
    *nodes.visit_mut(id, &mut Steps::new()) = Packed::of(&slot);
}

/// Reads a node that is in the tree.
#[tactic(auto, using(crate::proofs::Slots::reading))]
#[inline(always)]
pub(crate) fn node_of<D: Copy>(tree: &Links<D>, id: NodeId) -> Slot<D>
    requires { Stands tree.now.nodes.live tree.now.root id }
    ensures value { node tree.now.nodes id ≡ Some result }
    ensures live { Lives tree.now.nodes id }
    ensures slot { AtSpot tree.now.nodes.live tree.now.root id (λ s. result ≡ slot_of s) }
    ensures above { LivesIf tree.now.nodes result.parent }
    ensures left { LivesIf tree.now.nodes result.left }
    ensures right { LivesIf tree.now.nodes result.right }
{
    read(&tree.nodes, id)
}

/// Returns the place of a node that is in the tree.
#[tactic(auto, using(crate::proofs::Slots::places), unfolding(crate::specs::Nodes::Lives, crate::specs::Nodes::LivesIf))]
pub(crate) fn place<D: Copy>(tree: &Links<D>, id: NodeId) -> Place
    requires { Stands tree.now.nodes.live tree.now.root id }
    ensures { AtSpot tree.now.nodes.live tree.now.root id (λ s. result ≡ place_of s.hole) }
{
    let above = node_of(tree, id).parent?;
    let side = read(&tree.nodes, above).side_of(id);
    Some((above, side))
}

/// Sets the parent of a node. Does nothing if `id` is None.
#[tactic(auto, using(crate::proofs::Slots::staying), unfolding(crate::specs::Nodes::Lives, crate::specs::Nodes::LivesIf))]
fn adopt<D: Copy>(nodes: &mut Arena<Packed<D>>, id: Option<NodeId>, parent: Option<NodeId>)
    requires { LivesIf nodes.old id }
    ensures live { nodes.new.live ≡ adopted nodes.old.live id parent }
    ensures kept { KeepLive nodes.old nodes.new }
    ensures count { KeepsCount nodes.old nodes.new }
{
    if let Some(id) = id {
        let mut slot = read(nodes, id);
        slot.parent = parent;
        write(nodes, id, slot);
    }
}

/// Sets the link at a place to `child`; at the place None it sets the root. The parent link of `child` is not written.
#[tactic(auto, using(crate::proofs::Slots::staying), unfolding(crate::specs::Nodes::Lives, crate::specs::Nodes::LivesAt))]
pub(crate) fn hang<D: Copy>(tree: &mut Links<D>, place: Place, child: Option<NodeId>)
    requires { LivesAt tree.old.nodes place }
    ensures live { tree.new.nodes.live ≡ hung tree.old.nodes.live place child }
    ensures root { tree.new.root ≡ root_hung tree.old.root place child }
    ensures kept { KeepLive tree.old.nodes tree.new.nodes }
    ensures count { KeepsCount tree.old.nodes tree.new.nodes }
{
    match place {
        None => tree.root = child,
        Some(at) => {
            let slot = read(&tree.nodes, at.0).with_child(at.1, child);
            write(&mut tree.nodes, at.0, slot);
        }
    }
}

/// Sets a node's colour and data.
#[tactic(auto, using(crate::proofs::Slots::rewriting))]
pub(crate) fn rewrite<D: Copy>(tree: &mut Links<D>, id: NodeId, red: bool, datum: D)
    requires { Stands tree.old.nodes.live tree.old.root id }
    ensures made { Rewrites tree.old tree.new id red datum }
    ensures count { KeepsCount tree.old.nodes tree.new.nodes }
{
    let mut slot = node_of(tree, id);
    slot.red = red;
    slot.data = datum;
    write(&mut tree.nodes, id, slot);
}

/// Rotates at a node: its child on the side `side` comes above it. The two exchange colours, so each place keeps its colour.
#[tactic(auto, using(crate::proofs::Slots::turning), unfolding(crate::specs::Nodes::HasChildAt))]
pub(crate) fn turn<D: Copy>(tree: &mut Links<D>, id: NodeId, side: Side, low: D, high: D)
    requires { HasChildAt tree.old id side }
    ensures made { TurnsAt tree.old tree.new id side low high }
    ensures count { KeepsCount tree.old.nodes tree.new.nodes }
{
    let at = place(tree, id);
    let upper = node_of(tree, id);
    let Some(child) = upper.child(side) else {
        return;
    };
    let lower = read(&tree.nodes, child);
    adopt(&mut tree.nodes, lower.child(side.other()), Some(id));
    hang(tree, at, Some(child));
    let (mid, far) = (lower.child(side.other()), upper.child(side.other()));
    let down = Slot::sided(side, Some(child), mid, far, lower.red, low);
    write(&mut tree.nodes, id, down);
    let out = lower.child(side);
    let up = Slot::sided(side, upper.parent, out, Some(id), upper.red, high);
    write(&mut tree.nodes, child, up);
}

/// Puts the node `heir` in the place of `id`, with the links and the colour of `id`.
#[tactic(auto, using(crate::proofs::Slots::replacing))]
pub(crate) fn replace<D: Copy>(tree: &mut Links<D>, id: NodeId, heir: NodeId, datum: D)
    requires stands { Stands tree.old.nodes.live tree.old.root id }
    requires heir { Lives tree.old.nodes heir }
    ensures made { Inherits tree.old tree.new id heir datum }
    ensures left { Lives tree.new.nodes id }
    ensures count { KeepsCount tree.old.nodes tree.new.nodes }
{
    let at = place(tree, id);
    let old = node_of(tree, id);
    adopt(&mut tree.nodes, old.left, Some(heir));
    adopt(&mut tree.nodes, old.right, Some(heir));
    hang(tree, at, Some(heir));
    let slot = Slot::sided(Side::Left, old.parent, old.left, old.right, old.red, datum);
    write(&mut tree.nodes, heir, slot);
}

/// Puts a node that is in no tree in front of a chain. Each node of a chain links to the next by its right link.
#[tactic(auto, using(crate::proofs::Slots::living))]
pub(crate) fn string<D: Copy>(
    nodes: &mut Arena<Packed<D>>,
    id: NodeId,
    front: Option<NodeId>,
    datum: D,
)
    requires live { IsLive nodes.old id }
    requires front { IfSome front (λ i. IsLive nodes.old i) }
    ensures live { nodes.new.live ≡ strung nodes.old.live id front datum }
    ensures spare { nodes.new.spare ≡ nodes.old.spare }
{
    let slot = Slot::sided(Side::Left, None, None, front, false, datum);
    #[tactic(auto, unfolding(crate::specs::Nodes::LivesIf))]
    adopt(nodes, slot.right, Some(id));
    write(nodes, id, slot);
}

/// Detaches the first node of a chain and returns the next, which is first now.
#[tactic(auto, unfolding(crate::specs::Nodes::HeadsChain, crate::specs::Nodes::LosesFirst, crate::specs::Nodes::Lives, crate::specs::Nodes::LivesIf))]
pub(crate) fn unstring<D: Copy>(nodes: &mut Arena<Packed<D>>, id: NodeId) -> Option<NodeId>
    requires { HeadsChain nodes.old id }
    ensures chain { LosesFirst nodes.old nodes.new id result }
    ensures spare { nodes.new.spare ≡ nodes.old.spare }
{
    let slot = read(nodes, id);
    adopt(nodes, slot.right, None);
    slot.right
}
