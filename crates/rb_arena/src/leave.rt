//! Removal of a node from the tree.
ghost use Rattle.std.specs.Prelude.{◌≡◌, None};
ghost use Rattle.rb_rules.specs.Memory.{hung, root_hung, place_of, AtSpot};
ghost use Rattle.rb_arena.specs.Nodes.{KeepsCount, Lives, LosesOne};
ghost use Rattle.rb_arena.specs.Placing.{IsThere};
ghost use Rattle.rb_arena.specs.Leaving.{NoChild, OneChild, IsEmptied};
ghost use Rattle.rb_arena.specs.Leaving.{StoresItem, StoresItemBeside, StoresBoth};
ghost use Rattle.rb_arena.specs.Leaving.{StandsWoven, StandsValued, IsShown, IsKept};
ghost use Rattle.rb_arena.specs.Leaving.{Settles, StillLists, Leaves, Loosens};
ghost use Rattle.rb_arena.specs.Leaving.{Unlinks, UnlinksBefore};

use crate::climb::renew_up;
use crate::close::close;
use crate::insert::{copy_of, kept_below, parent_at, path_shift};
use crate::links::{Links, Place, hang, node_of, place, read, replace, string};
use crate::sums::turn_node;
use crate::walk::end_place;
use raw_arena::NodeId;
use rb_rules::{Data, Side, Weave};

/// The place left empty by the removal of a node, and whether the leaf there was red.
struct Vacancy {
    at: Place,
    red: bool,
}

/// Recomputes the sums above an empty place, and rebalances the tree if the removed leaf was black.
#[tactic(auto, using(crate::proofs::Emptying::settling))]
fn settle<W: Weave>(tree: &mut Links<Data<W::Item, W::Sum, W::By>>, at: Place, red: bool)
    requires { IsEmptied W.Weave tree.old at red }
    ensures mended { Settles W.Weave tree.old tree.new at red }
    ensures count { KeepsCount tree.old.nodes tree.new.nodes }
{
    renew_up::<W>(tree, parent_at(&at));
    if red {
        return;
    }
    close::<W>(tree, at);
}

/// Detaches a leaf from the tree. Its slot stays live. The sums of the tree may be wrong afterwards.
#[tactic(auto, using(crate::proofs::Leaving::leaf_unlinks))]
fn unlink_leaf<W: Weave>(tree: &mut Links<Data<W::Item, W::Sum, W::By>>, id: NodeId) -> Vacancy
    requires stands { IsThere tree.old id }
    requires leaf { NoChild tree.old.nodes.live id }
    requires item { StoresItem W.Weave tree.old id }
    ensures unlinked { Unlinks W.Weave tree.old tree.new id result.at result.red }
    ensures live { Lives tree.new.nodes id }
    ensures count { KeepsCount tree.old.nodes tree.new.nodes }
{
    #[tactic(auto, unfolding(crate::specs::Placing::IsThere))]
    let red = node_of(tree, id).red;
    #[tactic(auto, unfolding(crate::specs::Placing::IsThere))]
    let at = place(tree, id);
    let gap = copy_of(&at);
    hang(tree, at, None);
    Vacancy { at: gap, red }
}

/// Rotates at a node with at most one child, so that the node becomes a leaf.
#[tactic(auto, using(crate::proofs::Leaving::to_leaf))]
fn to_leaf<W: Weave>(tree: &mut Links<Data<W::Item, W::Sum, W::By>>, id: NodeId)
    requires child { OneChild tree.old.nodes.live id }
    requires item { StoresItem W.Weave tree.old id }
    ensures leaf { NoChild tree.new.nodes.live id }
    ensures mended { StillLists W.Weave tree.old tree.new id }
    ensures count { KeepsCount tree.old.nodes tree.new.nodes }
{
    #[tactic(auto, unfolding(crate::specs::Leaving::OneChild, crate::specs::Nodes::Lives))]
    let slot = read(&tree.nodes, id);
    if slot.left.is_some() {
        turn_node::<W>(tree, id, Side::Left);
    } else if slot.right.is_some() {
        turn_node::<W>(tree, id, Side::Right);
    }
}

/// Returns the item of a node, with the shifts of its path applied.
#[tactic(auto, using(crate::proofs::Inserting::valued_place), unfolding(crate::specs::Placing::IsShiftTo, crate::specs::Leaving::IsShown))]
pub(crate) fn item_at<W: Weave>(tree: &Links<Data<W::Item, W::Sum, W::By>>, id: NodeId) -> W::Item
    requires { StandsValued W.Weave tree.now id }
    ensures { IsShown W.Weave tree.now id result }
{
    #[tactic(auto, unfolding(crate::specs::Leaving::StandsValued))]
    let at = place(tree, id);
    let by = path_shift::<W>(tree, at);
    #[tactic(auto, unfolding(crate::specs::Leaving::StandsValued, crate::specs::Placing::IsShiftTo))]
    let item = W::shift(by, node_of(tree, id).data.item);
    item
}

/// Returns an item in the form that the node `id` keeps, relative to the shifts of its path.
#[tactic(auto, using(crate::proofs::Inserting::keeping))]
pub(crate) fn item_for<W: Weave>(
    tree: &Links<Data<W::Item, W::Sum, W::By>>,
    id: NodeId,
    item: W::Item,
) -> W::Item
    requires spot { StandsWoven W.Weave tree.now id }
    requires value { W.is_item item }
    ensures { IsKept W.Weave tree.now id item result }
{
    #[tactic(auto, unfolding(crate::specs::Leaving::StandsWoven))]
    let at = place(tree, id);
    let by = path_shift::<W>(tree, at);
    kept_below::<W>(by, item)
}

/// Detaches the leaf `heir`, whose item is the next one after that of `id`, and returns its place.
#[tactic(auto, using(crate::proofs::Heirs::cutting))]
fn cut<W: Weave>(tree: &mut Links<Data<W::Item, W::Sum, W::By>>, id: NodeId, heir: NodeId) -> Place
    requires leaf { NoChild tree.old.nodes.live heir }
    requires items { StoresBoth W.Weave tree.old id heir }
    ensures place { AtSpot tree.old.nodes.live tree.old.root heir (λ s. result ≡ place_of s.hole) }
    ensures live { tree.new.nodes.live ≡ hung tree.old.nodes.live result None }
    ensures root { tree.new.root ≡ root_hung tree.old.root result None }
    ensures there { IsThere tree.new id }
    ensures heir { Lives tree.new.nodes heir }
    ensures count { KeepsCount tree.old.nodes tree.new.nodes }
{
    #[tactic(auto, unfolding(crate::specs::Leaving::StoresBoth))]
    let at = place(tree, heir);
    let below = copy_of(&at);
    hang(tree, at, None);
    below
}

/// Detaches the node `id` and puts the leaf `heir`, which is the next node, in its place. The slot of `id` stays live.
#[tactic(auto, using(crate::proofs::Heirs::inheriting))]
fn inherit<W: Weave>(
    tree: &mut Links<Data<W::Item, W::Sum, W::By>>,
    id: NodeId,
    heir: NodeId,
) -> Vacancy
    requires leaf { NoChild tree.old.nodes.live heir }
    requires items { StoresBoth W.Weave tree.old id heir }
    ensures unlinked { UnlinksBefore W.Weave tree.old tree.new heir id result.at result.red }
    ensures live { Lives tree.new.nodes id }
    ensures count { KeepsCount tree.old.nodes tree.new.nodes }
{
    #[tactic(auto, unfolding(crate::specs::Leaving::StoresBoth))]
    let red = node_of(tree, heir).red;
    let item = item_at::<W>(tree, heir);
    let own = item_for::<W>(tree, id, item);
    cut::<W>(tree, id, heir);
    #[tactic(auto, unfolding(crate::specs::Placing::IsThere))]
    let old = node_of(tree, id).data;
    let datum = Data {
        item: own,
        delta: old.delta,
        before: old.before,
        whole: old.whole,
    };
    #[tactic(auto, unfolding(crate::specs::Placing::IsThere))]
    replace(tree, id, heir, datum);
    let right = read(&tree.nodes, heir).right;
    let at = end_place(tree, Some((heir, Side::Right)), right, Side::Left);
    Vacancy { at, red }
}

/// Detaches a node with any number of children from the tree. Its slot stays live.
#[tactic(auto, using(crate::proofs::Heirs::unlinking))]
fn unlink<W: Weave>(tree: &mut Links<Data<W::Item, W::Sum, W::By>>, id: NodeId) -> Vacancy
    requires stands { IsThere tree.old id }
    requires item { StoresItem W.Weave tree.old id }
    ensures unlinked { Unlinks W.Weave tree.old tree.new id result.at result.red }
    ensures live { Lives tree.new.nodes id }
    ensures count { KeepsCount tree.old.nodes tree.new.nodes }
{
    #[tactic(auto, unfolding(crate::specs::Placing::IsThere))]
    let right = node_of(tree, id).right;
    if right.is_none() {
        #[tactic(auto, using(crate::proofs::Heirs::none_right))]
        to_leaf::<W>(tree, id);
        return unlink_leaf::<W>(tree, id);
    }
    let first = end_place(tree, Some((id, Side::Right)), right, Side::Left);
    let heir = parent_at(&first).unwrap_or(id);
    to_leaf::<W>(tree, heir);
    inherit::<W>(tree, id, heir)
}

/// Removes a node from the tree and returns its slot to the arena.
#[tactic(auto, using(crate::proofs::TakingOut::taking_out))]
pub(crate) fn leave<W: Weave>(tree: &mut Links<Data<W::Item, W::Sum, W::By>>, id: NodeId)
    requires { StoresItem W.Weave tree.old id }
    ensures mended { Leaves W.Weave tree.old tree.new id }
    ensures count { LosesOne tree.old.nodes tree.new.nodes }
{
    let Vacancy { at, red } = unlink::<W>(tree, id);
    #[tactic(auto, unfolding(crate::specs::Nodes::Lives))]
    tree.nodes.take(id);
    settle::<W>(tree, at, red);
}

/// Moves a node from the tree to the front of the chain of loose nodes.
#[tactic(auto, using(crate::proofs::TakingOut::loosening))]
pub(crate) fn loosen<W: Weave>(
    tree: &mut Links<Data<W::Item, W::Sum, W::By>>,
    id: NodeId,
    front: Option<NodeId>,
)
    requires { StoresItemBeside W.Weave tree.old id front }
    ensures mended { Loosens W.Weave tree.old tree.new id front }
    ensures count { KeepsCount tree.old.nodes tree.new.nodes }
{
    let datum = Data {
        item: item_at::<W>(tree, id),
        delta: W::still(),
        before: W::none(),
        whole: W::none(),
    };
    let Vacancy { at, red } = unlink::<W>(tree, id);
    #[tactic(auto, using(crate::proofs::TakingOut::front_lives), unfolding(crate::specs::Nodes::Lives))]
    string(&mut tree.nodes, id, front, datum);
    settle::<W>(tree, at, red);
}
