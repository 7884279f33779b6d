//! Application of all pending shifts of a tree.
ghost use Rattle.std.specs.Prelude.{◌≡◌};
ghost use Rattle.rb_rules.specs.Shifts as shifts;
ghost use Rattle.rb_arena.specs.Nodes.{KeepsCount};
ghost use Rattle.rb_arena.specs.Relative.{RelativeItem, RelativeSum};
ghost use Rattle.rb_arena.specs.Shifting.{CanLevelAt, Levels};

use crate::links::{Links, node_of, rewrite};
use raw_arena::NodeId;
use rb_rules::{Data, Weave};

/// Returns a node's data with the shift `by` of its path applied, and without a shift for its right subtree.
fn level_datum<W: Weave>(
    by: W::By,
    datum: &Data<W::Item, W::Sum, W::By>,
) -> Data<W::Item, W::Sum, W::By>
    requires item { RelativeItem W.Weave (W.weaving.shift by datum.now.item) }
    requires before { RelativeSum W.Weave (W.weaving.shift_sum by datum.now.before) }
    requires whole { RelativeSum W.Weave (W.weaving.shift_sum by datum.now.whole) }
    ensures { result ≡ shifts.level_datum W.weaving by datum.now }
{
    Data {
        item: W::shift(by, datum.item),
        delta: W::still(),
        before: W::shift_sum(by, datum.before),
        whole: W::shift_sum(by, datum.whole),
    }
}

/// Applies the pending shifts in the subtree `at`; `by` is the sum of the shifts on the path above it, `levels` an upper bound for its
/// height.
#[tactic(auto, unfolding(crate::specs::Shifting::CanLevelAt, crate::specs::Shifting::Levels))]
pub(crate) fn level<W: Weave>(
    tree: &mut Links<Data<W::Item, W::Sum, W::By>>,
    at: Option<NodeId>,
    by: W::By,
    levels: u32,
)
    requires { CanLevelAt W.Weave tree.old at by levels }
    ensures made { Levels W.Weave tree.old tree.new at by levels }
    ensures count { KeepsCount tree.old.nodes tree.new.nodes }
{
    let Some(id) = at else {
        return;
    };
    let slot = node_of(tree, id);
    let datum = level_datum::<W>(by, &slot.data);
    rewrite(tree, id, slot.red, datum);
    level::<W>(tree, slot.left, by, levels - 1);
    let right = W::plus(by, slot.data.delta);
    level::<W>(tree, slot.right, right, levels - 1);
}
