//! Rewriting of the items of a tree in place.
ghost use Rattle.rb_arena.specs.Nodes.{KeepsCount};
ghost use Rattle.rb_arena.specs.Rewriting.{CanRewriteAt, RewritesAt};

use crate::links::{Links, node_of, rewrite};
use crate::sums::summed;
use raw_arena::NodeId;
use rb_rules::{Data, Rewriting, Weave};

/// Rewrites the items of the subtree `at` in order and recomputes its sums; `by` is the sum of the shifts on the path above it, `levels`
/// an upper bound for its height. Returns the sum that its root keeps. Of a subtree that is skipped only the root is read.
#[tactic(auto, unfolding(crate::specs::Rewriting::CanRewriteAt, crate::specs::Rewriting::RewritesAt))]
pub(crate) fn rewrite_below<W: Weave, R: Rewriting<W>>(
    tree: &mut Links<Data<W::Item, W::Sum, W::By>>,
    at: Option<NodeId>,
    by: W::By,
    levels: u32,
    how: &mut R,
) -> W::Sum
    requires { CanRewriteAt W.Weave R.rewritten R.onward tree.old how.old at by levels }
    ensures made { RewritesAt W.Weave R.rewritten R.onward tree.old how.old tree.new how.new at by
        levels result }
    ensures count { KeepsCount tree.old.nodes tree.new.nodes }
{
    let Some(id) = at else {
        return W::none();
    };
    let slot = node_of(tree, id);
    let kept = slot.data;
    let whole = W::shift_sum(by, kept.whole);
    if how.skips(whole) {
        return kept.whole;
    }
    let left = rewrite_below::<W, R>(tree, slot.left, by, levels - 1, how);
    let own = how.rewrite(W::shift(by, kept.item));
    let item = W::shift(W::minus(W::still(), by), own);
    let far = W::plus(by, kept.delta);
    let right = rewrite_below::<W, R>(tree, slot.right, far, levels - 1, how);
    let datum = summed::<W>(item, kept.delta, left, right);
    let sum = datum.whole;
    rewrite(tree, id, slot.red, datum);
    sum
}
