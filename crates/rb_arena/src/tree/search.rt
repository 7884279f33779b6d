//! Searches for a key.
ghost use Rattle.std.specs.Prelude.{length, ◌-◌, ◌^◌, ◌+◌, ◌≤◌};
ghost use Rattle.rb_arena.specs.RbTree.{IsItem, AtItem};
ghost use Rattle.rb_arena.specs.Searching.{Found, CanGoOn, FindsOn, StepsOn};

use crate::descend::{Next, Standing, climb, go_down};
use crate::links::Links;
use crate::tree::RbTree;
use raw_arena::NodeId;
use rb_rules::{Data, Weave};
use steps::Steps;

/// Completes a search after its climb. Returns the item at which it ends, with its name and the sum of the items before it. Each visited
/// node counts as a step.
#[tactic(auto, using(crate::proofs::Seeing::going_on))]
fn go_on<W: Weave, L>(
    tree: &Links<Data<W::Item, W::Sum, W::By>>,
    next: Next<W::Item, W::Sum, W::By>,
    key: W::Key,
    steps: &mut Steps<L>,
) -> Option<(NodeId, W::Item, W::Sum)>
    requires { CanGoOn W.Weave tree.now 126 key next }
    ensures found { FindsOn W.Weave tree.now 126 key next result }
    ensures cost { StepsOn W.Weave tree.now 126 key next (steps.new - steps.old) }
{
    match next {
        Next::Stop(found) => Some(found),
        Next::Down(standing) => go_down::<W, L>(tree, standing, key, steps),
    }
}

impl<W: Weave> RbTree<W> {
    /// Searches for a key. Returns an item at which the search ends, with its name and the sum of the items before it; None if the list
    /// is empty. The search ends at an item where `turn` says stop, where it says left and the item before is missing or says right, or
    /// where it says right and the item after is missing or says left. Each visited node counts as a step.
    #[tactic(auto, using(crate::proofs::Seeing::descending))]
    pub fn descend<L>(&self, key: W::Key, steps: &mut Steps<L>) -> Option<(NodeId, W::Item, W::Sum)>
        ensures found { Found W.weaving W.turn key self.now.items result }
        ensures cost { 2 ^ (steps.new - steps.old) ≤ (length self.now.items + 1) ^ 2 }
    {
        let top = Standing {
            at: self.links.root,
            by: W::still(),
            before: W::none(),
            last: None,
        };
        go_down::<W, L>(&self.links, top, key, steps)
    }

    /// Searches for a key among the items after `id`, as `descend` does. Sums begin after `id`. Each visited node counts as a step.
    #[tactic(auto, using(crate::proofs::Seeing::descending_after))]
    pub fn descend_after<L>(
        &self,
        id: NodeId,
        key: W::Key,
        steps: &mut Steps<L>,
    ) -> Option<(NodeId, W::Item, W::Sum)>
        requires named { IsItem self.now.items id }
        ensures found { AtItem self.now.items id (λ us x vs. Found W.weaving W.turn key vs result) }
        ensures cost { 2 ^ (steps.new - steps.old) ≤ (length self.now.items + 1) ^ 6 }
    {
        let next = climb::<W, L>(&self.links, id, key, steps);
        go_on::<W, L>(&self.links, next, key, steps)
    }
}
