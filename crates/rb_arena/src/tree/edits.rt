//! Insertion, removal, replacement and moving of items.
ghost use Rattle.std.specs.Prelude.{◌≡◌, ◌+◌, ◌<◌, ◌∷◌};
ghost use Rattle.rb_rules.specs.Rewriting.{rewritten_all, onward_all};
ghost use Rattle.rb_rules.specs.Woven.{sum_of, Valued};
ghost use Rattle.rb_arena.specs.RbTree.{IsItem, PlaceAfter, HasInstead, HasPut, HasAfter, LeavesOut};
ghost use Rattle.rb_arena.specs.RbTree.{SumsWith, SumsPut, SumsTo};
ghost use Rattle.rb_arena.specs.RbTree.{CanMoveAfter, SumsMoved, HasMoved};

use crate::climb::{LONGEST, set_item};
use crate::insert::insert_at;
use crate::leave::{item_for, leave};
use crate::rewrite::rewrite_below;
use crate::shift::{reach_for, shift_from};
use crate::tree::RbTree;
use crate::walk::place_after;
use raw_arena::NodeId;
use rb_rules::{Rewriting, Weave};

impl<W: Weave> RbTree<W> {
    /// Replaces the item `id`, which keeps its name. If `same` finds the sum of its node unchanged, no other node is written.
    #[tactic(auto, using(crate::proofs::Seeing::setting))]
    pub fn set(&mut self, id: NodeId, item: W::Item)
        requires named { IsItem self.old.items id }
        requires value { W.is_item item }
        requires sum { SumsWith W.weaving W.is_value self.old.items id item }
        ensures items { HasInstead self.old.items self.new.items id item }
        ensures loose { self.new.loose ≡ self.old.loose }
        ensures spare { self.new.spare ≡ self.old.spare }
    {
        let own = item_for::<W>(&self.links, id, item);
        set_item::<W>(&mut self.links, id, own);
    }

    /// Inserts an item right after `id`, or before all others if `id` is None, and returns its name.
    #[tactic(auto, using(crate::proofs::Seeing::putting))]
    fn put_after(&mut self, id: Option<NodeId>, item: W::Item) -> NodeId
        requires room { 0 < self.old.spare }
        requires named { PlaceAfter self.old.items id }
        requires value { W.is_item item }
        requires sum { SumsPut W.weaving W.is_value self.old.items id item }
        ensures items { HasPut self.old.items self.new.items id (result, item) }
        ensures loose { self.new.loose ≡ self.old.loose }
        ensures spare { self.new.spare + 1 ≡ self.old.spare }
    {
        let at = place_after(&self.links, id);
        insert_at::<W>(&mut self.links, at, item)
    }

    /// Inserts an item right after `id` and returns its name.
    pub fn insert_after(&mut self, id: NodeId, item: W::Item) -> NodeId
        requires room { 0 < self.old.spare }
        requires named { IsItem self.old.items id }
        requires value { W.is_item item }
        requires sum { SumsTo W.weaving W.is_value self.old.items id item }
        ensures items { HasAfter self.old.items self.new.items id (result, item) }
        ensures loose { self.new.loose ≡ self.old.loose }
        ensures spare { self.new.spare + 1 ≡ self.old.spare }
    {
        self.put_after(Some(id), item)
    }

    /// Inserts an item before all others and returns its name.
    pub fn insert_first(&mut self, item: W::Item) -> NodeId
        requires room { 0 < self.old.spare }
        requires value { W.is_item item }
        requires sum { W.is_value (sum_of W.weaving ((0, item) ∷ self.old.items)) }
        ensures items { self.new.items ≡ (result, item) ∷ self.old.items }
        ensures loose { self.new.loose ≡ self.old.loose }
        ensures spare { self.new.spare + 1 ≡ self.old.spare }
    {
        self.put_after(None, item)
    }

    /// Removes the item `id`. Its name may be given to another item afterwards.
    #[tactic(auto, using(crate::proofs::Seeing::removing))]
    pub fn remove(&mut self, id: NodeId)
        requires { IsItem self.old.items id }
        ensures items { LeavesOut self.old.items self.new.items id }
        ensures loose { self.new.loose ≡ self.old.loose }
        ensures spare { self.new.spare ≡ self.old.spare + 1 }
    {
        leave::<W>(&mut self.links, id);
    }

    /// Moves each item after `id`, or every item if `id` is None, by `by`.
    #[tactic(auto, using(crate::proofs::Seeing::moving))]
    pub fn shift_after(&mut self, id: Option<NodeId>, by: W::By)
        requires named { PlaceAfter self.old.items id }
        requires values { CanMoveAfter W.Weave self.old.items id by }
        requires sum { SumsMoved W.Weave self.old.items id by }
        ensures items { HasMoved W.Weave self.old.items id self.new.items by }
        ensures loose { self.new.loose ≡ self.old.loose }
        ensures spare { self.new.spare ≡ self.old.spare }
    {
        let Some(reach) = reach_for::<W>(&mut self.links, self.reach, by) else {
            return;
        };
        let at = place_after(&self.links, id);
        shift_from::<W>(&mut self.links, at, by);
        self.reach = reach;
    }

    /// Rewrites the items in place, in order. Of a subtree that is skipped only the root is read.
    #[tactic(auto, using(crate::proofs::Seeing::spare_seen))]
    pub fn rewrite<R: Rewriting<W>>(&mut self, how: &mut R)
        requires values { Valued W.weaving W.is_item W.is_value
            (rewritten_all R.rewritten R.onward how.old self.old.items) }
        ensures items { self.new.items
            ≡ rewritten_all R.rewritten R.onward how.old self.old.items }
        ensures onward { how.new ≡ onward_all R.rewritten R.onward how.old self.old.items }
        ensures loose { self.new.loose ≡ self.old.loose }
        ensures spare { self.new.spare ≡ self.old.spare }
    {
        let root = self.links.root;
        rewrite_below::<W, R>(&mut self.links, root, W::still(), LONGEST, how);
    }
}
