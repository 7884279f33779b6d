//! Items that are lifted out of the list and keep their names, and their return into it.
ghost use Rattle.std.specs.Prelude.{◌≡◌};
ghost use Rattle.rb_arena.specs.RbTree.{IsItem, PlaceAfter, LeavesOut, HasLifted, front_of};
ghost use Rattle.rb_arena.specs.RbTree.{HasFront, AtFront, SumsLanded, HasLanded};
ghost use Rattle.rb_arena.specs.Landing.{CanLand, Lands};

use crate::insert::land_at;
use crate::leave::loosen;
use crate::links::{Links, Place, read, unstring};
use crate::tree::RbTree;
use crate::walk::place_after;
use raw_arena::NodeId;
use rb_rules::{Data, Weave};

/// Inserts an item at an empty place, in the first node of a chain, and returns the node that is first now.
#[tactic(auto, using(crate::proofs::Seeing::landing))]
fn land<W: Weave>(
    tree: &mut Links<Data<W::Item, W::Sum, W::By>>,
    at: Place,
    landing: NodeId,
    item: W::Item,
) -> Option<NodeId>
    requires { CanLand W.Weave tree.old at landing item }
    ensures lands { Lands W.Weave tree.old tree.new at landing item result }
    ensures spare { tree.new.nodes.spare ≡ tree.old.nodes.spare }
{
    let next = unstring(&mut tree.nodes, landing);
    land_at::<W>(tree, at, landing, item);
    next
}

impl<W: Weave> RbTree<W> {
    /// Takes the item `id` out of the list and puts it in front of the loose items. It keeps its name.
    #[tactic(auto, using(crate::proofs::Seeing::lifting))]
    pub fn lift(&mut self, id: NodeId)
        requires { IsItem self.old.items id }
        ensures items { LeavesOut self.old.items self.new.items id }
        ensures loose { HasLifted self.old self.new.loose id }
        ensures spare { self.new.spare ≡ self.old.spare }
    {
        loosen::<W>(&mut self.links, id, self.loose);
        self.loose = Some(id);
    }

    /// Returns the front loose item with its name; None if no item is loose.
    #[tactic(auto, using(crate::proofs::Seeing::fronts))]
    pub fn loose(&self) -> Option<(NodeId, W::Item)>
        ensures { result ≡ front_of self.now.loose }
    {
        let id = self.loose?;
        #[tactic(auto, using(crate::proofs::Seeing::front_lives))]
        let front = read(&self.links.nodes, id);
        Some((id, front.data.item))
    }

    /// Inserts an item right after `id`, or before all others if `id` is None, under the name of the front loose item, which is no longer
    /// loose.
    #[tactic(auto, using(crate::proofs::Seeing::landing_after))]
    pub fn land_after(&mut self, id: Option<NodeId>, item: W::Item)
        requires loose { HasFront self.old.loose }
        requires named { PlaceAfter self.old.items id }
        requires value { W.is_item item }
        requires sum { SumsLanded W.Weave self.old.items id item }
        ensures items { HasLanded self.old self.new.items id item }
        ensures loose { AtFront self.old.loose (λ front rest. self.new.loose ≡ rest) }
        ensures spare { self.new.spare ≡ self.old.spare }
    {
        let Some(landing) = self.loose else {
            return;
        };
        let at = place_after(&self.links, id);
        self.loose = land::<W>(&mut self.links, at, landing, item);
    }
}
