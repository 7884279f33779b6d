//! The public interface of the tree.
ghost use Rattle.std.specs.Prelude.{◌≡◌, None, ◌≤◌, [], OnOk};
ghost use Rattle.rb_rules.specs.Woven.{sum_of};
ghost use Rattle.rb_arena.specs.RbTree.{listed, first_or, last_or, name_at_end, name_beside};
ghost use Rattle.rb_arena.specs.RbTree.{IsItem, AtItem, NamesDiffer};
ghost use Rattle.rb_arena.specs.Names.{HaveOwnNames};

mod edits;
mod loose;
mod search;
mod walking;

use crate::insert::parent_at;
use crate::leave::item_at;
use crate::links::Links;
use crate::sums::whole;
use crate::walk::{end_place, neighbour};
use raw_arena::{Arena, NodeId};
use rb_rules::{Data, Side, Weave};
use std::alloc::{AllocError, Global};
use std::marker::Model;
pub use walking::Walk;

/// A list of items in a red-black tree that keeps sums of them.
///
/// A contract sees the items in order, each with its name; the loose items, which were lifted out of the list and keep their names; and
/// the number of further items for which there is room.
#[derive(Drop)]
pub struct RbTree<W: Weave> {
    links: Links<Data<W::Item, W::Sum, W::By>>,
    /// A reach that contains the shifts of all paths.
    reach: W::By,
    /// The first node of the chain of loose nodes.
    loose: Option<NodeId>,
}

impl<W: Weave> Model for RbTree<W> {
    ghost use Rattle.rb_arena.specs.RbTree.{Listed, listed_code, seen, Kept};

    ghost Value = { Listed W.Item };

    ghost coded = { listed_code W.Item.code };

    ghost view = { λ t. seen W.weaving t.links t.loose };

    ghost invariant = { λ t. Kept W.Weave t.reach t.links t.loose };
}

impl<W: Weave> RbTree<W> {
    /// Makes an empty tree without room for items.
    pub fn new(alloc: Global) -> RbTree<W>
        requires { W.is_value W.weaving.none }
        ensures { result ≡ listed [] [] 0 }
    {
        RbTree {
            links: Links {
                nodes: Arena::new(alloc),
                root: None,
            },
            reach: W::still(),
            loose: None,
        }
    }

    /// Makes room for `count` more items. Fails if memory is short, or if 2^32 or more slots would be needed.
    #[tactic(auto, using(crate::proofs::Seeing::staying))]
    pub fn reserve(&mut self, count: u64) -> Result<(), AllocError>
        ensures items { self.new.items ≡ self.old.items }
        ensures loose { self.new.loose ≡ self.old.loose }
        ensures room { OnOk result (count ≤ self.new.spare) }
        ensures kept { self.old.spare ≤ self.new.spare }
    {
        self.links.nodes.reserve(count)
    }

    /// Returns the name of the item at one end; None if the list is empty. All names differ, those of the loose items included.
    #[tactic(auto, using(crate::proofs::Seeing::ends))]
    fn end(&self, side: Side) -> Option<NodeId>
        ensures end { result ≡ name_at_end side self.now.items }
        ensures names { NamesDiffer self.now }
    {
        parent_at(&end_place(&self.links, None, self.links.root, side))
    }

    /// Returns the name of the next item after `id` on the side `side`; None if there is none.
    #[tactic(auto, using(crate::proofs::Seeing::beside))]
    fn beside(&self, id: NodeId, side: Side) -> Option<NodeId>
        requires { IsItem self.now.items id }
        ensures { AtItem self.now.items id (λ us x vs. result ≡ name_beside side us vs) }
    {
        neighbour(&self.links, id, side)
    }

    /// Returns the name of the first item; None if the list is empty. All names differ, those of the loose items included.
    #[tactic(auto, unfolding(crate::specs::RbTree::NamesDiffer, crate::specs::RbTree::name_at_end))]
    pub fn first(&self) -> Option<NodeId>
        ensures first { result ≡ first_or None self.now.items }
        ensures names { HaveOwnNames self.now.items self.now.loose }
    {
        self.end(Side::Left)
    }

    /// Returns the name of the last item; None if the list is empty.
    #[tactic(auto, unfolding(crate::specs::RbTree::name_at_end))]
    pub fn last(&self) -> Option<NodeId>
        ensures { result ≡ last_or None self.now.items }
    {
        self.end(Side::Right)
    }

    /// Returns the name of the item after `id`; None after the last.
    pub fn next(&self, id: NodeId) -> Option<NodeId>
        requires { IsItem self.now.items id }
        ensures { AtItem self.now.items id (λ us x vs. result ≡ first_or None vs) }
    {
        self.beside(id, Side::Right)
    }

    /// Returns the name of the item before `id`; None before the first.
    pub fn prev(&self, id: NodeId) -> Option<NodeId>
        requires { IsItem self.now.items id }
        ensures { AtItem self.now.items id (λ us x vs. result ≡ last_or None us) }
    {
        self.beside(id, Side::Left)
    }

    /// Returns the item with the name `id`.
    #[tactic(auto, using(crate::proofs::Seeing::getting))]
    pub fn get(&self, id: NodeId) -> W::Item
        requires { IsItem self.now.items id }
        ensures { AtItem self.now.items id (λ us x vs. result ≡ x) }
    {
        item_at::<W>(&self.links, id)
    }

    /// Returns the sum of all items.
    #[tactic(auto, using(crate::proofs::Seeing::summing))]
    pub fn sum(&self) -> W::Sum
        ensures { result ≡ sum_of W.weaving self.now.items }
    {
        whole::<W>(&self.links.nodes, self.links.root)
    }
}
