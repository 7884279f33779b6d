//! The arena: slots in pages, and a list of free slots.
ghost use Rattle.std.specs.Prelude.{◌≡◌, ◌+◌, ◌^◌, ◌<◌, ◌≤◌, Some, None, IfOk, OnOk, OnErr};
ghost use Rattle.std.specs.FinMap as map;
ghost use Rattle.std.specs.Borrow.{sem};
ghost use Rattle.raw_arena.specs.Arena.{node, nodes, IsLive};

use crate::name::NodeId;
use paged_list::PagedList;
use std::alloc::{AllocError, Global};
use std::marker::Model;
use steps::Steps;

/// Upper bound for the number of slots, so that the number of a slot plus one fits into 32 bits.
const MOST: usize = u32::MAX as usize;

/// An arena of values of one type, each under its own name. The name is the number of a slot. A slot holds the value and nothing else; a
/// free slot keeps its old content until it is filled again. No value is ever moved.
///
/// A contract sees the live values as a finite map from their names, and the number of further values for which there is room.
#[derive(Drop)]
pub struct Arena<T: Copy> {
    slots: PagedList<T>,
    free: PagedList<u32>,
    /// Upper bound for the number of slots. Both lists have room for as many entries.
    limit: usize,
}

impl<T: Copy> Model for Arena<T> {
    ghost use Rattle.raw_arena.specs.Arena.{Nodes, nodes_code};

    ghost Value = { Nodes T };

    ghost coded = { nodes_code T.code };

    ghost use Rattle.raw_arena.specs.Fields.{value, fields_hold};

    ghost view = { value };

    ghost invariant = { fields_hold };
}

/// Adds `more` to a limit. Fails if the result would be 2^32 or more.
fn raised(limit: usize, more: u64) -> Result<usize, AllocError>
    requires { limit < 2 ^ 32 }
    ensures enough { IfOk result (λ n. (limit + more ≤ n) × (n < 2 ^ 32)) }
    ensures refused { OnErr result (2 ^ 32 ≤ limit + more) }
{
    if more > (MOST - limit) as u64 {
        return Err(AllocError);
    }
    Ok(limit + more as usize)
}

impl<T: Copy> Arena<T> {
    ghost use Rattle.raw_arena.specs.NodeLends.{lends_node};

    /// Makes an arena without values and without room.
    pub fn new(alloc: Global) -> Arena<T>
        ensures { result ≡ nodes map.empty 0 }
    {
        Arena {
            slots: PagedList::new(alloc),
            free: PagedList::new(alloc),
            limit: 0,
        }
    }

    /// Makes room for `count` more values. Fails if memory is short, or if 2^32 or more slots would be needed. No room is lost on
    /// failure.
    pub fn reserve(&mut self, count: u64) -> Result<(), AllocError>
        ensures live { self.new.live ≡ self.old.live }
        ensures room { OnOk result (count ≤ self.new.spare) }
        ensures kept { self.old.spare ≤ self.new.spare }
    {
        let spare = self.spare();
        if spare >= count {
            return Ok(());
        }
        let limit = raised(self.limit, count - spare)?;
        self.free.reserve(limit - self.free.len())?;
        self.slots.reserve(limit - self.slots.len())?;
        self.limit = self.slots.capacity().min(self.free.capacity());
        Ok(())
    }

    /// Returns the number of further values for which there is room.
    pub fn spare(&self) -> u64
        ensures { result ≡ self.now.spare }
    {
        (self.free.len() + (self.limit - self.slots.len())) as u64
    }

    /// Adds a value and returns its name, which no live value has.
    pub fn put(&mut self, item: T) -> NodeId
        requires { 0 < self.old.spare }
        ensures new_name { node self.old result ≡ None }
        ensures live { self.new.live ≡ map.insert self.old.live result item }
        ensures spare { self.new.spare + 1 ≡ self.old.spare }
        ensures few { map.len self.new.live + self.new.spare < 2 ^ 63 }
    {
        if let Some(slot) = self.free.pop() {
            self.slots.set(slot as usize, item);
            return NodeId::new(slot);
        }
        let slot = self.slots.len() as u32;
        self.slots.push(item);
        NodeId::new(slot)
    }

    /// Removes a value and returns it. Its name may be given to another value afterwards.
    pub fn take(&mut self, id: NodeId) -> T
        requires { IsLive self.old id }
        ensures value { node self.old id ≡ Some result }
        ensures live { self.new.live ≡ map.remove self.old.live id }
        ensures spare { self.new.spare ≡ self.old.spare + 1 }
    {
        let slot = id.slot();
        self.free.push(slot);
        *self.slots.get(slot as usize)
    }

    /// Returns the value with the name `id`. Counts one step.
    #[inline(always)]
    pub fn visit<L>(&self, id: NodeId, steps: &mut Steps<L>) -> &T
        requires { IsLive self.now id }
        ensures value { node self.now id ≡ Some result.now }
        ensures step { steps.new ≡ steps.old + 1 }
    {
        steps.tick();
        self.slots.get(id.slot() as usize)
    }

    /// Returns the value with the name `id` for writing. Counts one step.
    pub fn visit_mut<L>(&mut self, id: NodeId, steps: &mut Steps<L>) -> &mut T
        requires { IsLive self.old id }
        ensures* writes_back { sem 𝓛 (lends_node T.row self.entry id result) }
        ensures value { node self.old id ≡ Some result.now }
        ensures step { steps.new ≡ steps.old + 1 }
    {
        steps.tick();
        self.slots.get_mut(id.slot() as usize)
    }
}
