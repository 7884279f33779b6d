//! A list in pages, in safe code over a row of slots.
ghost use Rattle.std.specs.Prelude.{◌≡◌, ◌+◌, ◌^◌, ◌<◌, ◌≤◌, [], ◌∷◌, ◌++◌, ◌↔◌, Some, length, slice_set, IsSome, OnOk, OnErr};
ghost use Rattle.std.specs.Borrow.{sem};
ghost use Rattle.std.specs.List.{slice_get};
ghost use Rattle.std.specs.Option.{option_to_list};
ghost use Rattle.paged_list.specs.List.{paged};

use crate::slots::Slots;
use std::alloc::{AllocError, Global};
use std::marker::Model;

/// A list of fewer than 2^32 items in pages of raw memory. Items are never moved: making room only allocates further pages. Only
/// `reserve` allocates. Dropping the list drops the items, the last one first, and returns the pages to the allocator.
///
/// A contract sees the items and the capacity.
pub struct PagedList<T> {
    slots: Slots<T>,
    len: usize,
}

impl<T> Model for PagedList<T> {
    ghost use Rattle.std.specs.Prelude.{length};
    ghost use Rattle.paged_list.specs.List.{Paged, paged, paged_code, values, IsLaid};

    ghost Value = { Paged T };

    ghost coded = { paged_code T.code };

    ghost view = { λ a. paged (values a.slots) (length a.slots) };

    ghost invariant = { λ a. IsLaid a.slots a.len };
}

impl<T: Drop> Drop for PagedList<T> {
    fn drop(mut self) {
        for _ in 0..self.len() {
            self.pop();
        }
        let PagedList { slots, len: _ } = self;
        drop(slots);
    }
}

impl<T> PagedList<T> {
    ghost use Rattle.paged_list.specs.ItemLends.{lends_item};

    /// Makes an empty list without room for items.
    pub fn new(alloc: Global) -> PagedList<T>
        ensures { result ≡ paged [] 0 }
    {
        PagedList {
            slots: Slots::new(alloc),
            len: 0,
        }
    }

    pub fn len(&self) -> usize
        ensures value { result ≡ length self.now.items }
        ensures room { result ≤ self.now.capacity }
        ensures few { self.now.capacity < 2 ^ 32 }
    {
        self.len
    }

    /// Returns the number of items for which there is room, the present ones included.
    pub fn capacity(&self) -> usize
        ensures value { result ≡ self.now.capacity }
        ensures few { result < 2 ^ 32 }
    {
        self.slots.len()
    }

    /// Makes room for `additional` more items. Fails if memory is short, or if room for 2^32 or more items would be needed.
    pub fn reserve(&mut self, additional: usize) -> Result<(), AllocError>
        ensures items { self.new.items ≡ self.old.items }
        ensures room { OnOk result (length self.old.items + additional ≤ self.new.capacity) }
        ensures kept { self.old.capacity ≤ self.new.capacity }
    {
        while self.capacity() - self.len() < additional {
            self.grow()?;
        }
        Ok(())
    }

    /// Adds a page.
    fn grow(&mut self) -> Result<(), AllocError>
        ensures items { self.new.items ≡ self.old.items }
        ensures room { OnOk result (self.old.capacity < self.new.capacity) }
        ensures kept { OnErr result (self.new.capacity ≡ self.old.capacity) }
    {
        self.slots.grow()?;
        Ok(())
    }

    /// Appends an item.
    pub fn push(&mut self, item: T)
        requires { length self.old.items < self.old.capacity }
        ensures { self.new ≡ paged (self.old.items ++ item ∷ []) self.old.capacity }
    {
        self.slots.fill(self.len, item);
        self.len += 1;
    }

    /// Removes the last item and returns it; None if the list is empty.
    pub fn pop(&mut self) -> Option<T>
        ensures items { self.old.items ≡ self.new.items ++ option_to_list result }
        ensures variant { IsSome result ↔ (0 < length self.old.items) }
        ensures capacity { self.new.capacity ≡ self.old.capacity }
    {
        if self.len == 0 {
            return None;
        }
        self.len -= 1;
        Some(self.slots.empty(self.len))
    }

    pub fn get(&self, index: usize) -> &T
        requires { index < length self.now.items }
        ensures { slice_get self.now.items index ≡ Some result.now }
    {
        self.slots.get(index)
    }

    pub fn get_mut(&mut self, index: usize) -> &mut T
        requires { index < length self.old.items }
        ensures* writes_back { sem 𝓛 (lends_item T.row self.entry index result) }
        ensures value { slice_get self.old.items index ≡ Some result.now }
    {
        self.slots.get_mut(index)
    }
}

impl<T: Drop> PagedList<T> {
    /// Replaces the item at `index`. The old item is dropped.
    pub fn set(&mut self, index: usize, item: T)
        requires { index < length self.old.items }
        ensures { self.new ≡ paged (slice_set self.old.items index item) self.old.capacity }
    {
        *self.get_mut(index) = item;
    }
}
