//! A block of raw memory, cut into slots with room for one value each. Only proofs know which slots hold a value: a slot has no tag. Raw
//! pointers occur in this file only.
ghost use Rattle.std.specs.Prelude.{◌≡◌, ℕ, ◌<◌, List, Option, Some, None, length, replicate, get_or, slice_set, IfOk};
ghost use Rattle.std.specs.Borrow.{sem};
ghost use Rattle.std.specs.Vec.Ownership.{FitsInBlock};
ghost use Rattle.paged_list.specs.Slots.{IsFilled, block_owned, block_seen};

use std::alloc::{AllocError, Allocator};
use std::marker::{Model, PhantomData};
use std::mem::{align_of, size_of};

/// The slots from `start` on with their content, and the right to return the block to its allocator.
pub struct Block<T, A: Allocator> {
    start: *mut T,
    lender: PhantomData<A>,
    ghost from: { A },
    ghost holds: { List (Option T) },
}

impl<T, A: Allocator> Model for Block<T, A> {
    ghost also_owns = { λ b. block_owned T.row (A.dealloc_token b.from) b.start b.holds };

    ghost also_shares = { λ b _ κ. block_seen T.row b.start b.holds κ };
}

impl<T, A: Allocator> Block<T, A> {
    ghost use Rattle.paged_list.specs.SlotLends.{lends_slot};

    /// Allocates a block of `count` empty slots.
    pub(crate) fn new(alloc: &A, count: usize) -> Result<Block<T, A>, AllocError>
        requires some { 0 < count }
        requires room { FitsInBlock T.row count }
        ensures { IfOk result (λ b. (b.from ≡ alloc.now) × (b.holds ≡ replicate count None)) }
    {
        match alloc.allocate(count * size_of::<T>(), align_of::<T>()) {
            Ok(bytes) => Ok(Block {
                start: bytes as *mut T,
                lender: PhantomData,
            }),
            Err(refusal) => Err(refusal),
        }
    }

    /// Returns the block to its allocator. Values that are still in it are forgotten.
    pub(crate) fn free(self, alloc: &A, count: usize)
        requires some { 0 < count }
        requires whole { (self.from ≡ alloc.now) × (length self.holds ≡ count) }
    {
        let Block { start, lender: _ } = self;
        unsafe {
            alloc.deallocate(start as *mut u8, count * size_of::<T>(), align_of::<T>());
        }
    }

    /// Moves a value into an empty slot.
    pub(crate) fn fill(&mut self, index: usize, item: T)
        requires { (index < length self.old.holds) × (get_or self.old.holds index None ≡ None) }
        ensures { (self.new.from ≡ self.old.from) × (self.new.holds ≡ slice_set self.old.holds index (Some item)) }
    {
        unsafe { self.start.add(index).write(item) }
    }

    /// Moves the value out of a slot, which is empty afterwards.
    pub(crate) fn empty(&mut self, index: usize) -> T
        requires { IsFilled self.old.holds index }
        ensures value { get_or self.old.holds index None ≡ Some result }
        ensures slots { (self.new.from ≡ self.old.from) × (self.new.holds ≡ slice_set self.old.holds index None) }
    {
        unsafe { self.start.add(index).read() }
    }

    /// Returns the value of a slot.
    pub(crate) fn get(&self, index: usize) -> &T
        requires { IsFilled self.now.holds index }
        ensures { get_or self.now.holds index None ≡ Some result.now }
    {
        unsafe { &*self.start.add(index) }
    }

    /// Returns the value of a slot for writing.
    pub(crate) fn get_mut(&mut self, index: usize) -> &mut T
        requires { IsFilled self.old.holds index }
        ensures* writes_back { sem 𝓛 (lends_slot T.row A.row A.Allocator self.entry index result) }
        ensures value { get_or self.old.holds index None ≡ Some result.now }
    {
        unsafe { &mut *self.start.add(index) }
    }
}
