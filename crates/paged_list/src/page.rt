//! A page: a block of slots as a list.
ghost use Rattle.std.specs.Prelude.{◌≡◌, ◌<◌, List, Option, Some, None, length, replicate, get_or, slice_set, IfOk};
ghost use Rattle.std.specs.Borrow.{sem};
ghost use Rattle.paged_list.specs.Slots.{IsFilled};

use crate::block::Block;
use std::alloc::{AllocError, Global};
use std::marker::Model;
use std_alloc::room::may_hold;

/// A block of slots that is returned to its allocator when the page is dropped.
pub struct Page<T> {
    block: Block<T, Global>,
    count: usize,
    alloc: Global,
}

impl<T> Model for Page<T> {
    ghost use Rattle.std.specs.Prelude.{◌≡◌, ◌<◌, List, Option, length};
    ghost use Rattle.std.specs.Coded.{coded_list, coded_option};

    ghost Value = { List (Option T) };

    ghost coded = { coded_list (coded_option T.code) };

    ghost view = { λ p. p.block.holds };

    ghost invariant = { λ p. (0 < p.count) × (length p.block.holds ≡ p.count) × (p.block.from ≡ p.alloc) };
}

impl<T> Drop for Page<T> {
    fn drop(self) {
        let Page {
            block,
            count,
            alloc,
        } = self;
        block.free(&alloc, count);
    }
}

impl<T> Page<T> {
    ghost use Rattle.paged_list.specs.PageLends.{page_lends};

    /// Allocates a page of `count` empty slots.
    pub(crate) fn new(alloc: Global, count: usize) -> Result<Page<T>, AllocError>
        requires { 0 < count }
        ensures { IfOk result (λ p. p ≡ replicate count None) }
    {
        if !may_hold::<T>(count) {
            return Err(AllocError);
        }
        let block = Block::new(&alloc, count)?;
        Ok(Page {
            block,
            count,
            alloc,
        })
    }

    pub(crate) fn fill(&mut self, index: usize, item: T)
        requires within { index < length self.old }
        requires empty { get_or self.old index None ≡ None }
        ensures { self.new ≡ slice_set self.old index (Some item) }
    {
        self.block.fill(index, item);
    }

    pub(crate) fn empty(&mut self, index: usize) -> T
        requires { IsFilled self.old index }
        ensures value { get_or self.old index None ≡ Some result }
        ensures slots { self.new ≡ slice_set self.old index None }
    {
        self.block.empty(index)
    }

    pub(crate) fn get(&self, index: usize) -> &T
        requires { IsFilled self.now index }
        ensures { get_or self.now index None ≡ Some result.now }
    {
        self.block.get(index)
    }

    pub(crate) fn get_mut(&mut self, index: usize) -> &mut T
        requires { IsFilled self.old index }
        ensures* writes_back { sem 𝓛 (page_lends T.row self.entry index result) }
        ensures value { get_or self.old index None ≡ Some result.now }
    {
        self.block.get_mut(index)
    }
}
