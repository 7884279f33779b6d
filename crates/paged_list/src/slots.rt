//! A row of slots in pages. The first page has one slot, each further page twice as many as the one before. So the highest bit of a
//! slot's number plus one gives the page, and the lower bits the place in it.
ghost use Rattle.std.specs.Prelude.{◌≡◌, ◌+◌, ◌^◌, ◌<◌, [], ◌++◌, Option, Some, None, length, replicate, get_or, slice_set, OnOk, OnErr};
ghost use Rattle.std.specs.Borrow.{sem};
ghost use Rattle.paged_list.specs.Slots.{IsFilled};
ghost use Rattle.paged_list.specs.Pages.{IsSpot};

use crate::page::Page;
use std::alloc::{AllocError, Global};
use std::marker::Model;

/// Upper bound for the number of pages, so that the number of a slot plus one fits into 32 bits.
const MOST_PAGES: usize = 32;

/// A row of slots, each empty or with a value. Pages are never moved and are freed only with the row.
#[derive(Drop)]
pub struct Slots<T> {
    pages: Vec<Page<T>>,
    alloc: Global,
}

impl<T> Model for Slots<T> {
    ghost use Rattle.std.specs.Prelude.{List, Option};
    ghost use Rattle.std.specs.Coded.{coded_list, coded_option};
    ghost use Rattle.paged_list.specs.Pages.{row, ArePages};

    ghost Value = { List (Option T) };

    ghost coded = { coded_list (coded_option T.code) };

    ghost view = { λ s. row s.pages.items };

    ghost invariant = { λ s. ArePages s.pages.items };
}

/// A page, and a place in that page.
#[derive(Clone, Copy)]
struct Spot {
    page: usize,
    place: usize,
}

/// Returns the page and the place of the slot `index`.
fn spot_of(index: usize) -> Spot
    requires { index + 1 < 2 ^ 32 }
    ensures { IsSpot index result.page result.place }
{
    let number = index as u32 + 1;
    // Setting the lowest bit shows the compiler that the number is not 0, for which it would otherwise add code.
    let page = (number | 1).ilog2();
    Spot {
        page: page as usize,
        place: (number ^ (1 << page)) as usize,
    }
}

impl<T> Slots<T> {
    ghost use Rattle.paged_list.specs.RowLends.{row_lends};

    pub(crate) fn new(alloc: Global) -> Slots<T>
        ensures { result ≡ [] }
    {
        Slots {
            pages: Vec::new(alloc),
            alloc,
        }
    }

    pub(crate) fn len(&self) -> usize
        ensures value { result ≡ length self.now }
        ensures few { result < 2 ^ 32 }
    {
        (1 << self.pages.len()) - 1
    }

    /// Adds a page of empty slots. Fails if memory is short, or if there would be 2^32 slots or more.
    pub(crate) fn grow(&mut self) -> Result<(), AllocError>
        ensures slots { OnOk result (self.new ≡ self.old ++ replicate (length self.old + 1) None) }
        ensures kept { OnErr result (self.new ≡ self.old) }
        ensures few { OnOk result (length self.new < 2 ^ 32) }
    {
        let pages = self.pages.len();
        if pages >= MOST_PAGES {
            return Err(AllocError);
        }
        let page = Page::new(self.alloc, 1 << pages)?;
        self.pages.push(page)?;
        Ok(())
    }

    #[tactic(auto, using(crate::proofs::Pages::filling))]
    pub(crate) fn fill(&mut self, index: usize, item: T)
        requires within { index < length self.old }
        requires empty { get_or self.old index None ≡ None }
        ensures { self.new ≡ slice_set self.old index (Some item) }
    {
        let pages = &mut self.pages;
        let spot = spot_of(index);
        pages[spot.page].fill(spot.place, item);
    }

    #[tactic(auto, using(crate::proofs::Pages::reading))]
    pub(crate) fn empty(&mut self, index: usize) -> T
        requires { IsFilled self.old index }
        ensures value { get_or self.old index None ≡ Some result }
        ensures slots { self.new ≡ slice_set self.old index None }
    {
        let pages = &mut self.pages;
        let spot = spot_of(index);
        pages[spot.page].empty(spot.place)
    }

    #[tactic(auto, using(crate::proofs::Pages::reading))]
    pub(crate) fn get(&self, index: usize) -> &T
        requires { IsFilled self.now index }
        ensures { get_or self.now index None ≡ Some result.now }
    {
        let pages = &self.pages;
        let spot = spot_of(index);
        pages[spot.page].get(spot.place)
    }

    #[tactic(auto, using(crate::proofs::Pages::reading))]
    pub(crate) fn get_mut(&mut self, index: usize) -> &mut T
        requires { IsFilled self.old index }
        ensures* writes_back { sem 𝓛 (row_lends T.row self.entry index result) }
        ensures value { get_or self.old index None ≡ Some result.now }
    {
        let pages = &mut self.pages;
        let spot = spot_of(index);
        pages[spot.page].get_mut(spot.place)
    }
}
