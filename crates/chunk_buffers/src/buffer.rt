//! One buffer, with the offset after each of its breaks.

ghost use Rattle.std.specs.Prelude.{◌≡◌, ℕ, ◌+◌, ◌-◌, ◌<◌, ◌≤◌, ◌&&◌, ◌==◌, ◌^◌, ◌++◌, ◌∷◌, if◌then◌else◌, List, [], length, take, drop, get_or, OnOk, OnErr, IfOk, IsOk, vec_len, vec_capacity};
ghost use Rattle.std.specs.List.Sorted.{IsNonDecreasingBy};
ghost use Rattle.chunk_buffers.specs.Buffer.{Filled, IsFirstBreak, NextEnds, most_units, padding, padded, cut, breaks_to};
ghost use Rattle.line_starts.specs.Starts.{break_count, break_ends_at};
ghost use Rattle.text_rules.specs.Lines.{line_start, line_feed, carriage_return, begins_with};
ghost use Rattle.text_rules.specs.Breaks.{joins_pair, count_to, break_ends, ends_with};

use line_starts::{breaks_between, count_breaks, find_break_ends, nth_break_end};
use std::alloc::{AllocError, Global};
use std::marker::Model;
use unit_text::{CARRIAGE_RETURN, LINE_FEED};

const PADDING: u16 = 0x5F;

/// In a range of at most this many units breaks are found by reading the units; in a longer one by a search in `ends`.
const NEAR: usize = 64;

/// The most units of a buffer: each offset in it fits in 32 bits.
pub(crate) const MOST_UNITS: usize = u32::MAX as usize;

/// A buffer that texts are appended to. Contracts see its units, and how many more units and breaks fit without an allocation.
#[derive(Drop)]
pub(crate) struct Buffer {
    units: Vec<u16>,
    /// The offset after each break of the units, in order.
    ends: Vec<u64>,
}

impl Model for Buffer {
    ghost use Rattle.std.specs.Prelude.{◌≡◌, ◌-◌, ◌≤◌, min, vec_len, vec_capacity};
    ghost use Rattle.chunk_buffers.specs.Buffer.{Filled, most_units};
    ghost use Rattle.text_rules.specs.Breaks.{break_ends};

    ghost Value = { Filled };

    ghost view = { λ b. record {
      units = b.units.items;
      room = min most_units (vec_capacity b.units) - vec_len b.units;
      break_room = vec_capacity b.ends - vec_len b.ends;
    } };

    ghost invariant = { λ b. (b.ends.items ≡ break_ends 0 b.units.items) × (vec_len b.units ≤ most_units) };
}

impl Buffer {
    /// Returns an empty buffer with room for `units` units and `breaks` breaks. Fails if memory is short or `units` exceeds `MOST_UNITS`.
    pub(crate) fn with_room(
        alloc: Global,
        units: usize,
        breaks: usize,
    ) -> Result<Buffer, AllocError>
        ensures units { IfOk result (λ buffer. buffer.units ≡ []) }
        ensures room { IfOk result (λ buffer. units ≤ buffer.room) }
        ensures break_room { IfOk result (λ buffer. breaks ≤ buffer.break_room) }
    {
        if units > MOST_UNITS {
            return Err(AllocError);
        }
        let ends = Vec::with_capacity(alloc, breaks)?;
        let units = Vec::with_capacity(alloc, units)?;
        Ok(Buffer { units, ends })
    }

    /// Returns a buffer that owns these units. Fails if memory is short or there are more than `MOST_UNITS` units.
    pub(crate) fn of_vec(alloc: Global, units: Vec<u16>) -> Result<Buffer, AllocError>
        ensures units { IfOk result (λ buffer. buffer.units ≡ units.items) }
        ensures fits { OnOk result (length units.items ≤ most_units) }
    {
        if units.len() > MOST_UNITS {
            return Err(AllocError);
        }
        let mut ends = Vec::with_capacity(alloc, count_breaks(units.as_slice()) as usize)?;
        find_break_ends(units.as_slice(), 0, &mut ends)?;
        Ok(Buffer { units, ends })
    }

    pub(crate) fn units(&self) -> &[u16]
        ensures { result.now ≡ self.now.units }
    {
        self.units.as_slice()
    }

    pub(crate) fn room(&self) -> usize
        ensures room { result ≡ self.now.room }
        ensures few { result ≤ most_units }
    {
        MOST_UNITS.min(self.units.capacity()) - self.units.len()
    }

    /// Makes room for `breaks` more breaks. On an error the buffer is unchanged.
    pub(crate) fn reserve_breaks(&mut self, breaks: usize) -> Result<(), AllocError>
        ensures ok { OnOk result (breaks ≤ self.new.break_room) }
        ensures kept { self.old.break_room ≤ self.new.break_room }
        ensures units { self.new.units ≡ self.old.units }
        ensures room { self.new.room ≡ self.old.room }
    {
        self.ends.reserve(breaks)
    }

    pub(crate) fn break_count(&self) -> u64
        ensures count { result ≡ break_count self.now.units }
        ensures few { result < 2 ^ 32 }
    {
        self.ends.len() as u64
    }

    /// Appends the three texts as one, and returns the offset at which it starts.
    pub(crate) fn append(&mut self, before: &[u16], text: &[u16], after: &[u16]) -> usize
        requires room { length (before.now ++ text.now ++ after.now) < self.old.room }
        requires breaks { break_count (before.now ++ text.now ++ after.now)
            ≤ self.old.break_room }
        ensures units { let whole = before.now ++ text.now ++ after.now in
            self.new.units ≡ padded self.old.units whole ++ whole }
        ensures start { result ≡ length
            (padded self.old.units (before.now ++ text.now ++ after.now)) }
        ensures fits { result + length (before.now ++ text.now ++ after.now) ≤ most_units }
        ensures room { self.old.room
            ≤ self.new.room + length (before.now ++ text.now ++ after.now) + 1 }
        ensures break_room { self.old.break_room
            ≤ self.new.break_room + break_count (before.now ++ text.now ++ after.now) }
        ensures breaks { break_count self.new.units ≡ break_count self.old.units
            + break_count (before.now ++ text.now ++ after.now) }
    {
        let pair = self.would_make_pair(before, text, after);
        pad(&mut self.units, pair);
        let start = self.units.len();
        push_all(&mut self.units, before, text, after);
        push_ends(&self.units[start..], start, &mut self.ends);
        start
    }

    // Returns whether the buffer ends with a CR and the three texts as one begin with an LF.
    fn would_make_pair(&self, before: &[u16], text: &[u16], after: &[u16]) -> bool
        ensures { result ≡ joins_pair self.now.units (before.now ++ text.now ++ after.now) }
    {
        ends_with_carriage_return(self.units()) && begin_with_line_feed(before, text, after)
    }

    /// Returns the number of breaks of the units in `from..to`, taken as a text of their own.
    pub(crate) fn breaks(&self, from: usize, to: usize) -> u64
        requires ordered { from ≤ to }
        requires inside { to ≤ length self.now.units }
        ensures { result ≡ break_count (cut self.now.units from to) }
    {
        let whole = self.ends_between(from, to);
        if cuts_pair(self.units(), from, to) {
            whole + 1
        } else {
            whole
        }
    }

    /// Returns the offset, counted from `from`, after the first break of the units in `from..to`; None if they have no break.
    pub(crate) fn first_break(&self, from: usize, to: usize) -> Option<u64>
        requires ordered { from ≤ to }
        requires inside { to ≤ length self.now.units }
        ensures { IsFirstBreak (cut self.now.units from to) result }
    {
        match self.next_end(from, to) {
            Some(end) => Some((end - from) as u64),
            None if cuts_pair(self.units(), from, to) => Some((to - from) as u64),
            None => None,
        }
    }

    // Returns the offset after the first break that ends after `from`; None if that is greater than `to`.
    fn next_end(&self, from: usize, to: usize) -> Option<usize>
        requires inside { to ≤ length self.now.units }
        ensures { NextEnds from to (break_ends 0 self.now.units) result }
    {
        let index = self.ends_to(from);
        if index >= self.ends.len() {
            return None;
        }
        let end = self.end(index) as usize;
        if end > to {
            return None;
        }
        Some(end)
    }

    /// Returns the offset, counted from `from`, after the `k`-th break of the units in `from..to`. Breaks count from 1.
    pub(crate) fn nth_break(&self, from: usize, to: usize, k: u64) -> u64
        requires ordered { from ≤ to }
        requires inside { to ≤ length self.now.units }
        requires first { 0 < k }
        requires there { k ≤ break_count (cut self.now.units from to) }
        ensures { result ≡ line_start (cut self.now.units from to) (k + 1) }
    {
        (self.nth_end(from, to, k) - from) as u64
    }

    // Returns the offset after the `k`-th break that ends after `from`, or `to` if that is less or there is none.
    fn nth_end(&self, from: usize, to: usize, k: u64) -> usize
        requires ordered { from ≤ to }
        requires inside { to ≤ length self.now.units }
        requires first { 0 < k }
        requires there { k ≤ break_count (cut self.now.units from to) }
        ensures there { let ends = break_ends 0 self.now.units in
            count_to from ends + k ≤ count_to to ends
            → result ≡ get_or ends (count_to from ends + k - 1) 0 }
        ensures past { let ends = break_ends 0 self.now.units in
            count_to to ends < count_to from ends + k → result ≡ to }
        ensures within { (from ≤ result) × (result ≤ to) }
    {
        if to - from <= NEAR {
            return nth_break_end(self.units(), from, to, k);
        }
        let index = self.ends_to(from) + (k - 1) as usize;
        if index >= self.ends.len() {
            return to;
        }
        to.min(self.end(index) as usize)
    }

    /// Counts the breaks of the units in `from..to` that end at most `place` units after `from`.
    pub(crate) fn breaks_to(&self, from: usize, to: usize, place: usize) -> u64
        requires place { from + place < to }
        requires inside { to ≤ length self.now.units }
        ensures { result ≡ breaks_to (cut self.now.units from to) place }
    {
        self.ends_between(from, from + place)
    }

    // Counts the breaks that end after `from` and at most at `to`.
    fn ends_between(&self, from: usize, to: usize) -> u64
        requires ordered { from ≤ to }
        requires inside { to ≤ length self.now.units }
        ensures count { result + count_to from (break_ends 0 self.now.units)
            ≡ count_to to (break_ends 0 self.now.units) }
        ensures few { result < 2 ^ 63 }
    {
        if to - from <= NEAR {
            return breaks_between(self.units(), from, to);
        }
        (self.ends_to(to) - self.ends_to(from)) as u64
    }

    fn end(&self, index: usize) -> u64
        requires { index < length (break_ends 0 self.now.units) }
        ensures { result ≡ get_or (break_ends 0 self.now.units) index 0 }
    {
        self.ends[index]
    }

    // Counts the breaks that end at most at `place`.
    fn ends_to(&self, place: usize) -> usize
        ensures count { result ≡ count_to place (break_ends 0 self.now.units) }
        ensures within { result ≤ length (break_ends 0 self.now.units) }
        ensures few { length (break_ends 0 self.now.units) < 2 ^ 63 }
    {
        ends_to(self.ends.as_slice(), place as u64)
    }
}

fn ends_with_carriage_return(units: &[u16]) -> bool
    ensures { result ≡ ends_with carriage_return units.now }
{
    if units.is_empty() {
        return false;
    }
    units[units.len() - 1] == CARRIAGE_RETURN
}

// Returns whether the three texts as one begin with an LF.
fn begin_with_line_feed(before: &[u16], text: &[u16], after: &[u16]) -> bool
    ensures { result ≡ begins_with line_feed (before.now ++ text.now ++ after.now) }
{
    if !before.is_empty() {
        return before[0] == LINE_FEED;
    }
    if !text.is_empty() {
        return text[0] == LINE_FEED;
    }
    after.first() == Some(&LINE_FEED)
}

// Appends one unit that belongs to no text if a CR and an LF must be kept apart.
fn pad(units: &mut Vec<u16>, pair: bool)
    requires { vec_len units.old < vec_capacity units.old }
    ensures items { units.new.items
        ≡ (if pair then units.old.items ++ padding ∷ [] else units.old.items) }
    ensures len { vec_len units.new ≤ vec_len units.old + 1 }
    ensures capacity { vec_capacity units.old ≤ vec_capacity units.new }
{
    if pair {
        units.push_reserved(PADDING);
    }
}

fn push_all(units: &mut Vec<u16>, before: &[u16], text: &[u16], after: &[u16])
    requires { vec_len units.old + length (before.now ++ text.now ++ after.now)
        ≤ vec_capacity units.old }
    ensures items { units.new.items ≡ units.old.items ++ (before.now ++ text.now ++ after.now) }
    ensures len { vec_len units.new
        ≡ vec_len units.old + length (before.now ++ text.now ++ after.now) }
    ensures capacity { vec_capacity units.old ≤ vec_capacity units.new }
{
    let _ = units.extend_from_slice(before);
    let _ = units.extend_from_slice(text);
    let _ = units.extend_from_slice(after);
}

// Appends the offset after each break of the units, which start at `start` in the buffer. There must be room for them.
fn push_ends(units: &[u16], start: usize, ends: &mut Vec<u64>)
    requires fits { start + length units.now < 2 ^ 64 }
    requires room { vec_len ends.old + break_count units.now ≤ vec_capacity ends.old }
    ensures items { ends.new.items ≡ ends.old.items ++ break_ends_at start units.now }
    ensures len { vec_len ends.new ≡ vec_len ends.old + break_count units.now }
    ensures capacity { vec_capacity ends.old ≤ vec_capacity ends.new }
{
    let _ = find_break_ends(units, start as u64, ends);
}

// Returns whether `to` is inside a CR LF that begins at or after `from`.
fn cuts_pair(units: &[u16], from: usize, to: usize) -> bool
    requires ordered { from ≤ to }
    requires inside { to ≤ length units.now }
    ensures { result ≡ joins_pair (cut units.now from to) (drop to units.now) }
{
    if from == to || to == units.len() {
        return false;
    }
    units[to - 1] == CARRIAGE_RETURN && units[to] == LINE_FEED
}

// Counts the entries of a sorted list that are at most `place`.
fn ends_to(ends: &[u64], place: u64) -> usize
    requires { IsNonDecreasingBy (λ e. e) ends.now }
    ensures count { result ≡ count_to place ends.now }
    ensures within { result ≤ length ends.now }
{
    ends.partition_point(|end| *end <= place)
}
