//! The buffers together.

ghost use Rattle.std.specs.Prelude.{◌≡◌, ◌+◌, ◌-◌, ◌*◌, ◌<◌, ◌≤◌, ◌^◌, ◌∷◌, ◌++◌, [], length, take, drop, IfOk, OnOk, OnErr, IsTrue};
ghost use Rattle.std.specs.List.{All};
ghost use Rattle.chunk_buffers.specs.Buffer.{IsFirstBreak, most_units, breaks_to};
ghost use Rattle.chunk_buffers.specs.Chunks.{units_at, LiesIn, Extends, EndsLast, EndsLastIfHere, IsReady, unit_count, most_appended, at_most_64_bits, part_of};
ghost use Rattle.line_starts.specs.Starts.{break_count};
ghost use Rattle.text_rules.specs.Lines.{line_start};

use crate::buffer::{Buffer, MOST_UNITS};
use crate::ready::{ready_buffers, ready_count};
use crate::span::ChunkSpan;
use std::alloc::{AllocError, Global};
use std::marker::Model;

/// The least room of a buffer, in units.
const LEAST_ROOM: usize = 4096;

/// The most room of a new buffer, in units, unless more is asked for. It is small because the list of breaks of a buffer grows with it.
const MOST_ROOM: usize = 1 << 16;

/// The most buffers: the index of each fits in 32 bits.
const MOST_BUFFERS: usize = u32::MAX as usize;

/// The most units of one append, with the unit that may keep it apart from the text before.
pub const MOST_APPENDED: u64 = 1 << 31;

/// Texts in buffers that are only appended to, so that the units of a span never change.
///
/// A buffer is never moved: if the last one has no room for a text, a new one is begun.
#[derive(Drop)]
pub struct Chunks {
    buffers: Vec<Buffer>,
    /// Empty buffers with room for `MOST_UNITS` units, for texts that do not fit in the last one. `buffers` has room for them.
    ready: Vec<Buffer>,
    /// The number of units in all buffers, at most 2^64 - 1.
    units: u64,
    /// The number of breaks for which there is room.
    spare_breaks: u64,
    alloc: Global,
}

impl Model for Chunks {
    ghost use Rattle.std.specs.Prelude.{◌+◌, ◌-◌, ◌*◌, length, map, vec_len, vec_capacity};
    ghost use Rattle.chunk_buffers.specs.Chunks.{Shown, AreChunks, most_appended, last_buffer};

    ghost Value = { Shown };

    ghost view = { λ c. record {
      buffers = map (λ b. b.units) c.buffers.items;
      here = (last_buffer c.buffers.items).room;
      spare = (last_buffer c.buffers.items).room + most_appended * length c.ready.items;
      spare_breaks = c.spare_breaks;
    } };

    ghost invariant = { λ c. AreChunks c.buffers.items c.ready.items c.units c.spare_breaks
        (vec_capacity c.buffers - vec_len c.buffers) };
}

impl Chunks {
    pub fn new(alloc: Global) -> Chunks
        ensures buffers { result.buffers ≡ [] }
        ensures spare { result.spare ≡ 0 }
        ensures spare_breaks { result.spare_breaks ≡ 0 }
    {
        Chunks {
            buffers: Vec::new(alloc),
            ready: Vec::new(alloc),
            units: 0,
            spare_breaks: 0,
            alloc,
        }
    }

    /// Returns the number of units in all buffers, at most 2^64 - 1.
    pub fn len(&self) -> u64
        ensures { result ≡ at_most_64_bits (unit_count self.now.buffers) }
    {
        self.units
    }

    /// Makes room for `units` units and `breaks` breaks. Each appended text needs room for one unit more than its length. Fails if memory
    /// is short, or if there are too many buffers: at most 2^32 - 1. On an error nothing changes.
    pub fn reserve(&mut self, units: u64, breaks: u64) -> Result<(), AllocError>
        ensures ok { OnOk result (units ≤ self.new.spare) }
        ensures breaks { OnOk result (breaks ≤ self.new.spare_breaks) }
        ensures same { Extends self.old.buffers self.new.buffers }
        ensures units { unit_count self.new.buffers ≡ unit_count self.old.buffers }
        ensures kept { self.old.spare ≤ self.new.spare }
        ensures kept_breaks { self.old.spare_breaks ≤ self.new.spare_breaks }
        ensures err { OnErr result (self.new ≡ self.old) }
    {
        if self.has_room(units, breaks) {
            return Ok(());
        }
        let units = units.max(self.spare());
        let breaks = breaks.max(self.spare_breaks);
        if self.ready.is_empty() && units <= MOST_UNITS as u64 {
            return self.reserve_here(units as usize, breaks);
        }
        self.begin_buffers(units, breaks)
    }

    // Makes room for `units` units and `breaks` breaks in the last buffer, or in a new one.
    fn reserve_here(&mut self, units: usize, breaks: u64) -> Result<(), AllocError>
        requires alone { self.old.spare ≡ self.old.here }
        requires kept { self.old.spare_breaks ≤ breaks }
        requires more { self.old.spare ≤ units }
        ensures ok { OnOk result (units ≤ self.new.spare) }
        ensures breaks { OnOk result (breaks ≤ self.new.spare_breaks) }
        ensures same { Extends self.old.buffers self.new.buffers }
        ensures units { unit_count self.new.buffers ≡ unit_count self.old.buffers }
        ensures err { OnErr result (self.new ≡ self.old) }
    {
        if units > self.room() || self.buffers.is_empty() {
            // A change may append less than it asks room for. A quarter more keeps the next one from beginning a buffer of its own.
            let more = units.saturating_add(units / 4).min(MOST_UNITS);
            let room = units.max(more).max(self.usual_room());
            return self.begin_buffer(room, breaks, Vec::new(self.alloc));
        }
        self.reserve_breaks(breaks)
    }

    // Makes room for `breaks` breaks in the last buffer.
    fn reserve_breaks(&mut self, breaks: u64) -> Result<(), AllocError>
        requires alone { self.old.spare ≡ self.old.here }
        requires some { 0 < length self.old.buffers }
        requires kept { self.old.spare_breaks ≤ breaks }
        ensures breaks { OnOk result (breaks ≤ self.new.spare_breaks) }
        ensures same { self.new.buffers ≡ self.old.buffers }
        ensures spare { self.new.spare ≡ self.old.spare }
        ensures err { OnErr result (self.new ≡ self.old) }
    {
        let number = self.buffers.len() - 1;
        self.buffers[number].reserve_breaks(breaks as usize)?;
        self.spare_breaks = breaks;
        Ok(())
    }

    // Begins a buffer with room for `MOST_UNITS` units, and makes as many more ready as `units` units need.
    fn begin_buffers(&mut self, units: u64, breaks: u64) -> Result<(), AllocError>
        ensures ok { OnOk result (units ≤ self.new.spare) }
        ensures breaks { OnOk result (self.new.spare_breaks ≡ breaks) }
        ensures same { Extends self.old.buffers self.new.buffers }
        ensures units { unit_count self.new.buffers ≡ unit_count self.old.buffers }
        ensures err { OnErr result (self.new ≡ self.old) }
    {
        let ready = ready_buffers(self.alloc, ready_count(units), breaks)?;
        self.begin_buffer(MOST_UNITS, breaks, ready)
    }

    // Begins a buffer with room for `units` units and `breaks` breaks, which the buffers in `ready` follow.
    fn begin_buffer(
        &mut self,
        units: usize,
        breaks: u64,
        ready: Vec<Buffer>,
    ) -> Result<(), AllocError>
        requires ready { All (IsReady breaks) ready.items }
        ensures spare { OnOk result
            (units + most_appended * length ready.items ≤ self.new.spare) }
        ensures breaks { OnOk result (self.new.spare_breaks ≡ breaks) }
        ensures same { Extends self.old.buffers self.new.buffers }
        ensures units { unit_count self.new.buffers ≡ unit_count self.old.buffers }
        ensures err { OnErr result (self.new ≡ self.old) }
    {
        let buffer = Buffer::with_room(self.alloc, units, breaks as usize)?;
        if self.buffers.len() + ready.len() >= MOST_BUFFERS {
            return Err(AllocError);
        }
        self.buffers.reserve(ready.len() + 1)?;
        self.buffers.push_reserved(buffer);
        self.ready = ready;
        self.spare_breaks = breaks;
        Ok(())
    }

    // Returns the usual room of a new buffer: twice the length of the last one, from `LEAST_ROOM` to `MOST_ROOM`, so that there are few
    // buffers.
    fn usual_room(&self) -> usize
        ensures { result ≤ 2 ^ 16 }
    {
        let last = match self.buffers.last() {
            Some(buffer) => buffer.units().len(),
            None => 0,
        };
        (2 * last.min(MOST_ROOM / 2)).max(LEAST_ROOM)
    }

    /// Returns whether there is room for `units` units and `breaks` breaks.
    pub fn has_room(&self, units: u64, breaks: u64) -> bool
        ensures { IsTrue result
            → (units ≤ self.now.spare) × (breaks ≤ self.now.spare_breaks) }
    {
        units <= self.spare() && breaks <= self.spare_breaks
    }

    // Returns the number of units that fit without an allocation.
    fn spare(&self) -> u64
        ensures { result ≡ self.now.spare }
    {
        self.room() as u64 + MOST_APPENDED * self.ready.len() as u64
    }

    // Returns the room of the last buffer; 0 if there is none.
    fn room(&self) -> usize
        ensures here { result ≡ self.now.here }
        ensures few { result ≤ most_units }
    {
        match self.buffers.last() {
            Some(buffer) => buffer.room(),
            None => 0,
        }
    }

    /// Appends the three texts as one, and returns its span and its number of breaks. Allocates nothing.
    pub fn append_joined(&mut self, before: &[u16], text: &[u16], after: &[u16]) -> (ChunkSpan, u32)
        requires room { length (before.now ++ text.now ++ after.now) < self.old.spare }
        requires short { length (before.now ++ text.now ++ after.now) < most_appended }
        requires breaks { break_count (before.now ++ text.now ++ after.now)
            ≤ self.old.spare_breaks }
        ensures shown { units_at self.new.buffers result.0 ≡ before.now ++ text.now ++ after.now }
        ensures inside { LiesIn self.new.buffers result.0 }
        ensures breaks { result.1 ≡ break_count (before.now ++ text.now ++ after.now) }
        ensures grown { Extends self.old.buffers self.new.buffers }
        ensures units { unit_count self.new.buffers
            ≤ unit_count self.old.buffers + length (before.now ++ text.now ++ after.now) + 1 }
        ensures spare { self.old.spare
            ≤ self.new.spare + length (before.now ++ text.now ++ after.now) + 1 }
        ensures spare_breaks { self.old.spare_breaks
            ≤ self.new.spare_breaks + break_count (before.now ++ text.now ++ after.now) }
        ensures last { EndsLastIfHere self.old.here self.old.buffers self.new.buffers result.0
            (before.now ++ text.now ++ after.now) }
    {
        if before.len() + text.len() + after.len() >= self.room() {
            self.begin_ready();
        }
        self.append_last(before, text, after)
    }

    // Makes one of the buffers that are ready the last one.
    fn begin_ready(&mut self)
        requires some { self.old.here < self.old.spare }
        ensures here { most_units ≤ self.new.here }
        ensures spare { self.old.spare + self.new.here
            ≡ self.new.spare + self.old.here + most_appended }
        ensures breaks { self.new.spare_breaks ≡ self.old.spare_breaks }
        ensures buffers { self.new.buffers ≡ self.old.buffers ++ [] ∷ [] }
    {
        if let Some(buffer) = self.ready.pop() {
            self.buffers.push_reserved(buffer);
        }
    }

    // Appends the three texts as one to the last buffer.
    fn append_last(&mut self, before: &[u16], text: &[u16], after: &[u16]) -> (ChunkSpan, u32)
        requires room { length (before.now ++ text.now ++ after.now) < self.old.here }
        requires breaks { break_count (before.now ++ text.now ++ after.now)
            ≤ self.old.spare_breaks }
        ensures shown { units_at self.new.buffers result.0 ≡ before.now ++ text.now ++ after.now }
        ensures inside { LiesIn self.new.buffers result.0 }
        ensures breaks { result.1 ≡ break_count (before.now ++ text.now ++ after.now) }
        ensures grown { Extends self.old.buffers self.new.buffers }
        ensures units { unit_count self.new.buffers
            ≤ unit_count self.old.buffers + length (before.now ++ text.now ++ after.now) + 1 }
        ensures spare { self.old.spare
            ≤ self.new.spare + length (before.now ++ text.now ++ after.now) + 1 }
        ensures spare_breaks { self.old.spare_breaks
            ≤ self.new.spare_breaks + break_count (before.now ++ text.now ++ after.now) }
        ensures last { EndsLast self.old.buffers self.new.buffers result.0
            (before.now ++ text.now ++ after.now) }
    {
        let number = self.buffers.len() - 1;
        let buffer = &mut self.buffers[number];
        let (len, earlier) = (buffer.units().len(), buffer.break_count());
        let start = buffer.append(before, text, after);
        let breaks = buffer.break_count() - earlier;
        let more = buffer.units().len() - len;
        self.units = self.units.saturating_add(more as u64);
        self.spare_breaks -= breaks;
        let span = ChunkSpan {
            buffer: number as u32,
            start: start as u32,
            units: (before.len() + text.len() + after.len()) as u32,
        };
        (span, breaks as u32)
    }

    /// Makes the text a buffer of its own without copying it, and returns its span and its number of breaks. Fails if memory is short, if
    /// the text is longer than a buffer may be, or if there are already 2^32 - 1 buffers.
    pub fn append_whole(&mut self, text: Vec<u16>) -> Result<(ChunkSpan, u32), AllocError>
        ensures shown { IfOk result (λ at. units_at self.new.buffers at.0 ≡ text.items) }
        ensures inside { IfOk result (λ at. LiesIn self.new.buffers at.0) }
        ensures breaks { IfOk result (λ at. at.1 ≡ break_count text.items) }
        ensures grown { Extends self.old.buffers self.new.buffers }
        ensures units { OnOk result
            (unit_count self.new.buffers ≡ unit_count self.old.buffers + length text.items) }
        ensures err { OnErr result (self.new ≡ self.old) }
    {
        let len = text.len();
        let buffer = Buffer::of_vec(self.alloc, text)?;
        let breaks = buffer.break_count();
        let number = self.buffers.len();
        if number + self.ready.len() >= MOST_BUFFERS {
            return Err(AllocError);
        }
        self.buffers.reserve(self.ready.len() + 1)?;
        self.buffers.push_reserved(buffer);
        self.units = self.units.saturating_add(len as u64);
        self.spare_breaks = 0;
        let span = ChunkSpan {
            buffer: number as u32,
            start: 0,
            units: len as u32,
        };
        Ok((span, breaks as u32))
    }

    /// Returns whether the span lies in the buffers.
    pub fn has(&self, span: ChunkSpan) -> bool
        ensures { IsTrue result → LiesIn self.now.buffers span }
    {
        let Some(buffer) = self.buffers.get(span.buffer as usize) else {
            return false;
        };
        let end = span.start as usize + span.units as usize;
        end <= buffer.units().len() && end <= MOST_UNITS
    }

    /// Returns the units of the span.
    pub fn units(&self, span: ChunkSpan) -> &[u16]
        requires { LiesIn self.now.buffers span }
        ensures { result.now ≡ units_at self.now.buffers span }
    {
        let start = span.start as usize;
        &self.buffers[span.buffer as usize].units()[start..start + span.units as usize]
    }

    /// Returns the number of breaks of the span's units.
    pub fn breaks(&self, span: ChunkSpan) -> u64
        requires { LiesIn self.now.buffers span }
        ensures { result ≡ break_count (units_at self.now.buffers span) }
    {
        let (start, end) = (span.start as usize, (span.start + span.units) as usize);
        self.buffers[span.buffer as usize].breaks(start, end)
    }

    /// Returns the offset, counted from the span's start, after the first break of its units; None if they have no break.
    pub fn first_break(&self, span: ChunkSpan) -> Option<u64>
        requires { LiesIn self.now.buffers span }
        ensures { IsFirstBreak (units_at self.now.buffers span) result }
    {
        let (start, end) = (span.start as usize, (span.start + span.units) as usize);
        self.buffers[span.buffer as usize].first_break(start, end)
    }

    /// Returns the offset, counted from the span's start, after the `k`-th break of its units. Breaks count from 1.
    pub fn nth_break(&self, span: ChunkSpan, k: u64) -> u64
        requires inside { LiesIn self.now.buffers span }
        requires first { 0 < k }
        requires there { k ≤ break_count (units_at self.now.buffers span) }
        ensures { result ≡ line_start (units_at self.now.buffers span) (k + 1) }
    {
        let (start, end) = (span.start as usize, (span.start + span.units) as usize);
        self.buffers[span.buffer as usize].nth_break(start, end, k)
    }

    /// Counts the breaks of the span's units that end at most at `place`, an offset from the span's start.
    pub fn breaks_to(&self, span: ChunkSpan, place: u64) -> u64
        requires inside { LiesIn self.now.buffers span }
        requires place { place < span.units }
        ensures { result ≡ breaks_to (units_at self.now.buffers span) place }
    {
        let (start, end) = (span.start as usize, (span.start + span.units) as usize);
        self.buffers[span.buffer as usize].breaks_to(start, end, place as usize)
    }

    /// Returns the part of the span from offset `from` to offset `to` in it.
    pub fn part(&self, span: ChunkSpan, from: u64, to: u64) -> ChunkSpan
        requires inside { LiesIn self.now.buffers span }
        requires ordered { from ≤ to }
        requires within { to ≤ span.units }
        ensures part { result ≡ part_of span from to }
        ensures inside { LiesIn self.now.buffers result }
        ensures shown { units_at self.now.buffers result
            ≡ take (to - from) (drop from (units_at self.now.buffers span)) }
    {
        ChunkSpan {
            buffer: span.buffer,
            start: span.start + from as u32,
            units: (to - from) as u32,
        }
    }
}
