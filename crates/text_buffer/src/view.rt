//! A text to be read, and look-ups of its pieces. Each node that a counted look-up visits is a step.

ghost use Rattle.std.specs.Prelude.{◌≡◌, ◌+◌, ◌-◌, ◌<◌, ◌≤◌, ◌^◌, length, take, drop, slice_index, IfSome};
ghost use Rattle.std.specs.Char.Utf16.{is_low_surrogate};
ghost use Rattle.chunk_buffers.specs.Chunks.{units_at, part_of, LiesIn};
ghost use Rattle.piece_tree.specs.Pieces.{pieces_of, unit_count, break_count_of, IsFound, HasUnit, StandsAt};
ghost use Rattle.piece_tree.specs.Costs.{WithinLookUps};
ghost use Rattle.unit_text.specs.Kinds.{IsOfKind, cuts_in};
ghost use Rattle.unit_text.specs.Units.{cuts_pair};
ghost use Rattle.text_rules.specs.Lines.{lines_of, line_start};
ghost use Rattle.text_rules.specs.Breaks.{count_to, break_ends};
ghost use Rattle.text_buffer.specs.Views.{IsView, units_in, entries_in, buffers_in};
ghost use Rattle.text_buffer.specs.LookUps.{Has, IsThere};

use crate::look_up::{Sought, nearer, piece_near};
use crate::remembered::Remembered;
use chunk_buffers::{ChunkSpan, Chunks};
use piece_tree::{Found, PieceTree};
use steps::Steps;
use unit_text::{Kind, LINE_FEED, cuts_pair};

/// A text to be read: its pieces, their buffers and the remembered pieces.
#[derive(Clone, Copy)]
pub(crate) struct View<'t> {
    pub pieces: &'t PieceTree,
    pub chunks: &'t Chunks,
    pub remembered: &'t Remembered,
}

impl<'t> View<'t> {
    /// Returns the length of the text in units.
    #[tactic(auto, using(crate::proofs::Found::sizes))]
    pub(crate) fn len(&self) -> u64
        requires view { IsView self.now }
        ensures units { result ≡ length (units_in self.now) }
        ensures pieces { result ≡ unit_count (pieces_of (entries_in self.now)) }
        ensures small { result < 2 ^ 62 }
    {
        self.pieces.len()
    }

    /// Returns the number of lines.
    #[tactic(auto, using(crate::proofs::Found::sizes))]
    pub(crate) fn line_count(&self) -> u64
        requires view { IsView self.now }
        ensures lines { result ≡ length (lines_of (units_in self.now)) }
        ensures pieces { result ≡ break_count_of (pieces_of (entries_in self.now)) + 1 }
    {
        self.pieces.breaks() + 1
    }

    /// Returns the number of breaks.
    #[tactic(auto, using(crate::proofs::Found::sizes))]
    pub(crate) fn breaks(&self) -> u64
        requires view { IsView self.now }
        ensures count { let units = units_in self.now in
            result ≡ count_to (length units) (break_ends 0 units) }
        ensures few { result < 2 ^ 62 }
    {
        self.pieces.breaks()
    }

    /// Returns how many breaks end at or before the offset. The piece has its unit.
    pub(crate) fn breaks_to(&self, found: &Found, offset: u64) -> u64
        requires view { IsView self.now }
        requires unit { HasUnit (entries_in self.now) found.now offset }
        ensures count { result
            ≡ count_to offset (break_ends 0 (units_in self.now)) }
        ensures few { result < 2 ^ 62 }
    {
        let own = offset - found.before.units;
        found.before.breaks + self.chunks.breaks_to(found.span, own)
    }

    /// Returns the piece of the unit at this offset. Tries the piece `near`, the remembered ones and the one beside `near` before a search.
    /// Steps are not counted.
    pub(crate) fn piece_at(&self, near: &Option<Found>, offset: u64) -> Found
        requires view { IsView self.now }
        requires offset { offset < unit_count (pieces_of (entries_in self.now)) }
        requires near { IfSome near.now (IsFound (entries_in self.now)) }
        ensures { HasUnit (entries_in self.now) result offset }
    {
        let sought = Sought::Offset(offset);
        match self.at_hand(near, sought) {
            Some(found) => found,
            None => piece_near(self.pieces, near, sought),
        }
    }

    /// Returns the piece of the first unit; None if the text is empty.
    pub(crate) fn first_piece(&self) -> Option<Found>
        requires view { IsView self.now }
        ensures { StandsAt (entries_in self.now) result 0 }
    {
        if self.len() == 0 {
            return None;
        }
        Some(self.piece_at(&None, 0))
    }

    /// Returns the piece that has what is sought. Tries the piece `near` and the remembered ones before a search.
    pub(crate) fn piece_with<L>(
        &self,
        near: &Option<Found>,
        sought: Sought,
        steps: &mut Steps<L>,
    ) -> Found
        requires view { IsView self.now }
        requires there { IsThere (entries_in self.now) sought }
        requires near { IfSome near.now (IsFound (entries_in self.now)) }
        ensures has { Has (entries_in self.now) result sought }
        ensures cost { WithinLookUps 1 (length (entries_in self.now)) (steps.new - steps.old) }
    {
        match self.at_hand(near, sought) {
            Some(found) => found,
            None => sought.find(self.pieces, steps),
        }
    }

    // Returns the piece `near` or a remembered one if it has what is sought.
    fn at_hand(&self, near: &Option<Found>, sought: Sought) -> Option<Found>
        requires view { IsView self.now }
        requires near { IfSome near.now (IsFound (entries_in self.now)) }
        ensures { IfSome result (λ found. Has (entries_in self.now) found sought) }
    {
        match near {
            Some(found) if sought.is_in(found) => Some(*found),
            _ => self.remembered.find(sought),
        }
    }

    /// Returns the unit at an offset in the piece.
    #[tactic(auto, using(crate::proofs::Found::units_of_piece))]
    pub(crate) fn unit_in(&self, found: &Found, offset: u64) -> u16
        requires view { IsView self.now }
        requires unit { HasUnit (entries_in self.now) found.now offset }
        ensures { result ≡ slice_index (units_in self.now) offset }
    {
        self.chunks.units(self.span_in(found))[(offset - found.before.units) as usize]
    }

    /// Returns the units from the offset to the end of its piece.
    #[tactic(auto, using(crate::proofs::Found::run_sizes))]
    pub(crate) fn run_at(&self, offset: u64) -> &'t [u16]
        requires view { IsView self.now }
        requires inside { offset < length (units_in self.now) }
        ensures some { 0 < length result.now }
        ensures front { result.now ≡ take (length result.now)
            (drop offset (units_in self.now)) }
    {
        let found = self.piece_at(&None, offset);
        &self.chunks.units(self.span_in(&found))[(offset - found.before.units) as usize..]
    }

    // Returns the span of a looked-up piece.
    fn span_in(&self, found: &Found) -> ChunkSpan
        requires view { IsView self.now }
        requires piece { IsFound (entries_in self.now) found.now }
        ensures same { result ≡ found.now.span }
        ensures inside { LiesIn (buffers_in self.now) result }
    {
        found.span
    }

    /// Returns the part of the piece between two offsets in it.
    pub(crate) fn part_in(&self, found: &Found, from: u64, to: u64) -> ChunkSpan
        requires view { IsView self.now }
        requires piece { IsFound (entries_in self.now) found.now }
        requires ordered { from ≤ to }
        requires within { to ≤ found.now.span.units }
        ensures part { result ≡ part_of found.now.span from to }
        ensures inside { LiesIn (buffers_in self.now) result }
        ensures shown { units_at (buffers_in self.now) result
            ≡ take (to - from) (drop from (units_at (buffers_in self.now) found.now.span)) }
    {
        self.chunks.part(self.span_in(found), from, to)
    }

    /// Returns whether the offset is inside a surrogate pair. `found` is the piece of its unit. Makes one search at most: for the unit
    /// before it, if a pair may end at the very start of that piece.
    pub(crate) fn cuts_pair_beside<L>(
        &self,
        near: &Option<Found>,
        found: &Found,
        offset: u64,
        steps: &mut Steps<L>,
    ) -> bool
        requires view { IsView self.now }
        requires near { IfSome near.now (IsFound (entries_in self.now)) }
        requires unit { HasUnit (entries_in self.now) found.now offset }
        ensures cuts { result ≡ cuts_pair (units_in self.now) offset }
        ensures cost { WithinLookUps 1 (length (entries_in self.now)) (steps.new - steps.old) }
    {
        let unit = self.unit_in(found, offset);
        if offset == 0 || !is_low_surrogate(unit) {
            return false;
        }
        let nearest = nearer(&Some(*found), near, offset - 1);
        let holder = self.piece_with(&nearest, Sought::Offset(offset - 1), steps);
        let before = self.unit_in(&holder, offset - 1);
        cuts_pair(&[before, unit], 1)
    }

    /// Returns whether the offset is inside a surrogate pair or, with kind CR LF, inside a line ending. `found` is the piece of its unit.
    /// Only the test for a surrogate pair may make a search.
    pub(crate) fn cuts_beside<L>(
        &self,
        kind: Kind,
        near: &Option<Found>,
        found: &Found,
        offset: u64,
        steps: &mut Steps<L>,
    ) -> bool
        requires view { IsView self.now }
        requires kind { IsOfKind kind (units_in self.now) }
        requires near { IfSome near.now (IsFound (entries_in self.now)) }
        requires unit { HasUnit (entries_in self.now) found.now offset }
        ensures cuts { result ≡ cuts_in kind (units_in self.now) offset }
        ensures cost { WithinLookUps 1 (length (entries_in self.now)) (steps.new - steps.old) }
    {
        if kind == Kind::Crlf && self.unit_in(found, offset) == LINE_FEED {
            return true;
        }
        self.cuts_pair_beside(near, found, offset, steps)
    }

    /// Returns the piece of the `n`-th break, counted from 1, and how many of its units precede the end of that break. Tries the piece
    /// `near` and the remembered ones before a search.
    pub(crate) fn break_at<L>(
        &self,
        near: &Option<Found>,
        n: u64,
        steps: &mut Steps<L>,
    ) -> (Found, u64)
        requires view { IsView self.now }
        requires near { IfSome near.now (IsFound (entries_in self.now)) }
        requires first { 0 < n }
        requires there { n < length (lines_of (units_in self.now)) }
        ensures piece { IsFound (entries_in self.now) result.0 }
        ensures line { result.0.before.units + result.1
            ≡ line_start (units_in self.now) (n + 1) }
        ensures some { 0 < result.1 }
        ensures within { result.1 ≤ result.0.span.units }
        ensures small { result.0.before.units + result.1 < 2 ^ 62 }
        ensures cost { WithinLookUps 1 (length (entries_in self.now)) (steps.new - steps.old) }
    {
        let found = self.piece_with(near, Sought::Break(n), steps);
        let own = self.chunks.nth_break(found.span, n - found.before.breaks);
        (found, own)
    }
}

fn is_low_surrogate(unit: u16) -> bool
    ensures { result ≡ is_low_surrogate unit }
{
    0xDC00 <= unit && unit < 0xE000
}
