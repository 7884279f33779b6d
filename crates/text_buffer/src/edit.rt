//! The two ends of an edit's span, found with at most one search each, and the lines that the edit touches.

ghost use Rattle.std.specs.Prelude.{◌≡◌, ℕ, ◌+◌, ◌<◌, ◌≤◌, ◌^◌, ◌&&◌, not, List, length, take, drop, IfSome};
ghost use Rattle.piece_tree.specs.Pieces.{pieces_of, unit_count, IsFound, StandsAt};
ghost use Rattle.text_rules.specs.Lines.{line_feed, carriage_return, begins_with};
ghost use Rattle.text_rules.specs.Breaks.{ends_with, count_to, break_ends};
ghost use Rattle.text_rules.specs.Dirty.{dirty_lines};
ghost use Rattle.text_buffer.specs.Text.{one_if};
ghost use Rattle.text_buffer.specs.Views.{IsView, units_in, entries_in};
ghost use Rattle.text_buffer.specs.Edits.{IsSpot, AreEnds, span_between, joins_of, pairs_of};

use crate::view::View;
use line_starts::count_breaks;
use piece_tree::Found;
use text_lengths::{Dirty, Span};
use unit_text::{CARRIAGE_RETURN, LINE_FEED};

/// An offset of the text, with what is on both sides of it.
#[derive(Clone, Copy)]
pub(crate) struct Spot {
    pub offset: u64,
    /// The piece of the unit at the offset; None at the end of the text.
    pub found: Option<Found>,
    /// Whether the unit before the offset is a CR.
    pub after_return: bool,
    /// Whether the unit at the offset is an LF.
    pub before_feed: bool,
}

/// The start and the end of an edit's span.
#[derive(Clone, Copy)]
pub(crate) struct Ends {
    pub start: Spot,
    pub end: Spot,
}

/// Whether the text of an edit will form a CR LF with its surroundings: at its start, and at its end.
#[derive(Clone, Copy)]
pub(crate) struct Joins {
    pub front: bool,
    pub back: bool,
}

impl View<'_> {
    /// Finds the ends of the span.
    pub(crate) fn ends_of(&self, span: Span) -> Ends
        requires view { IsView self.now }
        requires ordered { span.start ≤ span.end }
        requires within { span.end ≤ length (units_in self.now) }
        ensures ends { AreEnds self.now.pieces.now self.now.chunks.now result }
        ensures span { span_between result ≡ span }
    {
        let start = self.spot_at(&None, span.start);
        if span.end == span.start {
            return Ends { start, end: start };
        }
        let end = self.spot_at(&start.found, span.end);
        Ends { start, end }
    }

    // Finds the spot of an offset, with at most one search. Makes none at the end of the text, or if a remembered piece, the piece `near`
    // or the one beside that has the unit.
    fn spot_at(&self, near: &Option<Found>, offset: u64) -> Spot
        requires view { IsView self.now }
        requires near { IfSome near.now (IsFound (entries_in self.now)) }
        requires within { offset ≤ length (units_in self.now) }
        ensures spot { IsSpot self.now.pieces.now self.now.chunks.now result }
        ensures offset { result.offset ≡ offset }
    {
        if offset == self.len() {
            return Spot {
                offset,
                found: None,
                after_return: self.is_after_return(near, offset),
                before_feed: false,
            };
        }
        let found = self.piece_at(near, offset);
        Spot {
            offset,
            found: Some(found),
            after_return: self.is_after_return(&Some(found), offset),
            before_feed: self.unit_in(&found, offset) == LINE_FEED,
        }
    }

    // Returns whether the unit before the offset is a CR.
    #[tactic(auto, using(crate::proofs::Lasts::last_units))]
    fn is_after_return(&self, near: &Option<Found>, offset: u64) -> bool
        requires view { IsView self.now }
        requires near { IfSome near.now (IsFound (entries_in self.now)) }
        requires within { offset ≤ unit_count (pieces_of (entries_in self.now)) }
        ensures { result ≡ ends_with carriage_return
            (take offset (units_in self.now)) }
    {
        if offset == 0 {
            return false;
        }
        let found = self.piece_at(near, offset - 1);
        self.unit_in(&found, offset - 1) == CARRIAGE_RETURN
    }

    /// Returns where a CR and an LF will meet when the text is between the two ends.
    pub(crate) fn joins_of(&self, ends: &Ends, text: &[u16]) -> Joins
        requires view { IsView self.now }
        requires ends { AreEnds self.now.pieces.now self.now.chunks.now ends.now }
        ensures { result ≡ joins_of
            (units_in self.now) (span_between ends.now) text.now }
    {
        Joins {
            front: self.joins_front(ends, text),
            back: self.joins_back(ends, text),
        }
    }

    // Returns whether a CR before the start and an LF at the start of what follows it form a pair.
    fn joins_front(&self, ends: &Ends, text: &[u16]) -> bool
        requires view { IsView self.now }
        requires ends { AreEnds self.now.pieces.now self.now.chunks.now ends.now }
        ensures { result ≡ (joins_of (units_in self.now) (span_between ends.now) text.now).front }
    {
        if !ends.start.after_return {
            return false;
        }
        if text.is_empty() {
            return ends.end.before_feed;
        }
        text[0] == LINE_FEED
    }

    // Returns whether a CR at the end of what precedes the end and an LF after it form a pair.
    #[tactic(auto, using(crate::proofs::Lasts::joins_pair_after))]
    fn joins_back(&self, ends: &Ends, text: &[u16]) -> bool
        requires view { IsView self.now }
        requires ends { AreEnds self.now.pieces.now self.now.chunks.now ends.now }
        ensures { result ≡ (joins_of (units_in self.now) (span_between ends.now) text.now).back }
    {
        if !ends.end.before_feed {
            return false;
        }
        if text.is_empty() {
            return ends.start.after_return;
        }
        text[text.len() - 1] == CARRIAGE_RETURN
    }

    /// Returns the lines that an edit with this text touches, and the number of lines that replace them.
    pub(crate) fn dirty_between(&self, ends: &Ends, joins: Joins, text: &[u16]) -> Dirty
        requires view { IsView self.now }
        requires ends { AreEnds self.now.pieces.now self.now.chunks.now ends.now }
        requires joins { joins ≡ joins_of
            (units_in self.now) (span_between ends.now) text.now }
        ensures { result ≡ dirty_lines
            (units_in self.now) (span_between ends.now) text.now }
    {
        let counted = self.breaks_before(&ends.start.found, ends.start.offset);
        let own = one_if(ends_line(&ends.start));
        let first = counted - own + 1;
        let last = self.breaks_behind(ends, counted) + 1;
        let lines = count_breaks(text) + 1 + one_if(ends.start.after_return);
        Dirty {
            first,
            old: last + 1 - first,
            new: lines - pairs_made(joins, text),
        }
    }

    /// Returns how many breaks end at or before the offset. `at` is the piece of its unit, or None at the end.
    #[tactic(auto, using(crate::proofs::Found::sizes))]
    pub(crate) fn breaks_before(&self, at: &Option<Found>, offset: u64) -> u64
        requires view { IsView self.now }
        requires place { StandsAt (entries_in self.now) at.now offset }
        ensures count { result ≡ count_to offset (break_ends 0 (units_in self.now)) }
        ensures few { result < 2 ^ 62 }
    {
        match at {
            Some(found) => self.breaks_to(found, offset),
            None => self.breaks(),
        }
    }

    // Returns the same for the end of the span. `counted` is the number for its start.
    fn breaks_behind(&self, ends: &Ends, counted: u64) -> u64
        requires view { IsView self.now }
        requires ends { AreEnds self.now.pieces.now self.now.chunks.now ends.now }
        requires counted { counted ≡ count_to ends.now.start.offset
            (break_ends 0 (units_in self.now)) }
        requires few { counted < 2 ^ 62 }
        ensures count { result ≡ count_to ends.now.end.offset
            (break_ends 0 (units_in self.now)) }
        ensures few { result < 2 ^ 62 }
    {
        if ends.end.offset == ends.start.offset {
            return counted;
        }
        self.breaks_before(&ends.end.found, ends.end.offset)
    }
}

// Returns whether a CR before the offset is a break. In a CR LF it is not.
fn ends_line(spot: &Spot) -> bool
    ensures { result ≡ (spot.now.after_return && not spot.now.before_feed) }
{
    spot.after_return && !spot.before_feed
}

// Returns how many pairs an edit forms at the ends of its text; without text, at most one.
fn pairs_made(joins: Joins, text: &[u16]) -> u64
    ensures { (units : List ℕ) (span : Span) → joins ≡ joins_of units span text.now
        → result ≡ pairs_of units span text.now }
{
    if text.is_empty() {
        return one_if(joins.front);
    }
    one_if(joins.front) + one_if(joins.back)
}

/// Returns 1 if the test holds, else 0.
pub(crate) fn one_if(test: bool) -> u64
    ensures { result ≡ one_if test }
{
    if test { 1 } else { 0 }
}
