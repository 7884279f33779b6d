//! Converts between offsets and positions. Each visited node is a step. Pieces are tried in this order: the piece at hand, the remembered
//! ones, a search. No walk goes from a piece to its neighbour.

ghost use Rattle.std.specs.Prelude.{◌≡◌, ◌+◌, ◌-◌, ◌<◌, ◌≤◌, ◌&&◌, nat_le, Some, None, false, if◌then◌else◌, length, take, slice_index_or, MatchOption, IfSome};
ghost use Rattle.chunk_buffers.specs.Chunks.{units_at, LiesIn};
ghost use Rattle.piece_tree.specs.Costs.{WithinLookUps};
ghost use Rattle.piece_tree.specs.Pieces.{IsFound};
ghost use Rattle.unit_text.specs.Kinds.{IsOfKind, is_place_in};
ghost use Rattle.text_rules.specs.Lines.{Line, lines_of, line_start};
ghost use Rattle.text_rules.specs.Positions.{position_of, is_position, offset_of};
ghost use Rattle.text_buffer.specs.Text.{ends_with_pair};
ghost use Rattle.text_buffer.specs.Views.{IsView, units_in, entries_in, IsPlaceAt};

use crate::breaks::ends_with_pair;
use crate::edit::one_if;
use crate::look_up::{Sought, nearer};
use crate::view::View;
use chunk_buffers::Chunks;
use piece_tree::Found;
use steps::Steps;
use text_lengths::Position;
use unit_text::Kind;

/// An offset of the text, and the piece that was looked up there, if any. The next look-up nearby tries that piece first.
#[derive(Drop)]
pub(crate) struct Place {
    pub offset: u64,
    pub found: Option<Found>,
}

impl View<'_> {
    /// Converts an offset into a position; None if the offset is invalid.
    pub(crate) fn position_at<L>(
        &self,
        kind: Kind,
        offset: u64,
        steps: &mut Steps<L>,
    ) -> Option<Position>
        requires view { IsView self.now }
        requires kind { IsOfKind kind (units_in self.now) }
        ensures position { let units = units_in self.now in
            result ≡ (if is_place_in kind units offset
            then Some (position_of units offset) else None) }
        ensures cost { WithinLookUps 3 (length (entries_in self.now)) (steps.new - steps.old) }
    {
        let Some(at) = self.place_at(kind, &None, offset, steps) else {
            return None;
        };
        let breaks = self.breaks_before(&at.found, offset);
        let start = self.start_after(&at.found, breaks, steps);
        Some(Position {
            line: breaks + 1,
            column: offset - start.offset + 1,
        })
    }

    /// Converts a position into an offset; None if the position is invalid.
    pub(crate) fn offset_at<L>(&self, position: Position, steps: &mut Steps<L>) -> Option<u64>
        requires view { IsView self.now }
        ensures offset { let units = units_in self.now in
            result ≡ (if is_position units position then Some (offset_of units position) else None) }
        ensures cost { WithinLookUps 4 (length (entries_in self.now)) (steps.new - steps.old) }
    {
        if position.line == 0 {
            return None;
        }
        if position.line > self.line_count() {
            return None;
        }
        let start = self.start_after(&None, position.line - 1, steps);
        let end = self.content_end(position.line, &start, steps);
        if position.column == 0 {
            return None;
        }
        if position.column - 1 > end.offset - start.offset {
            return None;
        }
        let offset = start.offset + (position.column - 1);
        let near = nearer(&start.found, &end.found, offset);
        let Some(at) = self.place_at(Kind::Mixed, &near, offset, steps) else {
            return None;
        };
        Some(at.offset)
    }

    // Returns the place of an offset, with the piece of its unit; None if the offset is invalid. The piece `near` is tried first.
    fn place_at<L>(
        &self,
        kind: Kind,
        near: &Option<Found>,
        offset: u64,
        steps: &mut Steps<L>,
    ) -> Option<Place>
        requires view { IsView self.now }
        requires near { IfSome near.now (IsFound (entries_in self.now)) }
        requires kind { IsOfKind kind (units_in self.now) }
        ensures place { MatchOption result
            (is_place_in kind (units_in self.now) offset ≡ false) (IsPlaceAt kind self.now offset) }
        ensures cost { WithinLookUps 2 (length (entries_in self.now)) (steps.new - steps.old) }
    {
        if offset > self.len() {
            return None;
        }
        if offset == self.len() {
            return Some(Place {
                offset,
                found: None,
            });
        }
        let found = self.piece_with(near, Sought::Offset(offset), steps);
        if self.cuts_beside(kind, near, &found, offset, steps) {
            return None;
        }
        Some(Place {
            offset,
            found: Some(found),
        })
    }

    /// Returns the start of the line after this many breaks. The piece `near` is tried first for the last of them.
    pub(crate) fn start_after<L>(
        &self,
        near: &Option<Found>,
        breaks: u64,
        steps: &mut Steps<L>,
    ) -> Place
        requires view { IsView self.now }
        requires near { IfSome near.now (IsFound (entries_in self.now)) }
        requires there { breaks
            < length (lines_of (units_in self.now)) }
        ensures start { result.offset
            ≡ line_start (units_in self.now) (breaks + 1) }
        ensures found { IfSome result.found (IsFound (entries_in self.now)) }
        ensures cost { WithinLookUps 1 (length (entries_in self.now)) (steps.new - steps.old) }
    {
        if breaks == 0 {
            return Place {
                offset: 0,
                found: None,
            };
        }
        let (found, own) = self.break_at(near, breaks, steps);
        Place {
            offset: found.before.units + own,
            found: Some(found),
        }
    }

    // Returns the end of the content of a line, given its start. The piece of the break before it is tried first.
    fn content_end<L>(&self, line: u64, start: &Place, steps: &mut Steps<L>) -> Place
        requires view { IsView self.now }
        requires near { IfSome start.now.found (IsFound (entries_in self.now)) }
        requires first { 0 < line }
        requires there { line ≤ length (lines_of (units_in self.now)) }
        requires start { start.now.offset
            ≡ line_start (units_in self.now) line }
        ensures content { (d : Line) → result.offset ≡ start.now.offset + length (slice_index_or
            (lines_of (units_in self.now)) (line - 1) d).content }
        ensures within { result.offset ≤ length (units_in self.now) }
        ensures found { IfSome result.found (IsFound (entries_in self.now)) }
        ensures cost { WithinLookUps 1 (length (entries_in self.now)) (steps.new - steps.old) }
    {
        if line == self.line_count() {
            return Place {
                offset: self.len(),
                found: None,
            };
        }
        let (found, own) = self.break_at(&start.found, line, steps);
        let end = found.before.units + own;
        let is_pair = ends_line_with_pair(self.chunks, &found, own, end - start.offset);
        Place {
            offset: end - 1 - one_if(is_pair),
            found: Some(found),
        }
    }

    /// Returns whether both offsets are valid. The piece of the first is tried for the second. Steps are not counted.
    pub(crate) fn has_places(&self, kind: Kind, start: u64, end: u64) -> bool
        requires view { IsView self.now }
        requires kind { IsOfKind kind (units_in self.now) }
        requires ordered { start ≤ end }
        ensures { let units = units_in self.now in
            result ≡ (is_place_in kind units start && is_place_in kind units end) }
    {
        let mut steps = Steps::new();
        if start >= self.len() {
            return end == self.len();
        }
        let first = self.piece_at(&None, start);
        if self.cuts_beside(kind, &None, &first, start, &mut steps) {
            return false;
        }
        if end == start {
            return true;
        }
        if end >= self.len() {
            return self.is_end(kind, end);
        }
        let near = Some(first);
        let last = self.piece_at(&near, end);
        !self.cuts_beside(kind, &near, &last, end, &mut steps)
    }

    // Returns whether an offset that is not below the length is valid: the length itself is.
    fn is_end(&self, kind: Kind, offset: u64) -> bool
        requires view { IsView self.now }
        requires past { length (units_in self.now) ≤ offset }
        ensures { result ≡ is_place_in kind (units_in self.now) offset }
    {
        offset == self.len()
    }
}

// Returns whether a line of `units` units ends with CR LF. Its break ends `own` units into the piece. A CR LF is always in one piece.
fn ends_line_with_pair(chunks: &Chunks, found: &Found, own: u64, units: u64) -> bool
    requires inside { LiesIn chunks.now.buffers found.now.span }
    requires within { own ≤ found.now.span.units }
    ensures { result ≡ (nat_le 2 units
        && ends_with_pair (take own (units_at chunks.now.buffers found.now.span))) }
{
    2 <= units && ends_with_pair(&chunks.units(found.span)[..own as usize])
}
