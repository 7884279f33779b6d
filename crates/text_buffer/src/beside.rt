//! The units beside its span that an edit appends again together with its text.

ghost use Rattle.std.specs.Prelude.{◌≡◌, ◌-◌, ◌≤◌, length, IfSome};
ghost use Rattle.chunk_buffers.specs.Chunks.{LiesIn};
ghost use Rattle.piece_tree.specs.Pieces.{StandsAt};
ghost use Rattle.text_buffer.specs.Edits.{IsSpot, AreEnds};
ghost use Rattle.text_buffer.specs.Text.{most_along};
ghost use Rattle.text_buffer.specs.Views.{IsView, entries_in, buffers_in};
ghost use Rattle.text_buffer.specs.Along.{if_little, rest_before, rest_behind, rests_of, units_along};

use crate::edit::{Ends, Spot};
use crate::view::View;
use arrayvec::ArrayVec;
use chunk_buffers::{ChunkSpan, Chunks};
use piece_tree::Found;

/// The most units that are taken along on one side.
pub(crate) const MOST_ALONG: usize = 3;

/// The most breaks among these.
pub(crate) const MOST_BREAKS_ALONG: u64 = 1;

/// The rests of the cut pieces before and after the span, if they are taken along.
#[derive(Clone, Copy)]
pub(crate) struct Rests {
    pub front: Option<ChunkSpan>,
    pub back: Option<ChunkSpan>,
}

impl View<'_> {
    /// Returns the rests that an edit of this span takes along, so that no small piece remains beside its text.
    pub(crate) fn rests_of(&self, ends: &Ends, text: &[u16]) -> Rests
        requires view { IsView self.now }
        requires ends { AreEnds self.now.pieces.now self.now.chunks.now ends.now }
        ensures { result
            ≡ rests_of (buffers_in self.now) ends.now.start ends.now.end (length text.now) }
    {
        let front = self.rest_before(&ends.start);
        let back = if ends.start.offset == ends.end.offset {
            None
        } else {
            self.rest_behind(&ends.end)
        };
        if text.is_empty() && (front.is_none() || back.is_none()) {
            return Rests {
                front: None,
                back: None,
            };
        }
        Rests { front, back }
    }

    // Returns the part of the piece before the offset if that is short.
    fn rest_before(&self, spot: &Spot) -> Option<ChunkSpan>
        requires view { IsView self.now }
        requires spot { IsSpot self.now.pieces.now self.now.chunks.now spot.now }
        ensures { result ≡ rest_before (buffers_in self.now) spot.now.found spot.now.offset }
    {
        let found = spot.found?;
        let own = spot.offset - found.before.units;
        if_little(self.chunks, self.part_in(&found, 0, own))
    }

    // Returns the part of the piece from an offset inside it on, if that is short.
    fn rest_behind(&self, spot: &Spot) -> Option<ChunkSpan>
        requires view { IsView self.now }
        requires spot { IsSpot self.now.pieces.now self.now.chunks.now spot.now }
        ensures { result ≡ rest_behind (buffers_in self.now) spot.now.found spot.now.offset }
    {
        let found = spot.found?;
        if spot.offset == found.before.units {
            return None;
        }
        let own = spot.offset - found.before.units;
        let end = found.span.units as u64;
        if_little(self.chunks, self.part_in(&found, own, end))
    }

    /// Returns the piece of the unit `along` units before the spot. These are taken along. Makes no search if it is the piece before the
    /// spot's.
    pub(crate) fn found_before(&self, spot: &Spot, along: u64) -> Option<Found>
        requires view { IsView self.now }
        requires spot { IsSpot self.now.pieces.now self.now.chunks.now spot.now }
        requires there { along ≤ spot.now.offset }
        ensures { StandsAt (entries_in self.now) result (spot.now.offset - along) }
    {
        if along == 0 {
            return spot.found;
        }
        Some(self.piece_at(&spot.found, spot.offset - along))
    }
}

fn if_little(chunks: &Chunks, span: ChunkSpan) -> Option<ChunkSpan>
    requires { LiesIn chunks.now.buffers span }
    ensures { result ≡ if_little chunks.now.buffers span }
{
    if 0 < span.units
        && span.units as usize <= MOST_ALONG
        && chunks.breaks(span) <= MOST_BREAKS_ALONG
    {
        Some(span)
    } else {
        None
    }
}

/// Returns the units of the rest. Without a rest, returns `unit` if `joins` is set, since it makes a pair with its new neighbour.
pub(crate) fn units_along(
    chunks: &Chunks,
    rest: Option<ChunkSpan>,
    joins: bool,
    unit: u16,
) -> ArrayVec<u16, MOST_ALONG>
    requires inside { IfSome rest (LiesIn chunks.now.buffers) }
    requires few { IfSome rest (λ span. span.units ≤ most_along) }
    ensures { result.items ≡ units_along chunks.now.buffers rest joins unit }
{
    let mut units = ArrayVec::new();
    if let Some(span) = rest {
        units.try_extend_from_slice(chunks.units(span)).unwrap();
    } else if joins {
        units.push(unit);
    }
    units
}
