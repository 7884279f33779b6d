//! Puts in a text of any length, as parts that each fit in one append.

ghost use Rattle.std.specs.Prelude.{◌≡◌, ◌+◌, ◌*◌, ◌<◌, ◌≤◌, ◌^◌, None, false, length, IfOk};
ghost use Rattle.chunk_buffers.specs.Chunks.{unit_count, Extends};
ghost use Rattle.unit_text.specs.declared.kind.Kind.TheVariants.{Mixed};
ghost use Rattle.unit_text.specs.Kinds.{IsOfKind};
ghost use Rattle.text_rules.specs.Edits.{edited};
ghost use Rattle.text_rules.specs.Dirty.{dirty_lines};
ghost use Rattle.text_buffer.specs.Again.{TypesOn, CanTypeOn};
ghost use Rattle.text_buffer.specs.Along.{LeavesLittle};
ghost use Rattle.text_buffer.specs.Edits.{AreSameBefore, AreSameBehind};
ghost use Rattle.text_buffer.specs.Room.{IsEnough, IsEnoughForPart, HasSpent, HasSpentPart, most_part, need_of_edit, part_count, units_beside_text};

use crate::beside::units_along;
use crate::put::put_some;
use crate::room::{MOST_PART, Need};
use crate::text::TextBuffer;
use crate::view::View;
use chunk_buffers::ChunkSpan;
use std::alloc::{AllocError, Global};
use text_lengths::{Dirty, Span};
use unit_text::{CARRIAGE_RETURN, Kind, LINE_FEED};

impl TextBuffer {
    /// Makes a text of these units, whose line endings are of the kind.
    pub(super) fn of_parts(
        alloc: Global,
        units: &[u16],
        kind: Kind,
    ) -> Result<TextBuffer, AllocError>
        requires { IsOfKind kind units.now }
        ensures units { IfOk result (λ text. text.units ≡ units.now) }
        ensures kind { IfOk result (λ text. text.kind ≡ kind) }
        ensures spans { IfOk result (λ text. length text.spans < 2 * part_count units.now) }
    {
        let mut text = TextBuffer::new(alloc);
        text.reserve(Need::of_edit(units))?;
        text.recast(kind, units);
        Ok(text)
    }

    /// Replaces the span by a text of any number of parts.
    pub(super) fn replace_parts(&mut self, span: Span, text: &[u16])
        requires ordered { span.start ≤ span.end }
        requires within { span.end ≤ length self.old.units }
        requires room { IsEnough self.old.room (need_of_edit text.now) }
        requires small { length (edited self.old.units
            (record { span = span; text = text.now; force = false })) < 2 ^ 62 }
        requires kind { self.old.kind ≡ Mixed }
        ensures kind { self.new.kind ≡ Mixed }
        ensures units { self.new.units
            ≡ edited self.old.units (record { span = span; text = text.now; force = false }) }
        ensures pieces { length self.new.spans ≤ length self.old.spans + 2 * part_count text.now }
        ensures taken { LeavesLittle self.old span
            → length self.new.spans + 2 ≤ length self.old.spans + 2 * part_count text.now }
        ensures appended { unit_count self.new.buffers
            ≤ unit_count self.old.buffers + length text.now
            + units_beside_text * part_count text.now }
        ensures grown { Extends self.old.buffers self.new.buffers }
        ensures spent { HasSpent (need_of_edit text.now) self.old.room self.new.room }
    {
        if text.len() <= MOST_PART {
            self.replace_part(span, text, &mut None);
            return;
        }
        let (first, rest) = text.split_at(MOST_PART);
        let end = span.start + MOST_PART as u64;
        self.replace_part(span, first, &mut None);
        self.replace_parts(Span { start: end, end }, rest);
    }

    /// Replaces the span by a text of one part. If it is at `place` and no units come with it, it is not appended. Sets `place` to where the
    /// text is now.
    pub(super) fn replace_part(
        &mut self,
        span: Span,
        text: &[u16],
        place: &mut Option<ChunkSpan>,
    ) -> Dirty
        requires ordered { span.start ≤ span.end }
        requires within { span.end ≤ length self.old.units }
        requires short { length text.now ≤ most_part }
        requires room { IsEnoughForPart self.old.room text.now }
        requires small { length (edited self.old.units
            (record { span = span; text = text.now; force = false })) < 2 ^ 62 }
        requires kind { IsOfKind self.old.kind (edited self.old.units
            (record { span = span; text = text.now; force = false })) }
        ensures kind { self.new.kind ≡ self.old.kind }
        ensures units { self.new.units
            ≡ edited self.old.units (record { span = span; text = text.now; force = false }) }
        ensures pieces { length self.new.spans ≤ length self.old.spans + 2 }
        ensures taken { LeavesLittle self.old span → length self.new.spans ≤ length self.old.spans }
        ensures typed { place.old ≡ None → TypesOn self.old self.new span text.now }
        ensures grows { place.old ≡ None → CanTypeOn self.old self.new span text.now }
        ensures appended { unit_count self.new.buffers
            ≤ unit_count self.old.buffers + length text.now + units_beside_text }
        ensures grown { Extends self.old.buffers self.new.buffers }
        ensures spent { HasSpentPart text.now self.old.room self.new.room }
        ensures dirty { result ≡ dirty_lines self.old.units span text.now }
        ensures before { AreSameBefore result self.old.units self.new.units }
        ensures after { AreSameBehind result self.old.units self.new.units }
    {
        let view = View {
            pieces: &self.pieces,
            chunks: &self.chunks,
            remembered: &self.remembered,
        };
        let ends = view.ends_of(span);
        let joins = view.joins_of(&ends, text);
        let dirty = view.dirty_between(&ends, joins, text);
        let rests = view.rests_of(&ends, text);
        let front = units_along(&self.chunks, rests.front, joins.front, CARRIAGE_RETURN);
        let back = units_along(&self.chunks, rests.back, joins.back, LINE_FEED);
        let before = front.as_slice();
        let after = back.as_slice();
        let at = view.found_before(&ends.start, before.len() as u64);
        let from = span.start - before.len() as u64;
        let to = span.end + after.len() as u64;
        let added = put_some(&mut self.chunks, before, text, after, place);
        let told = self.pieces.splice(at, from, to - from, added, &self.chunks);
        self.remembered.change_from(from, told);
        dirty
    }

    /// Replaces the whole text by units of one part, whose line endings are of the kind. If they are at `place`, they are not appended. Sets
    /// `place` to where they are now.
    pub(super) fn recast_part(&mut self, kind: Kind, units: &[u16], place: &mut Option<ChunkSpan>)
        requires endings { IsOfKind kind units.now }
        requires short { length units.now ≤ most_part }
        requires room { IsEnoughForPart self.old.room units.now }
        ensures units { self.new.units ≡ units.now }
        ensures kind { self.new.kind ≡ kind }
        ensures pieces { length self.new.spans ≤ 1 }
        ensures few { length self.new.spans ≤ length units.now }
        ensures appended { unit_count self.new.buffers
            ≤ unit_count self.old.buffers + length units.now + units_beside_text }
        ensures grown { Extends self.old.buffers self.new.buffers }
        ensures spent { HasSpentPart units.now self.old.room self.new.room }
    {
        let view = View {
            pieces: &self.pieces,
            chunks: &self.chunks,
            remembered: &self.remembered,
        };
        let first = view.first_piece();
        let len = view.len();
        let added = put_some(&mut self.chunks, &[], units, &[], place);
        let told = self.pieces.splice(first, 0, len, added, &self.chunks);
        self.remembered.change_from(0, told);
        self.kind = kind;
    }
}
