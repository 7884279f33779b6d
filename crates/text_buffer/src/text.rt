//! The text, with its edits.

ghost use Rattle.std.specs.Prelude.{◌≡◌, ◌+◌, ◌-◌, ◌*◌, ◌<◌, ◌≤◌, ◌^◌, ◌++◌, [], false, if◌then◌else◌, length, min, take, drop, OnOk, OnErr, IfOk};
ghost use Rattle.std.specs.List.{All, concat, flat_map};
ghost use Rattle.chunk_buffers.specs.Chunks.{units_at, unit_count, LiesIn, Extends};
ghost use Rattle.piece_tree.specs.Costs.{WithinLookUps};
ghost use Rattle.unit_text.specs.declared.kind.Kind.TheVariants.{Mixed};
ghost use Rattle.unit_text.specs.Kinds.{IsOfKind, is_place_in};
ghost use Rattle.text_rules.specs.Positions.{position_of, is_position, offset_of};
ghost use Rattle.text_rules.specs.Edits.{edited};
ghost use Rattle.text_rules.specs.Dirty.{dirty_lines, replaced};
ghost use Rattle.text_rules.specs.Lines.{Line, lines_of, line_at};
ghost use Rattle.text_buffer.specs.Again.{TypesOn, CanTypeOn};
ghost use Rattle.text_buffer.specs.Along.{LeavesLittle};
ghost use Rattle.text_buffer.specs.Edits.{AreSameBefore, AreSameBehind};
ghost use Rattle.text_buffer.specs.Reading.{runs_of, rest_from};
ghost use Rattle.text_buffer.specs.Room.{IsEnough, KeepsRoom, HasSpent, need_of_edit, part_count, units_beside_text};
ghost use Rattle.text_buffer.specs.Text.{text_of};
ghost use Rattle.text_buffer.specs.Views.{IsView};

mod parts;
mod rewriting;

use crate::lines::LineReader;
use crate::remembered::Remembered;
use crate::room::{MOST_PART, Need};
use crate::runs::Runs;
use crate::seeking::{look_up_all, look_up_line, look_up_unit};
use crate::view::View;
use chunk_buffers::{ChunkSpan, Chunks};
use piece_tree::{Piece, PieceTree};
use std::alloc::{AllocError, Global};
use std::marker::Model;
use steps::Steps;
use text_lengths::{Dirty, Position, Span};
use text_rules::Op;
use unit_text::{Flat, Kind};

/// One text. Contracts see its units, and the spans of its pieces.
///
/// All its line endings are of its kind. No CR LF is split between two pieces, and no piece is empty.
#[derive(Drop)]
pub struct TextBuffer {
    pieces: PieceTree,
    chunks: Chunks,
    remembered: Remembered,
    kind: Kind,
}

impl Model for TextBuffer {
    ghost use Rattle.text_buffer.specs.Text.{Text, text_of, IsTextOf};

    ghost Value = { Text };

    ghost view = { λ t. text_of t.kind t.pieces t.chunks };

    ghost invariant = { λ t. IsTextOf t.kind t.pieces t.chunks t.remembered };
}

impl TextBuffer {
    pub fn new(alloc: Global) -> TextBuffer
        ensures units { result.units ≡ [] }
        ensures kind { result.kind ≡ Mixed }
        ensures spans { result.spans ≡ [] }
        ensures buffers { result.buffers ≡ [] }
    {
        TextBuffer {
            pieces: PieceTree::new(alloc),
            chunks: Chunks::new(alloc),
            remembered: Remembered::new(alloc),
            kind: Kind::Mixed,
        }
    }

    /// Makes a text of these units, whose line endings are of the kind. Fails if memory is short.
    pub fn of_units(alloc: Global, units: &[u16], kind: Kind) -> Result<TextBuffer, AllocError>
        requires { IsOfKind kind units.now }
        ensures units { IfOk result (λ text. text.units ≡ units.now) }
        ensures kind { IfOk result (λ text. text.kind ≡ kind) }
        ensures spans { IfOk result (λ text. length text.spans < 2 * part_count units.now) }
    {
        if units.len() > MOST_PART {
            return TextBuffer::of_parts(alloc, units, kind);
        }
        let copy = Vec::from_slice(alloc, units)?;
        TextBuffer::of_vec(alloc, copy, kind)
    }

    /// Like `of_units`, but takes over the units and copies none.
    pub fn of_vec(alloc: Global, units: Vec<u16>, kind: Kind) -> Result<TextBuffer, AllocError>
        requires { IsOfKind kind units.items }
        ensures units { IfOk result (λ text. text.units ≡ units.items) }
        ensures kind { IfOk result (λ text. text.kind ≡ kind) }
        ensures spans { IfOk result (λ text. length text.spans < 2 * part_count units.items) }
    {
        if units.is_empty() {
            return Ok(TextBuffer {
                kind,
                ..TextBuffer::new(alloc)
            });
        }
        if units.len() > MOST_PART {
            return TextBuffer::of_parts(alloc, &units, kind);
        }
        let mut pieces = PieceTree::new(alloc);
        let mut chunks = Chunks::new(alloc);
        pieces.reserve(1)?;
        let (span, breaks) = chunks.append_whole(units)?;
        pieces.splice(None, 0, 0, Some(Piece { span, breaks }), &chunks);
        Ok(TextBuffer {
            pieces,
            chunks,
            remembered: Remembered::new(alloc),
            kind,
        })
    }

    /// Reserves room for edits, and if there is memory for it also for pieces that `rewrite_crowded` rewrites after them. Fails if memory is
    /// short for the edits. On an error the text is unchanged.
    pub fn reserve(&mut self, need: Need) -> Result<(), AllocError>
        ensures room { OnOk result (IsEnough self.new.room need) }
        ensures kept { KeepsRoom self.old.room self.new.room }
        ensures same { self.new.units ≡ self.old.units }
        ensures kind { self.new.kind ≡ self.old.kind }
        ensures spans { self.new.spans ≡ self.old.spans }
        ensures grown { Extends self.old.buffers self.new.buffers }
        ensures appended { unit_count self.new.buffers ≡ unit_count self.old.buffers }
    {
        self.make_room(need)?;
        // If memory is short, no pieces are rewritten.
        let _more = self.make_room(need.with_rewriting());
        Ok(())
    }

    // Reserves room for the edits only.
    fn make_room(&mut self, need: Need) -> Result<(), AllocError>
        ensures room { OnOk result (IsEnough self.new.room need) }
        ensures kept { KeepsRoom self.old.room self.new.room }
        ensures same { self.new.units ≡ self.old.units }
        ensures kind { self.new.kind ≡ self.old.kind }
        ensures spans { self.new.spans ≡ self.old.spans }
        ensures grown { Extends self.old.buffers self.new.buffers }
        ensures appended { unit_count self.new.buffers ≡ unit_count self.old.buffers }
    {
        self.chunks
            .reserve(need.most_units()?, need.most_breaks()?)?;
        self.pieces.reserve(need.edits)
    }

    /// Returns the length of the text in units.
    pub fn len(&self) -> u64
        ensures units { result ≡ length self.now.units }
        ensures small { result < 2 ^ 62 }
    {
        self.view().len()
    }

    /// Returns the number of lines.
    pub fn line_count(&self) -> u64
        ensures { result ≡ length (lines_of self.now.units) }
    {
        self.view().line_count()
    }

    /// Returns the buffers that the pieces refer to.
    pub fn chunks(&self) -> &Chunks
        ensures { result.now.buffers ≡ self.now.buffers }
    {
        &self.chunks
    }

    /// Appends the spans of the pieces, in order. On an error `out` is unchanged.
    pub fn spans(&self, out: &mut Vec<ChunkSpan>) -> Result<(), AllocError>
        ensures spelled { self.now.units ≡ flat_map (units_at self.now.buffers) self.now.spans }
        ensures inside { All (LiesIn self.now.buffers) self.now.spans }
        ensures ok { OnOk result (out.new.items ≡ out.old.items ++ self.now.spans) }
        ensures err { OnErr result (out.new.items ≡ out.old.items) }
    {
        self.pieces.spans(out)
    }

    /// Converts a position into an offset; None if the position is invalid. The looked-up pieces are remembered for the next edit, as by
    /// `seek`.
    pub fn locate(&mut self, position: Position) -> Option<u64>
        ensures offset { result ≡ (if is_position self.old.units position
            then Some (offset_of self.old.units position) else None) }
        ensures same { self.new ≡ self.old }
    {
        look_up_line(&self.pieces, position.line, &mut self.remembered);
        let offset = self.offset(position)?;
        look_up_unit(&self.pieces, &None, offset, &mut self.remembered);
        Some(offset)
    }

    /// Looks up the pieces at both ends of the spans of the ops, and remembers them in addition to those located before. Each is remembered
    /// until the text changes at it or before it, so the ops need no search if they are carried out from the last to the first. Does nothing
    /// if memory is short.
    pub fn seek(&mut self, ops: &[Op])
        ensures { self.new ≡ self.old }
    {
        look_up_all(&self.pieces, ops, &mut self.remembered);
    }

    /// Replaces the span by the text, and returns the lines that this touched, as `dirty_lines` does. If only few units are left of a cut
    /// piece, they are appended with the text. It takes no memory.
    pub fn replace(&mut self, span: Span, text: &[u16]) -> Dirty
        requires ordered { span.start ≤ span.end }
        requires within { span.end ≤ length self.old.units }
        requires room { IsEnough self.old.room (need_of_edit text.now) }
        requires small { length (edited self.old.units
            (record { span = span; text = text.now; force = false })) < 2 ^ 62 }
        requires kind { IsOfKind self.old.kind (edited self.old.units
            (record { span = span; text = text.now; force = false })) }
        ensures kind { self.new.kind ≡ self.old.kind }
        ensures units { self.new.units
            ≡ edited self.old.units (record { span = span; text = text.now; force = false }) }
        ensures pieces { length self.new.spans ≤ length self.old.spans + 2 * part_count text.now }
        ensures taken { LeavesLittle self.old span
            → length self.new.spans + 2 ≤ length self.old.spans + 2 * part_count text.now }
        ensures typed { TypesOn self.old self.new span text.now }
        ensures grows { CanTypeOn self.old self.new span text.now }
        ensures appended { unit_count self.new.buffers
            ≤ unit_count self.old.buffers + length text.now
            + units_beside_text * part_count text.now }
        ensures eight { unit_count self.new.buffers
            ≤ unit_count self.old.buffers + length text.now + 8 * part_count text.now }
        ensures grown { Extends self.old.buffers self.new.buffers }
        ensures spent { HasSpent (need_of_edit text.now) self.old.room self.new.room }
        ensures dirty { result ≡ dirty_lines self.old.units span text.now }
        ensures before { AreSameBefore result self.old.units self.new.units }
        ensures after { AreSameBehind result self.old.units self.new.units }
    {
        self.replace_again(span, text, &mut None)
    }

    /// Like `replace`, for a text that may still be in the buffers, as after an undo. If it is at `place` and no units come with it, it is
    /// not appended. Sets `place` to where the text is now, or to None if it has several parts. Any `place` is allowed.
    pub fn replace_again(
        &mut self,
        span: Span,
        text: &[u16],
        place: &mut Option<ChunkSpan>,
    ) -> Dirty
        requires ordered { span.start ≤ span.end }
        requires within { span.end ≤ length self.old.units }
        requires room { IsEnough self.old.room (need_of_edit text.now) }
        requires small { length (edited self.old.units
            (record { span = span; text = text.now; force = false })) < 2 ^ 62 }
        requires kind { IsOfKind self.old.kind (edited self.old.units
            (record { span = span; text = text.now; force = false })) }
        ensures kind { self.new.kind ≡ self.old.kind }
        ensures units { self.new.units
            ≡ edited self.old.units (record { span = span; text = text.now; force = false }) }
        ensures pieces { length self.new.spans ≤ length self.old.spans + 2 * part_count text.now }
        ensures taken { LeavesLittle self.old span
            → length self.new.spans + 2 ≤ length self.old.spans + 2 * part_count text.now }
        ensures typed { place.old ≡ None → TypesOn self.old self.new span text.now }
        ensures grows { place.old ≡ None → CanTypeOn self.old self.new span text.now }
        ensures appended { unit_count self.new.buffers
            ≤ unit_count self.old.buffers + length text.now
            + units_beside_text * part_count text.now }
        ensures eight { unit_count self.new.buffers
            ≤ unit_count self.old.buffers + length text.now + 8 * part_count text.now }
        ensures grown { Extends self.old.buffers self.new.buffers }
        ensures spent { HasSpent (need_of_edit text.now) self.old.room self.new.room }
        ensures dirty { result ≡ dirty_lines self.old.units span text.now }
        ensures before { AreSameBefore result self.old.units self.new.units }
        ensures after { AreSameBehind result self.old.units self.new.units }
    {
        if text.len() <= MOST_PART {
            return self.replace_part(span, text, place);
        }
        let dirty = self.dirty_lines(span, text);
        let kind = self.kind;
        // A part may end inside a line ending.
        self.kind = Kind::Mixed;
        self.replace_parts(span, text);
        self.kind = kind;
        *place = None;
        dirty
    }

    /// Replaces the whole text by these units, whose line endings are of the kind. Room for them is reserved. It takes no memory.
    pub fn recast(&mut self, kind: Kind, units: &[u16])
        requires endings { IsOfKind kind units.now }
        requires small { length units.now < 2 ^ 62 }
        requires room { IsEnough self.old.room (need_of_edit units.now) }
        ensures units { self.new.units ≡ units.now }
        ensures kind { self.new.kind ≡ kind }
        ensures pieces { length self.new.spans < 2 * part_count units.now }
        ensures few { length self.new.spans ≤ length units.now }
        ensures appended { unit_count self.new.buffers
            ≤ unit_count self.old.buffers + length units.now + 8 * part_count units.now }
        ensures grown { Extends self.old.buffers self.new.buffers }
        ensures spent { HasSpent (need_of_edit units.now) self.old.room self.new.room }
    {
        self.recast_again(kind, units, &mut None);
    }

    /// Like `recast`, for a text that may still be in the buffers. If it is at `place`, it is not appended. Sets `place` to where the text is
    /// now, or to None if it has several parts. Any `place` is allowed.
    pub fn recast_again(&mut self, kind: Kind, units: &[u16], place: &mut Option<ChunkSpan>)
        requires endings { IsOfKind kind units.now }
        requires small { length units.now < 2 ^ 62 }
        requires room { IsEnough self.old.room (need_of_edit units.now) }
        ensures units { self.new.units ≡ units.now }
        ensures kind { self.new.kind ≡ kind }
        ensures pieces { length self.new.spans < 2 * part_count units.now }
        ensures few { length self.new.spans ≤ length units.now }
        ensures appended { unit_count self.new.buffers
            ≤ unit_count self.old.buffers + length units.now + 8 * part_count units.now }
        ensures grown { Extends self.old.buffers self.new.buffers }
        ensures spent { HasSpent (need_of_edit units.now) self.old.room self.new.room }
    {
        if units.len() <= MOST_PART {
            return self.recast_part(kind, units, place);
        }
        let (first, rest) = units.split_at(MOST_PART);
        let end = MOST_PART as u64;
        self.recast_part(Kind::Mixed, first, &mut None);
        self.replace_parts(Span { start: end, end }, rest);
        self.kind = kind;
        *place = None;
    }

    /// Returns a reader of the lines, for one after another.
    pub fn lines(&self) -> LineReader<'_>
        ensures { result ≡ self.now.units }
    {
        LineReader::new(&self.view())
    }

    /// Appends the content of a line, counted from 1. On an error `out` is unchanged.
    pub fn line(&self, n: u64, out: &mut Vec<u16>) -> Result<(), AllocError>
        requires first { 0 < n }
        requires there { n ≤ length (lines_of self.now.units) }
        ensures ok { (line : Line) → line_at self.now.units n ≡ Some line
            → OnOk result (out.new.items ≡ out.old.items ++ line.content) }
        ensures err { OnErr result (out.new.items ≡ out.old.items) }
    {
        self.lines().line(n, out)
    }

    /// Converts an offset into a position; None if the offset is invalid. Each visited node is a step.
    pub fn position_at<L>(&self, offset: u64, steps: &mut Steps<L>) -> Option<Position>
        ensures position { result ≡ (if is_place_in self.now.kind self.now.units offset
            then Some (position_of self.now.units offset) else None) }
        ensures cost { WithinLookUps 3 (length self.now.spans) (steps.new - steps.old) }
    {
        self.view().position_at(self.kind, offset, steps)
    }

    /// Converts a position into an offset; None if the position is invalid. Each visited node is a step.
    pub fn offset_at<L>(&self, position: Position, steps: &mut Steps<L>) -> Option<u64>
        ensures offset { result ≡ (if is_position self.now.units position
            then Some (offset_of self.now.units position) else None) }
        ensures cost { WithinLookUps 4 (length self.now.spans) (steps.new - steps.old) }
    {
        self.view().offset_at(position, steps)
    }

    /// Like `offset_at`, without counting steps.
    pub fn offset(&self, position: Position) -> Option<u64>
        ensures { result ≡ (if is_position self.now.units position
            then Some (offset_of self.now.units position) else None) }
    {
        self.offset_at(position, &mut Steps::new())
    }

    /// Returns the lines that an edit would touch that replaces the span by these units, and the number of lines that would replace them.
    /// All other lines stay the same. It takes no memory.
    #[tactic(auto, using(crate::proofs::Touched::before_dirty, crate::proofs::Touched::after_dirty))]
    pub fn dirty_lines(&self, span: Span, text: &[u16]) -> Dirty
        requires ordered { span.start ≤ span.end }
        requires within { span.end ≤ length self.now.units }
        ensures dirty { result ≡ dirty_lines self.now.units span text.now }
        ensures before { AreSameBefore result self.now.units (replaced self.now.units span text.now) }
        ensures after { AreSameBehind result self.now.units (replaced self.now.units span text.now) }
    {
        let view = self.view();
        let ends = view.ends_of(span);
        view.dirty_between(&ends, view.joins_of(&ends, text), text)
    }

    /// Appends the units of the span. On an error `out` is unchanged.
    pub fn value(&self, span: Span, out: &mut Vec<u16>) -> Result<(), AllocError>
        requires ordered { span.start ≤ span.end }
        requires within { span.end ≤ length self.now.units }
        ensures ok { OnOk result (out.new.items
            ≡ out.old.items ++ take (span.end - span.start) (drop span.start self.now.units)) }
        ensures err { OnErr result (out.new.items ≡ out.old.items) }
    {
        out.reserve((span.end - span.start) as usize)?;
        self.view().push_span(span, out);
        Ok(())
    }

    /// Reads units from the offset on into `out`, as many as fit and exist. Returns their number.
    pub fn read_into(&self, at: u64, out: &mut [u16]) -> usize
        requires within { at ≤ length self.now.units }
        ensures count { result ≡ min (length out.old) (length self.now.units - at) }
        ensures units { out.new ≡ take result (drop at self.now.units) ++ drop result out.old }
    {
        self.runs_from(at).read_into(out)
    }

    /// Returns a reader of the units from the offset on, run by run.
    pub fn runs_from(&self, offset: u64) -> Runs<'_>
        requires { offset ≤ length self.now.units }
        ensures left { result.left ≡ rest_from offset (runs_of self.now.buffers self.now.spans) }
        ensures units { concat result.left ≡ drop offset self.now.units }
        ensures due { WithinLookUps 2 (length self.now.spans) result.due }
    {
        Runs::new(&self.view(), offset)
    }

    fn view(&self) -> View<'_>
        ensures text { text_of self.now.kind result.pieces.now result.chunks.now ≡ self.now }
        ensures view { IsView result }
    {
        View {
            pieces: &self.pieces,
            chunks: &self.chunks,
            remembered: &self.remembered,
        }
    }
}

impl Flat for TextBuffer {
    ghost units = { λ text. text.units };

    ghost kind = { λ text. text.kind };

    fn kind(&self) -> Kind {
        self.kind
    }

    fn len(&self) -> u64 {
        TextBuffer::len(self)
    }

    fn is_place(&self, offset: u64) -> bool {
        self.are_places(offset, offset)
    }

    fn are_places(&self, start: u64, end: u64) -> bool {
        self.view().has_places(self.kind, start, end)
    }

    fn run(&self, at: u64) -> &[u16] {
        self.view().run_at(at)
    }

    fn copy(&self, start: u64, end: u64, out: &mut Vec<u16>) -> Result<(), AllocError> {
        self.value(Span { start, end }, out)
    }
}
