//! The lines of a text, read one after another.

ghost use Rattle.std.specs.Prelude.{◌≡◌, ◌∷◌, ◌+◌, ◌-◌, ◌<◌, ◌≤◌, ◌++◌, Some, None, [], length, take, drop, MatchOption, OnOk, OnErr, IfSome};
ghost use Rattle.chunk_buffers.specs.Chunks.{units_at, part_of, LiesIn};
ghost use Rattle.line_starts.specs.Starts.{break_count};
ghost use Rattle.piece_tree.specs.Pieces.{piece_of};
ghost use Rattle.text_rules.specs.Lines.{Line, lines_of, line_at, line_start};
ghost use Rattle.text_buffer.specs.Reading.{pieces_left, lines_left, lines_from, first_line, CanRead};
ghost use Rattle.text_buffer.specs.Views.{IsView, units_in, buffers_in, GoesOnAfter};

use crate::breaks::without_break;
use crate::rest::Rest;
use crate::view::View;
use chunk_buffers::{ChunkSpan, Chunks};
use std::alloc::AllocError;
use std::marker::Model;
use steps::Steps;

/// A reader of the lines of a text. Contracts see the units of the text. Reading the next line needs no search, unless memory was short at
/// the last one.
#[derive(Drop)]
pub struct LineReader<'t> {
    view: View<'t>,
    // The number of lines before the rest, if there is a rest.
    before: u64,
    rest: Option<Rest<'t>>,
}

impl<'t> Model for LineReader<'t> {
    ghost use Rattle.std.specs.Prelude.{ℕ, List, IfSome};
    ghost use Rattle.text_buffer.specs.Views.{IsView, units_in, GoesOnAfter};

    ghost Value = { List ℕ };

    ghost view = { λ r. units_in r.view };

    ghost invariant = { λ r. IsView r.view × IfSome r.rest (GoesOnAfter r.view r.before) };
}

impl<'t> LineReader<'t> {
    // Makes a reader of the text.
    pub(crate) fn new(view: &View<'t>) -> LineReader<'t>
        requires { IsView view.now }
        ensures { result ≡ units_in view.now }
    {
        LineReader {
            view: *view,
            before: 0,
            rest: None,
        }
    }

    /// Appends the content of a line, counted from 1. On an error `out` is unchanged.
    pub fn line(&mut self, n: u64, out: &mut Vec<u16>) -> Result<(), AllocError>
        requires first { 0 < n }
        requires there { n ≤ length (lines_of self.old) }
        ensures ok { (line : Line) → line_at self.old n ≡ Some line
            → OnOk result (out.new.items ≡ out.old.items ++ line.content) }
        ensures err { OnErr result (out.new.items ≡ out.old.items) }
        ensures same { self.new ≡ self.old }
    {
        let mut rest = rest_at(&self.view, self.before, self.rest.take(), n);
        let kept = out.len();
        match self.view.push_line(&mut rest, out) {
            Ok(()) => {
                self.before = n;
                self.rest = Some(rest);
                Ok(())
            }
            Err(fault) => {
                out.truncate(kept);
                Err(fault)
            }
        }
    }
}

// Returns the rest from line `n` on. Uses the given rest after `before` lines, if possible.
fn rest_at<'t>(view: &View<'t>, before: u64, rest: Option<Rest<'t>>, n: u64) -> Rest<'t>
    requires view { IsView view.now }
    requires rest { IfSome rest (GoesOnAfter view.now before) }
    requires first { 0 < n }
    requires there { n ≤ length (lines_of (units_in view.now)) }
    ensures { GoesOnAfter view.now (n - 1) result }
{
    match rest {
        Some(rest) if before == n - 1 => rest,
        _ => {
            let start = view.start_after(&None, n - 1, &mut Steps::new());
            view.rest_from(&start.found, start.offset)
        }
    }
}

impl View<'_> {
    // Appends the content of the first line of the rest and moves behind that line. On an error a part of it may have been appended.
    fn push_line(&self, rest: &mut Rest<'_>, out: &mut Vec<u16>) -> Result<(), AllocError>
        requires view { IsView self.now }
        requires can { CanRead (buffers_in self.now) (pieces_left (buffers_in self.now) rest.old) }
        ensures can { OnOk result
            (CanRead (buffers_in self.now) (pieces_left (buffers_in self.now) rest.new)) }
        ensures content { OnOk result (out.new.items
            ≡ out.old.items ++ (first_line (lines_left (buffers_in self.now) rest.old)).content) }
        ensures lines { let bs = buffers_in self.now in OnOk result
            (2 ≤ length (lines_left bs rest.old)
            → lines_left bs rest.new ≡ drop 1 (lines_left bs rest.old)) }
        ensures err { OnErr result (take (length out.old.items) out.new.items ≡ out.old.items) }
    {
        while let Some(span) = rest.next(&mut Steps::new()) {
            if let Some(end) = self.chunks.first_break(span) {
                return self.push_end(span, end, rest, out);
            }
            out.extend_from_slice(self.chunks.units(span))?;
        }
        Ok(())
    }

    // Appends the part of the span before its first break, which ends at the offset `end`, and moves behind that break.
    #[tactic(auto, using(crate::proofs::LineCopies::first_inside))]
    fn push_end(
        &self,
        span: ChunkSpan,
        end: u64,
        rest: &mut Rest<'_>,
        out: &mut Vec<u16>,
    ) -> Result<(), AllocError>
        requires can { CanRead (buffers_in self.now)
            (piece_of (buffers_in self.now) span ∷ pieces_left (buffers_in self.now) rest.old) }
        requires taken { rest.old.first ≡ None }
        requires broken { 0 < break_count (units_at (buffers_in self.now) span) }
        requires end { end ≡ line_start (units_at (buffers_in self.now) span) 2 }
        ensures can { OnOk result
            (CanRead (buffers_in self.now) (pieces_left (buffers_in self.now) rest.new)) }
        ensures content { OnOk result (out.new.items ≡ out.old.items
            ++ (first_line (lines_from (buffers_in self.now) span rest.old)).content) }
        ensures lines { OnOk result (lines_left (buffers_in self.now) rest.new
            ≡ drop 1 (lines_from (buffers_in self.now) span rest.old)) }
        ensures err { OnErr result (out.new.items ≡ out.old.items) }
    {
        let units = self.chunks.units(span);
        out.extend_from_slice(without_break(&units[..end as usize]))?;
        rest.first = part_behind(self.chunks, span, end);
        Ok(())
    }
}

// Returns the span from the offset `from` on; None if that is empty.
fn part_behind(chunks: &Chunks, span: ChunkSpan, from: u64) -> Option<ChunkSpan>
    requires inside { LiesIn chunks.now.buffers span }
    requires within { from ≤ span.units }
    ensures { MatchOption result (from ≡ span.units)
        (λ part. (part ≡ part_of span from span.units) × (from < span.units)) }
{
    let end = span.units as u64;
    if from == end {
        return None;
    }
    Some(chunks.part(span, from, end))
}
