//! Reads the units of a text from an offset on, run by run.

ghost use Rattle.std.specs.Prelude.{◌≡◌, ◌∷◌, ◌+◌, ◌-◌, ◌<◌, ◌≤◌, ◌++◌, [], length, take, drop, min, vec_len, vec_capacity, MatchOption, IfSome};
ghost use Rattle.std.specs.List.{concat};
ghost use Rattle.std.specs.Option.{ForNone};
ghost use Rattle.piece_tree.specs.Costs.{WithinLookUps};
ghost use Rattle.text_buffer.specs.Reading.{rest_from};
ghost use Rattle.text_buffer.specs.Views.{IsView, units_in, entries_in, runs_in};

use crate::rest::Rest;
use crate::view::View;
use chunk_buffers::Chunks;
use std::marker::Model;
use steps::Steps;
use text_lengths::Span;
use unit_text::Reader;

/// A reader of a text from an offset on. Each run is a piece, or the rest of one. The reader makes at most one search. Contracts see the
/// remaining runs, and how many steps it may still take beyond three for each run.
#[derive(Drop)]
pub struct Runs<'t> {
    chunks: &'t Chunks,
    rest: Rest<'t>,
}

impl<'t> Model for Runs<'t> {
    ghost use Rattle.text_buffer.specs.Reading.{Reading, runs_of, spans_left, pieces_left, CanRead};

    ghost Value = { Reading };

    ghost view = { λ r. record { left = runs_of r.chunks.now.buffers (spans_left r.rest); due = r.rest.behind.due } };

    ghost invariant = { λ r. CanRead r.chunks.now.buffers (pieces_left r.chunks.now.buffers r.rest) };
}

impl<'t> Runs<'t> {
    // Makes a reader of the text from the offset on.
    #[tactic(auto, using(crate::proofs::Reading::starting))]
    pub(crate) fn new(view: &View<'t>, offset: u64) -> Runs<'t>
        requires view { IsView view.now }
        requires within { offset ≤ length (units_in view.now) }
        ensures left { result.left ≡ rest_from offset (runs_in view.now) }
        ensures units { concat result.left ≡ drop offset (units_in view.now) }
        ensures due { WithinLookUps 2 (length (entries_in view.now)) result.due }
    {
        Runs {
            chunks: view.chunks,
            rest: view.rest_from(&None, offset),
        }
    }

    /// Returns the next run of units; None at the end. Each visited node is a step.
    #[tactic(auto, using(crate::proofs::Reading::reads_on))]
    pub fn next_counted<L>(&mut self, steps: &mut Steps<L>) -> Option<&'t [u16]>
        ensures run { MatchOption result (self.old.left ≡ [])
            (λ run. self.old.left ≡ run.now ∷ self.new.left) }
        ensures some { IfSome result (λ run. 0 < length run.now) }
        ensures end { ForNone result (self.new.left ≡ []) }
        ensures cost { (steps.new - steps.old) + self.new.due ≤ self.old.due + 3 }
    {
        let span = self.rest.next(steps)?;
        Some(self.chunks.units(span))
    }

    /// Like `next_counted`, without counting steps.
    pub fn next(&mut self) -> Option<&'t [u16]>
        ensures run { MatchOption result (self.old.left ≡ [])
            (λ run. self.old.left ≡ run.now ∷ self.new.left) }
        ensures some { IfSome result (λ run. 0 < length run.now) }
        ensures end { ForNone result (self.new.left ≡ []) }
        ensures due { self.new.due ≤ self.old.due + 3 }
    {
        self.next_counted(&mut Steps::new())
    }

    /// Reads the next units into `out`, as many as fit. Returns their number.
    pub(crate) fn read_into(&mut self, out: &mut [u16]) -> usize
        ensures count { result ≡ min (length out.old) (length (concat self.old.left)) }
        ensures units { out.new ≡ take result (concat self.old.left) ++ drop result out.old }
    {
        let mut done = 0;
        while done < out.len() {
            let Some(run) = self.next() else {
                return done;
            };
            done += copy_at(run, done, out);
        }
        done
    }
}

impl<'t> Reader<'t> for Runs<'t> {
    ghost left = { λ reading. concat reading.left };

    fn next_run(&mut self) -> Option<&'t [u16]> {
        self.next()
    }
}

impl View<'_> {
    /// Appends the units of the span. Room for them is reserved.
    pub(crate) fn push_span(&self, span: Span, out: &mut Vec<u16>)
        requires view { IsView self.now }
        requires ordered { span.start ≤ span.end }
        requires within { span.end ≤ length (units_in self.now) }
        requires room { vec_len out.old + (span.end - span.start) ≤ vec_capacity out.old }
        ensures { out.new.items ≡ out.old.items ++ take (span.end - span.start)
            (drop span.start (units_in self.now)) }
    {
        if span.start == span.end {
            return;
        }
        let mut runs = Runs::new(self, span.start);
        let mut left = span.end - span.start;
        while left > 0 {
            let Some(run) = runs.next() else {
                unreachable!();
            };
            left -= push_first(run, left, out);
        }
    }
}

// Appends the first units, at most `most`. Room for them is reserved. Returns their number.
fn push_first(units: &[u16], most: u64, out: &mut Vec<u16>) -> u64
    requires { vec_len out.old + most ≤ vec_capacity out.old }
    ensures count { result ≡ min most (length units.now) }
    ensures items { out.new.items ≡ out.old.items ++ take most units.now }
    ensures room { vec_len out.new + (most - result) ≤ vec_capacity out.new }
{
    let count = (units.len() as u64).min(most);
    let _ = out.extend_from_slice(&units[..count as usize]);
    count
}

// Copies as many units as fit into `out` from the index `at` on. Returns their number.
fn copy_at(units: &[u16], at: usize, out: &mut [u16]) -> usize
    requires { at ≤ length out.old }
    ensures count { result ≡ min (length units.now) (length out.old - at) }
    ensures units { out.new
        ≡ take at out.old ++ (take result units.now ++ drop (at + result) out.old) }
{
    let count = units.len().min(out.len() - at);
    out[at..at + count].copy_from_slice(&units[..count]);
    count
}
