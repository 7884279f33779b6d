//! Texts that are read in order, run by run.

ghost use Rattle.std.specs.Prelude.{◌≡◌, ◌<◌, ◌≤◌, ◌^◌, ◌++◌, ℕ, List, [], length, drop, MatchOption, IfSome};

use crate::flat::Flat;
use std::marker::Model;

/// A text that is read in order, run by run.
pub trait Reader<'t>: Drop {
    ghost left: { Self → List ℕ };

    /// Returns the next run of units, which is not empty; None at the end of the text.
    fn next_run(&mut self) -> Option<&'t [u16]>
        ensures run { MatchOption result (left self.old ≡ [])
            (λ run. left self.old ≡ run.now ++ left self.new) }
        ensures some { IfSome result (λ run. 0 < length run.now) };
}

/// A reader that calls `Flat::run` for each run.
#[derive(Drop)]
pub struct ByRuns<'t, F: Flat> {
    text: &'t F,
    at: u64,
    end: u64,
}

impl<'t, F: Flat> Model for ByRuns<'t, F> {
    ghost use Rattle.std.specs.Prelude.{List, ℕ, ◌≡◌, ◌≤◌, length, drop};

    ghost Value = { List ℕ };

    ghost view = { λ r. drop r.at (F.units r.text.now) };

    ghost invariant = { λ r. (r.at ≤ r.end) × (r.end ≡ length (F.units r.text.now)) };
}

impl<'t, F: Flat> ByRuns<'t, F> {
    /// Returns a reader of the whole text.
    pub fn new(text: &'t F) -> ByRuns<'t, F>
        ensures all { result ≡ F.units text.now }
        ensures small { length result < 2 ^ 64 }
    {
        ByRuns {
            text,
            at: 0,
            end: text.len(),
        }
    }
}

impl<'t, F: Flat> Reader<'t> for ByRuns<'t, F> {
    ghost left = { λ units. units };

    fn next_run(&mut self) -> Option<&'t [u16]> {
        if self.at == self.end {
            return None;
        }
        let run = self.text.run(self.at);
        self.at += run.len() as u64;
        Some(run)
    }
}
