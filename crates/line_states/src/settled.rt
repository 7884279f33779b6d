//! The result of settling the lines of a text.

ghost use Rattle.std.specs.Prelude.{◌≡◌, ◌-◌, ◌≤◌, length, slice_index_or};
ghost use Rattle.hiding_rules.specs.declared.LineState.TheVariants.{Code};

use crate::states::LineStates;
use hiding_rules::LineState;
use line_hunks::Hunks;
use std::marker::Model;

/// The state in which each line of a text begins, and which lines are new or restarted.
#[derive(Drop)]
pub struct Settled<'s> {
    pub(crate) marks: Marks<'s>,
    pub(crate) states: LineStates,
}

/// The marks of lines: borrowed and unchanged if no line was restarted, or owned.
#[derive(Drop)]
pub(crate) enum Marks<'s> {
    Same(&'s Hunks),
    Own(Hunks),
}

impl<'s> Model for Settled<'s> {
    ghost use Rattle.std.specs.Prelude.{◌≡◌, length};
    ghost use Rattle.line_states.specs.Settling.{SettledState};
    ghost use Rattle.line_states.specs.Owned.{marks_of};

    ghost Value = { SettledState };

    ghost view = { λ s. record { marks = marks_of s.marks; states = s.states } };

    ghost invariant = { λ s. length s.states.begins ≡ length (marks_of s.marks) };
}

impl<'s> Settled<'s> {
    /// Returns the marks of the lines; a restarted line is marked as new.
    pub fn hunks(&self) -> &Hunks
        ensures { result.now.marks ≡ self.now.marks }
    {
        match &self.marks {
            Marks::Same(hunks) => hunks,
            Marks::Own(hunks) => hunks,
        }
    }

    /// Returns the state in which line `n` begins, counted from 1.
    pub fn state(&self, n: u64) -> LineState
        requires some { 1 ≤ n }
        requires within { n ≤ length self.now.states.begins }
        ensures { result ≡ slice_index_or self.now.states.begins (n - 1) Code }
    {
        self.states.state(n)
    }

    /// Returns the states of the lines, for the next parse.
    pub fn into_states(self) -> LineStates
        ensures states { result ≡ self.entry.states }
        ensures count { length result.begins ≡ length self.entry.marks }
    {
        self.states
    }
}
