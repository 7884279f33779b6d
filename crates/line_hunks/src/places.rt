//! Finds lines in the runs.

ghost use Rattle.std.specs.Prelude.{◌≡◌, ◌≤◌, false, not, IfSome, IfNone};
ghost use Rattle.mark_rules.specs.Marks.{has_new, SpansNew};
ghost use Rattle.line_hunks.specs.Runs.{all_marks, line_count, IsWhole};
ghost use Rattle.line_hunks.specs.Places.{IsPlace};

use crate::run::Place;
use crate::runs::Runs;
use mark_rules::Mark;

impl Runs {
    /// Finds the place of line `n`, counted from 1.
    pub(crate) fn place(&self, n: u64) -> Place
        requires whole { IsWhole self.now }
        requires some { 1 ≤ n }
        requires within { n ≤ line_count self.now }
        ensures { IsPlace (all_marks self.now) n result }
    {
        self.sides.place(self.gap, n - 1)
    }

    /// Returns whether no line is new.
    pub(crate) fn is_clean(&self) -> bool
        requires whole { IsWhole self.now }
        ensures { result ≡ not (has_new (all_marks self.now)) }
    {
        match self.gap.first {
            Mark::New => false,
            // The runs beside a run of kept lines are new.
            Mark::Kept(_) => self.sides.lines() == 0,
        }
    }

    /// Returns the first and the last new line; None if no line is new. The lines outside of them are kept lines of the
    /// first and the last run.
    pub(crate) fn stale(&self) -> Option<(u64, u64)>
        requires whole { IsWhole self.now }
        ensures none { IfNone result (has_new (all_marks self.now) ≡ false) }
        ensures some { IfSome result (λ ends. SpansNew (all_marks self.now) ends.0 ends.1) }
    {
        if self.is_clean() {
            return None;
        }
        let lines = self.lines();
        let before = self.place(1).run.kept();
        let behind = self.place(lines).run.kept();
        Some((before + 1, lines - behind))
    }
}
