//! Lines in a row that are all new, or kept with consecutive numbers.

ghost use Rattle.std.specs.Prelude.{◌≡◌, ◌-◌, ◌<◌, ◌≤◌};
ghost use Rattle.mark_rules.specs.declared.Mark.TheVariants.{New};
ghost use Rattle.line_hunks.specs.Run.{later_mark, head_of, tail_of, kept_lines, new_of, IsInRange};

use mark_rules::Mark;

/// A run of lines: all new, or kept with consecutive numbers. It is empty only while an edit is under way.
#[derive(Clone, Copy)]
pub(crate) struct Run {
    /// The mark of the first line; in an empty run, the mark that its first line would have.
    pub first: Mark,
    pub lines: u64,
}

/// A line of a run, with `before` lines of the run before it.
#[derive(Clone, Copy)]
pub(crate) struct Place {
    pub run: Run,
    pub before: u64,
}

impl Run {
    /// Returns the mark of the line with `before` lines of the run before it.
    pub(crate) fn mark(self, before: u64) -> Mark
        requires within { before ≤ self.lines }
        requires range { IsInRange self }
        ensures { result ≡ later_mark self.first before }
    {
        match self.first {
            Mark::Kept(number) => Mark::Kept(number + before),
            Mark::New => Mark::New,
        }
    }

    /// Returns the number of kept lines: all or 0.
    pub(crate) fn kept(self) -> u64
        ensures { result ≡ kept_lines self }
    {
        match self.first {
            Mark::Kept(_) => self.lines,
            Mark::New => 0,
        }
    }

    /// Returns the number of new lines: all or 0.
    pub(crate) fn fresh(self) -> u64
        ensures { result ≡ new_of self.first self.lines }
    {
        match self.first {
            Mark::Kept(_) => 0,
            Mark::New => self.lines,
        }
    }

    /// Splits the run into its first `before` lines and the rest.
    pub(crate) fn split(self, before: u64) -> (Run, Run)
        requires within { before ≤ self.lines }
        requires range { IsInRange self }
        ensures before { result.0 ≡ head_of self before }
        ensures behind { result.1 ≡ tail_of self before }
    {
        let taken = Run {
            first: self.first,
            lines: before,
        };
        let left = Run {
            first: self.mark(before),
            lines: self.lines - before,
        };
        (taken, left)
    }
}
