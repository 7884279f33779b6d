//! The runs of a text, with a gap at the last edit.

ghost use Rattle.std.specs.Prelude.{◌≡◌, ◌+◌, ◌-◌, ◌*◌, ◌^◌, ◌<◌, ◌≤◌, ◌++◌, [], not, replicate, OnOk};
ghost use Rattle.mark_rules.specs.declared.Mark.TheVariants.{New};
ghost use Rattle.mark_rules.specs.Marks.{clean_marks, edited_marks, kept_marks, mark_at};
ghost use Rattle.line_hunks.specs.Run.{is_new, run_marks, lines_in, IsInRange};
ghost use Rattle.line_hunks.specs.Runs.{all_marks, line_count, IsWhole};

use crate::edges::{set_back, set_front, take_lines};
use crate::run::Run;
use crate::sides::Sides;
use mark_rules::Mark;
use std::alloc::{AllocError, Global};

/// The runs of a text. Beside a run of new lines stand runs of kept ones.
#[derive(Drop)]
pub(crate) struct Runs {
    pub sides: Sides,
    pub gap: Run,
}

impl Runs {
    /// Creates `lines` lines, all new.
    pub(crate) fn all_new(alloc: Global, lines: u64) -> Runs
        requires some { 1 ≤ lines }
        requires fits { lines < 2 ^ 62 }
        ensures whole { IsWhole result }
        ensures marks { all_marks result ≡ replicate lines New }
    {
        Runs {
            sides: Sides::new(alloc),
            gap: Run {
                first: Mark::New,
                lines,
            },
        }
    }

    /// Creates `lines` lines kept with consecutive numbers from `first` on.
    pub(crate) fn all_kept(alloc: Global, first: u64, lines: u64) -> Runs
        requires some { 1 ≤ lines }
        requires fits { lines < 2 ^ 62 }
        requires range { first + lines ≤ 2 ^ 62 }
        ensures whole { IsWhole result }
        ensures marks { all_marks result ≡ kept_marks first lines }
    {
        Runs {
            sides: Sides::new(alloc),
            gap: Run {
                first: Mark::Kept(first),
                lines,
            },
        }
    }

    /// Replaces all runs by `lines` lines kept with consecutive numbers from 1 on.
    pub(crate) fn clean(&mut self, lines: u64)
        requires some { 1 ≤ lines }
        requires fits { lines < 2 ^ 62 }
        ensures whole { IsWhole self.new }
        ensures marks { all_marks self.new ≡ clean_marks lines }
        ensures room { self.old.sides.room ≤ self.new.sides.room }
    {
        self.sides.clear();
        self.gap = Run {
            first: Mark::Kept(1),
            lines,
        };
    }

    /// Makes room for `edits` edits. Also after an error the runs are unchanged and room that was there stays.
    pub(crate) fn reserve(&mut self, edits: u64) -> Result<(), AllocError>
        ensures spare { OnOk result (2 * edits ≤ self.new.sides.room) }
        ensures front { self.new.sides.front ≡ self.old.sides.front }
        ensures gap { self.new.gap ≡ self.old.gap }
        ensures back { self.new.sides.back ≡ self.old.sides.back }
        ensures room { self.old.sides.room ≤ self.new.sides.room }
    {
        let added = edits.checked_mul(2).ok_or(AllocError)?;
        self.sides.reserve(added)
    }

    /// Returns the number of lines.
    pub(crate) fn lines(&self) -> u64
        requires { line_count self.now < 2 ^ 62 }
        ensures { result ≡ line_count self.now }
    {
        self.sides.lines() + self.gap.lines
    }

    /// Moves the gap to the run of the line with `before` lines before it.
    fn seek(&mut self, before: u64)
        requires whole { IsWhole self.old }
        requires room { 0 < self.old.sides.room }
        requires within { before < line_count self.old }
        ensures whole { IsWhole self.new }
        ensures marks { all_marks self.new ≡ all_marks self.old }
        ensures lines { line_count self.new ≡ line_count self.old }
        ensures before { lines_in self.new.sides.front ≤ before }
        ensures reach { before < lines_in self.new.sides.front + self.new.gap.lines }
        ensures room { self.new.sides.room ≡ self.old.sides.room }
    {
        let front = self.sides.front_lines();
        if front <= before && before - front < self.gap.lines {
            return;
        }
        self.gap = self.sides.seek(self.gap, before);
    }

    /// Replaces the `old` lines after the first `before` lines of the gap by `new` new lines.
    fn replace(&mut self, before: u64, old: u64, new: u64)
        requires whole { IsWhole self.old }
        requires room { 2 ≤ self.old.sides.room }
        requires within { before ≤ self.old.gap.lines }
        requires old { lines_in self.old.sides.front + before + old ≤ line_count self.old }
        requires new { 0 < new }
        requires fits { line_count self.old - old + new < 2 ^ 62 }
        ensures whole { IsWhole self.new }
        ensures marks { all_marks self.new
            ≡ edited_marks (lines_in self.old.sides.front + before + 1) old new (all_marks self.old) }
        ensures room { self.old.sides.room ≤ self.new.sides.room + 2 }
    {
        let (head, rest) = self.gap.split(before);
        let tail = take_lines(&mut self.sides, rest, old);
        let joined = set_front(&mut self.sides, head) + set_back(&mut self.sides, tail);
        self.gap = Run {
            first: Mark::New,
            lines: joined + new,
        };
    }

    /// Replaces the `old` lines from line `first` on by `new` new lines.
    pub(crate) fn edit(&mut self, first: u64, old: u64, new: u64)
        requires whole { IsWhole self.old }
        requires room { 2 ≤ self.old.sides.room }
        requires first { 1 ≤ first }
        requires some { 1 ≤ old }
        requires within { first - 1 + old ≤ line_count self.old }
        requires new { 1 ≤ new }
        requires fits { line_count self.old - old + new < 2 ^ 62 }
        ensures whole { IsWhole self.new }
        ensures marks { all_marks self.new ≡ edited_marks first old new (all_marks self.old) }
        ensures room { self.old.sides.room ≤ self.new.sides.room + 2 }
    {
        let before = first - 1;
        self.seek(before);
        let skipped = before - self.sides.front_lines();
        self.replace(skipped, old, new);
    }
    /// Moves the gap to the run of the last line.
    fn seek_end(&mut self)
        requires whole { IsWhole self.old }
        requires room { 0 < self.old.sides.room }
        ensures whole { IsWhole self.new }
        ensures marks { all_marks self.new ≡ all_marks self.old }
        ensures lines { line_count self.new ≡ line_count self.old }
        ensures last { self.new.sides.back ≡ [] }
        ensures room { self.new.sides.room ≡ self.old.sides.room }
    {
        let last = self.lines() - 1;
        self.seek(last);
    }

    /// Appends a run after the last one, which is the gap and of the other kind.
    fn put_last(&mut self, run: Run)
        requires whole { IsWhole self.old }
        requires room { 0 < self.old.sides.room }
        requires last { self.old.sides.back ≡ [] }
        requires other { is_new self.old.gap.first ≡ not (is_new run.first) }
        requires some { 0 < run.lines }
        requires range { IsInRange run }
        requires fits { line_count self.old + run.lines < 2 ^ 62 }
        ensures whole { IsWhole self.new }
        ensures marks { all_marks self.new ≡ all_marks self.old ++ run_marks run }
        ensures room { self.old.sides.room ≤ self.new.sides.room + 1 }
    {
        self.sides.push_front(self.gap);
        self.gap = run;
    }

    /// Appends `lines` new lines.
    pub(crate) fn push_new(&mut self, lines: u64)
        requires whole { IsWhole self.old }
        requires room { 0 < self.old.sides.room }
        requires some { 1 ≤ lines }
        requires fits { line_count self.old + lines < 2 ^ 62 }
        ensures whole { IsWhole self.new }
        ensures marks { all_marks self.new ≡ all_marks self.old ++ replicate lines New }
        ensures room { self.old.sides.room ≤ self.new.sides.room + 1 }
    {
        self.seek_end();
        match self.gap.first {
            Mark::New => self.gap.lines += lines,
            Mark::Kept(_) => self.put_last(Run {
                first: Mark::New,
                lines,
            }),
        }
    }

    /// Appends `lines` lines kept with consecutive numbers from `first` on. The last line before them is new.
    pub(crate) fn push_kept(&mut self, first: u64, lines: u64)
        requires whole { IsWhole self.old }
        requires room { 0 < self.old.sides.room }
        requires some { 1 ≤ lines }
        requires fits { line_count self.old + lines < 2 ^ 62 }
        requires range { first + lines ≤ 2 ^ 62 }
        requires new { mark_at (line_count self.old) (all_marks self.old) ≡ New }
        ensures whole { IsWhole self.new }
        ensures marks { all_marks self.new ≡ all_marks self.old ++ kept_marks first lines }
        ensures room { self.old.sides.room ≤ self.new.sides.room + 1 }
    {
        self.seek_end();
        self.put_last(Run {
            first: Mark::Kept(first),
            lines,
        });
    }
}
