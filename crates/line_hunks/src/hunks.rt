//! The marks of a text's lines.

ghost use Rattle.std.specs.Prelude.{◌≡◌, ◌+◌, ◌-◌, ◌^◌, ◌<◌, ◌≤◌, [], ◌∷◌, ◌++◌, drop, length, replicate, false, not, OnOk, OnErr, IfSome, IfNone};
ghost use Rattle.mark_rules.specs.declared.Mark.TheVariants.{New};
ghost use Rattle.mark_rules.specs.Marks.{clean_marks, edited_marks, kept_marks, mark_at, kept_run, new_run, has_new, SpansNew, Rises};
ghost use Rattle.line_hunks.specs.Numbers.{AreNumbers};

use crate::runs::Runs;
use mark_rules::Mark;
use std::alloc::{AllocError, Global};
use std::marker::Model;

/// One mark for each line of a text, in order. Lines are numbered from 1; there is at least one, and fewer than 2^62.
///
/// The marks are stored as runs in a balanced tree, with a gap at the last edit. A look-up takes time logarithmic in
/// the number of runs. An edit does too, and once more for each run that it removes. Typing at one place touches no run
/// beside it.
#[derive(Drop)]
pub struct Hunks {
    runs: Runs,
}

impl Model for Hunks {
    ghost use Rattle.std.specs.Prelude.{◌/◌};
    ghost use Rattle.mark_rules.specs.Marks.{Rises};
    ghost use Rattle.line_hunks.specs.Hunks.{Shown};
    ghost use Rattle.line_hunks.specs.Runs.{all_marks, IsWhole};

    ghost Value = { Shown };

    ghost view = { λ h. record {
      marks = all_marks h.runs;
      spare = h.runs.sides.room / 2;
    } };

    ghost invariant = { λ h. IsWhole h.runs × Rises (all_marks h.runs) };
}

impl Hunks {
    /// Creates the marks of one line, which is new. Allocates no memory.
    pub fn new(alloc: Global) -> Hunks
        ensures { result.marks ≡ New ∷ [] }
    {
        Hunks::all_new(alloc, 1)
    }

    /// Creates the marks of `lines` new lines. Allocates no memory.
    pub fn all_new(alloc: Global, lines: u64) -> Hunks
        requires some { 1 ≤ lines }
        requires fits { lines < 2 ^ 62 }
        ensures { result.marks ≡ replicate lines New }
    {
        Hunks {
            runs: Runs::all_new(alloc, lines),
        }
    }

    /// Creates the marks of `lines` lines kept with consecutive numbers from `first` on. Allocates no memory.
    pub fn all_kept(alloc: Global, first: u64, lines: u64) -> Hunks
        requires first { 1 ≤ first }
        requires some { 1 ≤ lines }
        requires fits { lines < 2 ^ 62 }
        requires range { first + lines ≤ 2 ^ 62 }
        ensures { result.marks ≡ kept_marks first lines }
    {
        Hunks {
            runs: Runs::all_kept(alloc, first, lines),
        }
    }

    /// Makes room for `edits` edits. Only this and the pushes allocate memory. Also after an error the marks are
    /// unchanged and room that was there stays.
    pub fn reserve(&mut self, edits: u64) -> Result<(), AllocError>
        ensures room { OnOk result (edits ≤ self.new.spare) }
        ensures marks { self.new.marks ≡ self.old.marks }
        ensures kept { self.old.spare ≤ self.new.spare }
    {
        self.runs.reserve(edits)
    }

    /// Replaces the `old` lines from line `first` on by `new` new lines. Neither number is 0. Allocates no memory.
    pub fn edit(&mut self, first: u64, old: u64, new: u64)
        requires room { 0 < self.old.spare }
        requires first { 1 ≤ first }
        requires some { 1 ≤ old }
        requires within { first - 1 + old ≤ length self.old.marks }
        requires new { 1 ≤ new }
        requires fits { length self.old.marks - old + new < 2 ^ 62 }
        ensures marks { self.new.marks ≡ edited_marks first old new self.old.marks }
        ensures room { self.old.spare ≤ self.new.spare + 1 }
    {
        self.runs.edit(first, old, new);
    }

    /// Marks all lines as kept, after a parse of the text, which has `lines` lines now.
    pub fn clean(&mut self, lines: u64)
        requires some { 1 ≤ lines }
        requires fits { lines < 2 ^ 62 }
        ensures marks { self.new.marks ≡ clean_marks lines }
        ensures room { self.old.spare ≤ self.new.spare }
    {
        self.runs.clean(lines);
    }

    /// Appends `lines` new lines. After an error the marks are unchanged.
    pub fn push_new(&mut self, lines: u64) -> Result<(), AllocError>
        requires some { 1 ≤ lines }
        requires fits { length self.old.marks + lines < 2 ^ 62 }
        ensures ok { OnOk result (self.new.marks ≡ self.old.marks ++ replicate lines New) }
        ensures err { OnErr result (self.new.marks ≡ self.old.marks) }
        ensures room { self.old.spare ≤ self.new.spare + 1 }
    {
        self.runs.reserve(1)?;
        self.runs.push_new(lines);
        Ok(())
    }

    /// Appends `lines` lines kept with consecutive numbers from `first` on. The last line before them is new. After an
    /// error the marks are unchanged.
    pub fn push_kept(&mut self, first: u64, lines: u64) -> Result<(), AllocError>
        requires some { 1 ≤ lines }
        requires fits { length self.old.marks + lines < 2 ^ 62 }
        requires range { first + lines ≤ 2 ^ 62 }
        requires new { mark_at (length self.old.marks) self.old.marks ≡ New }
        requires rises { Rises (self.old.marks ++ kept_marks first lines) }
        ensures ok { OnOk result (self.new.marks ≡ self.old.marks ++ kept_marks first lines) }
        ensures err { OnErr result (self.new.marks ≡ self.old.marks) }
        ensures room { self.old.spare ≤ self.new.spare + 1 }
    {
        self.runs.reserve(1)?;
        self.runs.push_kept(first, lines);
        Ok(())
    }

    /// Returns the number of lines.
    pub fn lines(&self) -> u64
        ensures lines { result ≡ length self.now.marks }
        ensures some { 1 ≤ result }
        ensures fits { result < 2 ^ 62 }
        ensures rises { Rises self.now.marks }
    {
        self.runs.lines()
    }

    /// Returns the mark of line `n`, and the number of lines from it on that are kept with consecutive numbers: 0 if
    /// line `n` is new. Takes one look-up.
    pub fn at(&self, n: u64) -> (Mark, u64)
        requires some { 1 ≤ n }
        requires within { n ≤ length self.now.marks }
        ensures mark { result.0 ≡ mark_at n self.now.marks }
        ensures kept { result.1 ≡ kept_run (drop (n - 1) self.now.marks) }
        ensures range { AreNumbers result.0 result.1 }
    {
        let place = self.runs.place(n);
        let (_before, rest) = place.run.split(place.before);
        (rest.first, rest.kept())
    }

    /// Returns the mark of line `n`.
    pub fn mark(&self, n: u64) -> Mark
        requires some { 1 ≤ n }
        requires within { n ≤ length self.now.marks }
        ensures { result ≡ mark_at n self.now.marks }
    {
        self.at(n).0
    }

    /// Returns the number of lines from line `n` on that are kept with consecutive numbers; 0 if line `n` is new.
    pub fn kept_from(&self, n: u64) -> u64
        requires some { 1 ≤ n }
        requires within { n ≤ length self.now.marks }
        ensures { result ≡ kept_run (drop (n - 1) self.now.marks) }
    {
        self.at(n).1
    }

    /// Returns the number of lines from line `n` to the next kept line or the end; 0 if line `n` is kept. Takes one
    /// look-up.
    pub fn new_from(&self, n: u64) -> u64
        requires some { 1 ≤ n }
        requires within { n ≤ length self.now.marks }
        ensures { result ≡ new_run (drop (n - 1) self.now.marks) }
    {
        let place = self.runs.place(n);
        place.run.split(place.before).1.fresh()
    }

    /// Returns the first and the last new line; None if no line is new. Allocates no memory.
    pub fn stale(&self) -> Option<(u64, u64)>
        ensures none { IfNone result (has_new self.now.marks ≡ false) }
        ensures some { IfSome result (λ ends. SpansNew self.now.marks ends.0 ends.1) }
    {
        self.runs.stale()
    }

    /// Returns whether no line is new.
    pub fn is_clean(&self) -> bool
        ensures { result ≡ not (has_new self.now.marks) }
    {
        self.runs.is_clean()
    }
}
