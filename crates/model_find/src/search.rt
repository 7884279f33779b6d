//! The state of a search in a text.

ghost use Rattle.std.specs.Prelude.{◌≡◌, ℕ, ◌+◌, ◌-◌, ◌*◌, ◌<◌, ◌≤◌, ◌^◌, false, List, length, take, slice_index, OnOk};
ghost use Rattle.text_lengths.specs.declared.Span.{Span};
ghost use Rattle.model_find.specs.Matching.{AreBorders, may_begin};
ghost use Rattle.model_find.specs.Ahead.{KnowsStarts};

use crate::borders::{cuts_between, extended};
use crate::starts::Starts;
use std::alloc::AllocError;
use steps::Steps;
use text_lengths::Span;
use unit_text::{Kind, Reader};

/// The sought units with their border table, and the state of the search in the text read so far.
#[derive(Drop)]
pub(crate) struct Search<'s> {
    pub kind: Kind,
    pub sought: &'s [u16],
    pub borders: &'s [usize],
    /// The number of units read.
    pub at: u64,
    /// The last unit read; 0 if there is none.
    pub before: u16,
    /// The number of sought units matched at the end of the text read.
    pub matched: usize,
    ghost some: { 0 < length sought.now },
    ghost fronts: { AreBorders kind sought.now borders.now },
    ghost all: { length borders.now ≡ length sought.now },
    ghost few: { matched ≤ length sought.now },
    ghost behind: { matched ≤ at },
}

impl Search<'_> {
    ghost use Rattle.model_find.specs.Searching.{IsSame, StandsIn, ReadsRun, PassesOver, ReadsUnit, SettlesBefore};

    /// Reads the rest of the text and appends the spans found. After an error some of them may be left after the old items of `out`.
    pub(crate) fn through_all<'t, R: Reader<'t>, L>(
        &mut self,
        mut reader: R,
        out: &mut Vec<Span>,
        looks: &mut Steps<L>,
    ) -> Result<(), AllocError>
        requires front { self.old.at ≡ 0 }
        requires small { length (R.left reader) < 2 ^ 64 }
        ensures found { (all : List Span) → StandsIn (R.left reader) all out.old.items self.old
            → OnOk result (out.new.items ≡ all) }
        ensures before { take (length out.old.items) out.new.items ≡ out.old.items }
        ensures cost { looks.new ≤ looks.old + self.old.matched + 4 * length (R.left reader) }
    {
        while let Some(run) = reader.next_run() {
            self.through(run, out, looks)?;
        }
        self.finish(out)
    }

    // Reads the next run of the text and appends the spans found, except one that ends at the end of the run.
    fn through<L>(
        &mut self,
        run: &[u16],
        out: &mut Vec<Span>,
        looks: &mut Steps<L>,
    ) -> Result<(), AllocError>
        requires { self.old.at + length run.now < 2 ^ 64 }
        ensures same { IsSame self.old self.new }
        ensures at { OnOk result (self.new.at ≡ self.old.at + length run.now) }
        ensures reads { OnOk result
            (ReadsRun run.now self.old out.old.items self.new out.new.items) }
        ensures before { take (length out.old.items) out.new.items ≡ out.old.items }
        ensures cost { looks.new + self.new.matched
            ≤ looks.old + self.old.matched + 4 * length run.now }
    {
        let mut starts = Starts::none();
        let mut i = self.skip(run, 0, &mut starts, looks);
        while i < run.len() {
            self.feed(run[i], out, looks)?;
            i = self.skip(run, i + 1, &mut starts, looks);
        }
        Ok(())
    }

    // If nothing is matched, skips offsets of the run at which the sought text can't begin. Returns the offset at which the search goes on.
    fn skip<L>(
        &mut self,
        run: &[u16],
        from: usize,
        starts: &mut Starts,
        looks: &mut Steps<L>,
    ) -> usize
        requires knows { KnowsStarts run.now self.old.sought.now starts.old }
        requires behind { starts.old.at ≤ from }
        requires within { from ≤ length run.now }
        requires read { from ≤ self.old.at }
        requires small { self.old.at + (length run.now - from) < 2 ^ 64 }
        ensures same { IsSame self.old self.new }
        ensures on { from ≤ result }
        ensures within { result ≤ length run.now }
        ensures at { self.new.at ≡ self.old.at + (result - from) }
        ensures matched { self.new.matched ≡ self.old.matched }
        ensures passes { PassesOver run.now from self.old self.new }
        ensures knows { KnowsStarts run.now self.old.sought.now starts.new }
        ensures known { starts.new.at ≤ result }
        ensures cost { looks.new + 2 * (starts.old.at + starts.old.known)
            ≤ looks.old + 2 * (starts.new.at + starts.new.known) }
    {
        if self.matched > 0 {
            return from;
        }
        starts.go_to(from);
        let start = starts.next(run, self.sought, looks);
        self.pass(run, from, start);
        start
    }

    // Skips the offsets of the run from `from` to `to`, at none of which the sought text begins.
    fn pass(&mut self, run: &[u16], from: usize, to: usize)
        requires ordered { from ≤ to }
        requires within { to ≤ length run.now }
        requires small { self.old.at + (to - from) < 2 ^ 64 }
        requires read { from ≤ self.old.at }
        requires matched { self.old.matched ≡ 0 }
        requires none { (k : ℕ) → from ≤ k → k < to
            → may_begin run.now self.old.sought.now k ≡ false }
        ensures same { IsSame self.old self.new }
        ensures at { self.new.at ≡ self.old.at + (to - from) }
        ensures matched { self.new.matched ≡ 0 }
        ensures passes { PassesOver run.now from self.old self.new }
    {
        if from < to {
            self.before = run[to - 1];
            self.at += (to - from) as u64;
        }
    }

    // Reads the next unit of the text and appends the span that ends before it, if one is found there.
    fn feed<L>(
        &mut self,
        unit: u16,
        out: &mut Vec<Span>,
        looks: &mut Steps<L>,
    ) -> Result<(), AllocError>
        requires { self.old.at + 1 < 2 ^ 64 }
        ensures same { IsSame self.old self.new }
        ensures at { OnOk result (self.new.at ≡ self.old.at + 1) }
        ensures reads { OnOk result
            (ReadsUnit unit self.old out.old.items self.new out.new.items) }
        ensures before { take (length out.old.items) out.new.items ≡ out.old.items }
        ensures cost { looks.new + self.new.matched ≤ looks.old + self.old.matched + 2 }
    {
        self.settle(unit, out, looks)?;
        self.matched = extended(
            self.kind,
            self.sought,
            self.borders,
            self.matched,
            self.before,
            unit,
            looks,
        );
        self.before = unit;
        self.at += 1;
        Ok(())
    }

    // If all sought units are matched, appends their span, unless no place lies between them and the next unit; then the longest border
    // stays matched.
    fn settle<L>(
        &mut self,
        unit: u16,
        out: &mut Vec<Span>,
        looks: &mut Steps<L>,
    ) -> Result<(), AllocError>
        ensures same { IsSame self.old self.new }
        ensures place { (self.new.at ≡ self.old.at) × (self.new.before ≡ self.old.before) }
        ensures part { OnOk result (self.new.matched < length self.old.sought.now) }
        ensures settles { OnOk result
            (SettlesBefore unit self.old out.old.items self.new out.new.items) }
        ensures before { take (length out.old.items) out.new.items ≡ out.old.items }
        ensures cost { looks.new + self.new.matched ≤ looks.old + self.old.matched }
    {
        if self.matched < self.sought.len() {
            return Ok(());
        }
        looks.tick();
        if cuts_between(self.kind, self.before, unit) {
            self.matched = self.borders[self.matched - 1];
            return Ok(());
        }
        let found = self.found();
        self.matched = 0;
        out.push(found)?;
        Ok(())
    }

    // Appends the span that ends at the end of the text, if one is found there.
    fn finish(&self, out: &mut Vec<Span>) -> Result<(), AllocError>
        ensures found { (x : List ℕ) (all : List Span) → StandsIn x all out.old.items self.now
            → self.now.at ≡ length x → OnOk result (out.new.items ≡ all) }
        ensures before { take (length out.old.items) out.new.items ≡ out.old.items }
    {
        if self.matched < self.sought.len() {
            return Ok(());
        }
        out.push(self.found())?;
        Ok(())
    }

    // Returns the span of the matched units.
    fn found(&self) -> Span
        ensures { result ≡ record { start = self.now.at - self.now.matched; end = self.now.at } }
    {
        Span {
            start: self.at - self.matched as u64,
            end: self.at,
        }
    }
}
