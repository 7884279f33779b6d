// A source that reuses what it may of an old text.
ghost use Rattle.std.specs.Prelude.{◌≡◌, ◌+◌, ◌<◌, ◌≤◌, ◌^◌, true, false, ℕ, drop, length, OnOk};
ghost use Rattle.hiding_rules.specs.Hidden.{scanner};
ghost use Rattle.hiding_rules.specs.States.{line_states};
ghost use Rattle.mark_rules.specs.declared.Mark.TheVariants.{Kept, New};
ghost use Rattle.mark_rules.specs.Marks.{mark_at, new_run};
ghost use Rattle.node_reuse.specs.Calls.{StandsOnEntry, AsksOnEntry, PaysOnEntry};
ghost use Rattle.node_reuse.specs.Paying.{runs_ahead};

use crate::fresh::next_of_line;
use crate::kept::next_of_old;
use crate::line::{Line, LineRules, scan};
use crate::old::Old;
use bracket_nodes::{Kinds, Next, Source};
use line_states::Lines;
use std::alloc::{AllocError, Global};
use steps::Steps;
use text_lengths::Length;

// A reader of the current text.
#[derive(Drop)]
pub(crate) struct Reader<'o, 't, 'q, 's, 'l, O, Q, L> {
    pub text: &'o mut O,
    pub rules: LineRules<'t>,
    pub lines: &'q mut Q,
    pub steps: &'s mut Steps<L>,
    // The place of the reader; lines are counted from 0.
    pub place: Length,
    // The lines from the reader's place up to this one, excluded, are known to be new.
    pub new_to: u64,
    pub line: &'l mut Line,
}

impl<O: Old, Q: Lines, L> Source for Reader<'_, '_, '_, '_, '_, O, Q, L> {
    ghost use Rattle.node_reuse.specs.Reader.{sight, asked_so, names_of, seen_at, Stands};
    ghost use Rattle.hiding_rules.specs.Hidden.{scanner};
    ghost use Rattle.node_reuse.specs.Paying.{paying_so};

    ghost ahead = { λ r. seen_at
        (sight (scanner r.rules.table.now r.rules.hiding.now) (Q.state r.lines.now).contents
        (O.text r.text.now))
        (asked_so (Q.state r.lines.now).asked (names_of r.text r.lines r.steps r.line))
        r.place r.line.now };

    ghost paying = { λ r. paying_so
        (sight (scanner r.rules.table.now r.rules.hiding.now) (Q.state r.lines.now).contents
        (O.text r.text.now))
        r.steps.now r.place r.line.now r.new_to };

    ghost stands = { λ r. Stands
        (sight (scanner r.rules.table.now r.rules.hiding.now) (Q.state r.lines.now).contents
        (O.text r.text.now))
        r.rules.settled.now r.place r.line.now r.new_to };

    fn next(&mut self, alloc: Global, opened: Kinds, level: u64) -> Result<Next, AllocError> {
        let count = self.rules.settled.hunks().lines();
        let above = self.place.lines;
        let entered = self.place.columns > 0;
        if is_kept(self.text, above, entered, &mut self.new_to, self.steps) {
            return next_of_old(self.text, &mut self.place, opened, level, self.steps);
        }
        let number = above + 1;
        enter(self.rules, self.lines, number, self.line)?;
        next_of_line(alloc, number == count, &mut self.place, self.line)
    }
}

// Whether a line, counted from 0, is kept. The old text is queried at the start of a kept line, and once for each run
// of new lines.
fn is_kept<O: Old, L>(
    old: &mut O,
    line: u64,
    entered: bool,
    new_to: &mut u64,
    steps: &mut Steps<L>,
) -> bool
    requires there { line < length (O.text old.old).marks }
    requires fits { length (O.text old.old).marks < 2 ^ 62 }
    requires told { new_to.old ≤ line + new_run (drop line (O.text old.old).marks) }
    requires entered { entered ≡ true → new_to.old ≤ line
        → (i : ℕ) × (mark_at (line + 1) (O.text old.old).marks ≡ Kept i) }
    ensures untold { result ≡ true → new_to.old ≤ line }
    ensures kept { result ≡ true → (i : ℕ)
        × (mark_at (line + 1) (O.text old.old).marks ≡ Kept i) }
    ensures new { result ≡ false → mark_at (line + 1) (O.text old.old).marks ≡ New }
    ensures within { result ≡ false → line < new_to.new }
    ensures told { new_to.new ≤ line + new_run (drop line (O.text old.old).marks) }
    ensures runs { runs_ahead (O.text old.old).marks line new_to.new
        ≤ runs_ahead (O.text old.old).marks line new_to.old }
    ensures pays { let ms = (O.text old.old).marks in result ≡ false → steps.new
        + runs_ahead ms line new_to.new ≤ steps.old + runs_ahead ms line new_to.old }
    ensures step { steps.new ≤ steps.old + 1 }
    ensures same { O.text old.new ≡ O.text old.old }
{
    if line < *new_to {
        return false;
    }
    if entered {
        return true;
    }
    *new_to = line + old.new_from(line, steps);
    line == *new_to
}

// Scans line `n`, which is new, unless it was already scanned: it is asked for once.
fn enter<Q: Lines>(
    rules: LineRules<'_>,
    lines: &mut Q,
    n: u64,
    line: &mut Line,
) -> Result<(), AllocError>
    requires first { 1 ≤ n }
    requires there { n ≤ length (Q.state lines.old).contents }
    requires states { rules.settled.now.states.begins
        ≡ line_states (scanner rules.table.now rules.hiding.now) (Q.state lines.old).contents }
    requires count { line.old.asked + 1 < 2 ^ 64 }
    ensures stands { StandsOnEntry (scanner rules.entry.table.now rules.entry.hiding.now)
        (Q.state lines.old).contents n line.old line.new result }
    ensures asks { AsksOnEntry n (Q.state lines.old).asked (Q.state lines.new).asked
        line.old line.new }
    ensures pays { PaysOnEntry (scanner rules.entry.table.now rules.entry.hiding.now)
        (Q.state lines.old).contents n line.old line.new result }
    ensures scanned { OnOk result (line.new.scanned ≡ true) }
    ensures contents { (Q.state lines.new).contents ≡ (Q.state lines.old).contents }
{
    if line.scanned {
        return Ok(());
    }
    scan(rules, lines, n, line)
}
