//! The two edges of an edit.

ghost use Rattle.std.specs.Prelude.{◌≡◌, ◌+◌, ◌^◌, ◌<◌, ◌≤◌, ◌∷◌, drop};
ghost use Rattle.mark_rules.specs.declared.Mark.TheVariants.{New};
ghost use Rattle.line_hunks.specs.Run.{new_lines, lines_in, IsInRange};
ghost use Rattle.line_hunks.specs.Runs.{marks_before, marks_behind, StandsBy};

use crate::run::Run;
use crate::sides::Sides;
use mark_rules::Mark;

/// Removes `lines` lines: first those of the run, then those after the gap. Returns the rest of the last run touched,
/// which may be empty.
pub(crate) fn take_lines(sides: &mut Sides, run: Run, lines: u64) -> Run
    requires within { lines ≤ run.lines + lines_in sides.old.back }
    requires range { IsInRange run }
    requires apart { StandsBy run.first sides.old.back }
    ensures front { sides.new.front ≡ sides.old.front }
    ensures marks { marks_behind result sides.new.back
        ≡ drop lines (marks_behind run sides.old.back) }
    ensures lines { lines_in (result ∷ sides.new.back) + lines ≡ lines_in (run ∷ sides.old.back) }
    ensures range { IsInRange result }
    ensures apart { StandsBy result.first sides.new.back }
    ensures room { sides.old.room ≤ sides.new.room }
{
    let mut rest = run;
    let mut more = lines;
    while rest.lines < more {
        more -= rest.lines;
        rest = sides.pop_back().unwrap();
    }
    rest.split(more).1
}

/// Inserts the rest of a run, which may be empty, before the new lines of an edit. New lines that would end up right
/// before those are not kept as a run; returns their number.
pub(crate) fn set_front(sides: &mut Sides, run: Run) -> u64
    requires room { 0 < sides.old.room }
    requires fits { lines_in sides.old.front + run.lines + lines_in sides.old.back < 2 ^ 62 }
    requires range { IsInRange run }
    requires apart { StandsBy run.first sides.old.front }
    ensures back { sides.new.back ≡ sides.old.back }
    ensures marks { marks_before sides.new.front (new_lines result) ≡ marks_before sides.old.front run }
    ensures lines { result + lines_in sides.new.front ≡ run.lines + lines_in sides.old.front }
    ensures apart { StandsBy New sides.new.front }
    ensures room { sides.old.room ≤ sides.new.room + 1 }
{
    match run.first {
        Mark::New => run.lines,
        Mark::Kept(_) => {
            if run.lines > 0 {
                sides.push_front(run);
                return 0;
            }
            match sides.pop_front() {
                Some(beside) => beside.lines,
                None => 0,
            }
        }
    }
}

/// Like `set_front`, after the new lines of an edit.
pub(crate) fn set_back(sides: &mut Sides, run: Run) -> u64
    requires room { 0 < sides.old.room }
    requires fits { lines_in sides.old.front + run.lines + lines_in sides.old.back < 2 ^ 62 }
    requires range { IsInRange run }
    requires apart { StandsBy run.first sides.old.back }
    ensures front { sides.new.front ≡ sides.old.front }
    ensures marks { marks_behind (new_lines result) sides.new.back ≡ marks_behind run sides.old.back }
    ensures lines { result + lines_in sides.new.back ≡ run.lines + lines_in sides.old.back }
    ensures apart { StandsBy New sides.new.back }
    ensures room { sides.old.room ≤ sides.new.room + 1 }
{
    match run.first {
        Mark::New => run.lines,
        Mark::Kept(_) => {
            if run.lines > 0 {
                sides.push_back(run);
                return 0;
            }
            match sides.pop_back() {
                Some(beside) => beside.lines,
                None => 0,
            }
        }
    }
}
