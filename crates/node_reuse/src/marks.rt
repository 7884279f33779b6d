// The marks of the lines, with the last look-up cached.
ghost use Rattle.std.specs.Prelude.{◌≡◌, ◌+◌, ◌^◌, ◌<◌, drop, length, IfSome};
ghost use Rattle.mark_rules.specs.Marks.{mark_at, kept_run, new_run, Rises};

use line_hunks::Hunks;
use mark_rules::Mark;
use std::marker::Model;

// The marks of the lines of a text. The last look-up is cached: it answers for its line and for the run of kept lines
// from there, until another line is looked up. Lines are counted from 0.
#[derive(Drop)]
pub(crate) struct LineMarks<'h> {
    hunks: &'h Hunks,
    // The line looked up last, its mark, and the length of the run of kept lines from it on.
    line: u64,
    mark: Mark,
    kept: u64,
}

impl<'h> Model for LineMarks<'h> {
    ghost use Rattle.std.specs.Prelude.{List};
    ghost use Rattle.mark_rules.specs.declared.Mark.{Mark};
    ghost use Rattle.node_reuse.specs.LineMarks.{IsRemembered};

    ghost Value = { List Mark };

    ghost view = { λ m. m.hunks.now.marks };

    ghost invariant = { λ m. IsRemembered m.hunks.now.marks m.line m.mark m.kept };
}

impl<'h> LineMarks<'h> {
    pub fn new(hunks: &'h Hunks) -> LineMarks<'h>
        ensures { result ≡ hunks.now.marks }
    {
        let _lines = hunks.lines();
        let (mark, kept) = hunks.at(1);
        LineMarks {
            hunks,
            line: 0,
            mark,
            kept,
        }
    }

    // Returns the mark of a line, and the length of the run of kept lines from it on. Makes at most one look-up.
    pub fn at(&mut self, line: u64) -> (Mark, u64)
        requires { line < length self.old }
        ensures mark { result.0 ≡ mark_at (line + 1) self.old }
        ensures kept { result.1 ≡ kept_run (drop line self.old) }
        ensures fits { length self.old < 2 ^ 62 }
        ensures rises { Rises self.old }
        ensures same { self.new ≡ self.old }
    {
        if let Some(told) = self.remembered(line) {
            return told;
        }
        (self.mark, self.kept) = self.hunks.at(line + 1);
        self.line = line;
        (self.mark, self.kept)
    }

    // Returns the length of the run of new lines from this one on; 0 if this line is kept.
    pub fn new_from(&mut self, line: u64) -> u64
        requires { line < length self.old }
        ensures run { result ≡ new_run (drop line self.old) }
        ensures same { self.new ≡ self.old }
    {
        match self.at(line).0 {
            Mark::Kept(_) => 0,
            Mark::New => self.hunks.new_from(line + 1),
        }
    }

    // The same as `at`, from the cached look-up; None if that does not suffice.
    fn remembered(&self, line: u64) -> Option<(Mark, u64)>
        ensures mark { IfSome result (λ told. told.0 ≡ mark_at (line + 1) self.now) }
        ensures kept { IfSome result (λ told. told.1 ≡ kept_run (drop line self.now)) }
    {
        let past = line.checked_sub(self.line)?;
        if past == 0 {
            return Some((self.mark, self.kept));
        }
        if self.kept <= past {
            return None;
        }
        let Mark::Kept(number) = self.mark else {
            return None;
        };
        Some((Mark::Kept(number.checked_add(past)?), self.kept - past))
    }
}
