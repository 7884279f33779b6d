//! The walk over the lines of a text that finds the state in which each begins.

ghost use Rattle.std.specs.Prelude.{◌≡◌, ◌+◌, ◌^◌, ◌<◌, ◌++◌, ◌∷◌, [], true, length, IfSome, IfNone, IfOk, OnOk, OnErr};
ghost use Rattle.hiding_rules.specs.Hidden.{scanner};
ghost use Rattle.hiding_rules.specs.Known.{is_scanned};
ghost use Rattle.line_states.specs.Lines.{AsksFront};
ghost use Rattle.line_states.specs.Settling.{AreOf, IsOfLast, IsKeptAs, known_of};
ghost use Rattle.line_states.specs.Outcome.{CanSettle, task, outcome};
ghost use Rattle.line_states.specs.Walk.{ahead, IsOnWay, CanKeep, HasKept, HasScanned, HasPassed, HasCome};

use crate::gather::{MarkList, StateRuns};
use crate::lines::Lines;
use crate::states::LineStates;
use bracket_scan::{BracketTable, Hiding};
use hiding_rules::LineState;
use line_hunks::{Hunks, Mark};
use std::alloc::{AllocError, Global};
use std::marker::Model;

/// The inputs of settling lines: their marks, the states of the last parse, and the table and hiding marks for the
/// scan.
#[derive(Drop)]
pub(crate) struct Settler<'s> {
    pub hunks: &'s Hunks,
    pub last: &'s LineStates,
    pub table: &'s BracketTable,
    pub hiding: &'s Hiding,
}

impl<'s> Model for Settler<'s> {
    ghost use Rattle.hiding_rules.specs.Hidden.{scanner};
    ghost use Rattle.line_states.specs.Outcome.{Task, task, IsTask};

    ghost Value = { Task };

    ghost view = { λ s. task (scanner s.table.now s.hiding.now) s.last.now s.hunks.now.marks };

    ghost invariant = { λ s.
        IsTask (task (scanner s.table.now s.hiding.now) s.last.now s.hunks.now.marks) };
}

/// The state of a walk over the lines.
#[derive(Drop)]
pub(crate) struct Walk {
    /// The number of lines passed so far.
    pub passed: u64,
    /// The state in which the next line begins.
    pub state: LineState,
    pub marks: MarkList,
    pub begins: StateRuns,
    /// The content of the line that was asked for last.
    pub content: Vec<u16>,
}

impl<'s> Settler<'s> {
    pub fn new(
        hunks: &'s Hunks,
        last: &'s LineStates,
        table: &'s BracketTable,
        hiding: &'s Hiding,
    ) -> Settler<'s>
        requires { AreOf (length last.now.begins) hunks.now.marks }
        ensures { result ≡ task (scanner table.now hiding.now) last.now hunks.now.marks }
    {
        // The contract of `lines` bounds the number of lines, and shows that the kept ones are in order.
        let _lines = hunks.lines();
        Settler {
            hunks,
            last,
            table,
            hiding,
        }
    }

    /// Returns the marks of the lines, where a restarted line is marked as new, and their states. Fails if memory is
    /// short.
    pub fn settle<Q: Lines>(
        &self,
        alloc: Global,
        lines: &mut Q,
    ) -> Result<(Hunks, LineStates), AllocError>
        requires { CanSettle self.now (Q.state lines.old) }
        ensures marks { IfOk result (λ made.
            made.0.marks ≡ (outcome self.now (Q.state lines.old)).marks) }
        ensures begins { IfOk result (λ made.
            made.1.begins ≡ (outcome self.now (Q.state lines.old)).begins) }
        ensures ends { IfOk result (λ made.
            made.1.ends ≡ (outcome self.now (Q.state lines.old)).ends) }
        ensures count { IfOk result (λ made. length made.1.begins ≡ length made.0.marks) }
        ensures asked { OnOk result ((Q.state lines.new).asked
            ≡ (Q.state lines.old).asked ++ (outcome self.now (Q.state lines.old)).asked) }
        ensures front { OnErr result (AsksFront (outcome self.now (Q.state lines.old)).asked
            (Q.state lines.old).asked (Q.state lines.new).asked) }
        ensures contents { (Q.state lines.new).contents ≡ (Q.state lines.old).contents }
    {
        let walk = self.walk(alloc, lines)?;
        let ends = walk.state;
        let begins = walk.begins.into_list(alloc)?;
        let hunks = walk.marks.into_hunks(alloc)?;
        Ok((hunks, LineStates { begins, ends }))
    }

    /// Passes all lines.
    fn walk<Q: Lines>(&self, alloc: Global, lines: &mut Q) -> Result<Walk, AllocError>
        requires { CanSettle self.now (Q.state lines.old) }
        ensures came { IfOk result (HasCome self.now (Q.state lines.old) (Q.state lines.new)) }
        ensures front { OnErr result (AsksFront (outcome self.now (Q.state lines.old)).asked
            (Q.state lines.old).asked (Q.state lines.new).asked) }
        ensures contents { (Q.state lines.new).contents ≡ (Q.state lines.old).contents }
    {
        let count = self.hunks.lines();
        let mut walk = Walk {
            passed: 0,
            state: LineState::Code,
            marks: MarkList::none(),
            begins: StateRuns::none(),
            content: Vec::new(alloc),
        };
        while walk.passed < count {
            self.pass(alloc, lines, &mut walk)?;
        }
        Ok(walk)
    }

    /// Passes the next line. If it is kept and begins in the same state as before, passes all lines from it on that are
    /// kept with consecutive numbers.
    fn pass<Q: Lines>(
        &self,
        alloc: Global,
        lines: &mut Q,
        walk: &mut Walk,
    ) -> Result<(), AllocError>
        requires can { CanSettle self.now (Q.state lines.old) }
        requires way { IsOnWay self.now (Q.state lines.old) walk.old }
        requires more { walk.old.passed < length self.now.marks }
        ensures on { OnOk result
            (HasPassed self.now (Q.state lines.old) (Q.state lines.new) walk.old walk.new) }
        ensures front { OnErr result (AsksFront (ahead self.now (Q.state lines.old) walk.old).asked
            (Q.state lines.old).asked (Q.state lines.new).asked) }
        ensures contents { (Q.state lines.new).contents ≡ (Q.state lines.old).contents }
    {
        let (mark, kept) = self.hunks.at(walk.passed + 1);
        match self.stays(mark, walk.state) {
            Some(first) => self.keep(alloc, first, kept, walk),
            None => self.scan(alloc, lines, walk),
        }
    }

    /// Returns the number that a line with this mark had in the last parse, if it began in `state` then. None for a new
    /// or restarted line.
    fn stays(&self, mark: Mark, state: LineState) -> Option<u64>
        requires { IsOfLast self.now.last mark }
        ensures some { IfSome result (λ first. IsKeptAs self.now.last first state mark) }
        ensures none { IfNone result (is_scanned (known_of self.now.last mark) state ≡ true) }
    {
        match mark {
            Mark::Kept(first) if self.last.state(first) == state => Some(first),
            _ => None,
        }
    }

    /// Passes `lines` kept lines, of which the first was line `first` and begins in the same state as before.
    fn keep(&self, alloc: Global, first: u64, lines: u64, walk: &mut Walk) -> Result<(), AllocError>
        requires { CanKeep self.now.last walk.old first lines }
        ensures { OnOk result (HasKept self.now.last walk.old walk.new first lines) }
    {
        let part = self.last.part(alloc, first, lines)?;
        walk.begins.append(alloc, part)?;
        walk.marks.push_kept(alloc, first, lines)?;
        walk.state = self.last.end(first - 1 + lines);
        walk.passed += lines;
        Ok(())
    }

    /// Passes a line that is new or restarted, and asks for its content.
    fn scan<Q: Lines>(
        &self,
        alloc: Global,
        lines: &mut Q,
        walk: &mut Walk,
    ) -> Result<(), AllocError>
        requires there { walk.old.passed < length (Q.state lines.old).contents }
        requires few { walk.old.passed + 1 < 2 ^ 62 }
        requires marks { length walk.old.marks ≡ walk.old.passed }
        requires begins { length walk.old.begins ≡ walk.old.passed }
        ensures scanned { OnOk result
            (HasScanned self.now.by (Q.state lines.old) (Q.state lines.new) walk.old walk.new) }
        ensures front { OnErr result (AsksFront ((walk.old.passed + 1) ∷ [])
            (Q.state lines.old).asked (Q.state lines.new).asked) }
        ensures contents { (Q.state lines.new).contents ≡ (Q.state lines.old).contents }
    {
        let state = walk.state;
        walk.content.clear();
        lines.line(walk.passed + 1, &mut walk.content)?;
        walk.begins.push(alloc, state)?;
        walk.marks.push_new();
        walk.state = self.table.end_state(self.hiding, state, &walk.content);
        walk.passed += 1;
        Ok(())
    }
}
