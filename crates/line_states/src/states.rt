//! The states of a text's lines, and of its last parse.

ghost use Rattle.std.specs.Prelude.{◌≡◌, ◌+◌, ◌-◌, ◌^◌, ◌<◌, ◌≤◌, ◌++◌, ◌∷◌, [], length, replicate, take, drop, slice_index_or, IfOk, OnOk, OnErr};
ghost use Rattle.mark_rules.specs.declared.Mark.TheVariants.{New};
ghost use Rattle.mark_rules.specs.Marks.{clean_marks, edited_marks};
ghost use Rattle.hiding_rules.specs.declared.LineState.TheVariants.{Code};
ghost use Rattle.hiding_rules.specs.Hidden.{scanner};
ghost use Rattle.hiding_rules.specs.States.{line_states};
ghost use Rattle.hiding_rules.specs.Known.{Lead, state_behind};
ghost use Rattle.line_states.specs.Lines.{IsFrontOf};
ghost use Rattle.line_states.specs.Settling.{asked_after, borders, known_lines, marks_now};

use crate::lines::Lines;
use crate::settle::Settler;
use crate::settled::{Marks, Settled};
use bracket_scan::{BracketTable, Hiding};
use hiding_rules::LineState;
use line_hunks::Hunks;
use shared_states::StateList;
use std::alloc::{AllocError, Global};
use std::marker::Model;

/// The states in which the lines of a text begin, and the state in which its last line ends.
#[derive(Drop)]
pub struct LineStates {
    pub(crate) begins: StateList,
    pub(crate) ends: LineState,
}

impl Model for LineStates {
    ghost use Rattle.line_states.specs.Settling.{Borders, borders};

    ghost Value = { Borders };

    ghost view = { λ s. borders s.begins s.ends };
}

impl LineStates {
    /// Creates the states of `lines` lines that all begin in code; the last one also ends in code.
    pub(crate) fn in_code(lines: u64) -> LineStates
        ensures begins { result.begins ≡ replicate lines Code }
        ensures ends { result.ends ≡ Code }
    {
        LineStates {
            begins: StateList::run(LineState::Code, lines),
            ends: LineState::Code,
        }
    }

    /// Returns the state in which line `n` begins, counted from 1.
    pub(crate) fn state(&self, n: u64) -> LineState
        requires some { 1 ≤ n }
        requires within { n ≤ length self.now.begins }
        ensures { result ≡ slice_index_or self.now.begins (n - 1) Code }
    {
        self.begins.at(n - 1)
    }

    /// Returns the state in which line `n` ends; for 0, the state in which the text begins.
    pub(crate) fn end(&self, n: u64) -> LineState
        requires { n ≤ length self.now.begins }
        ensures { result ≡ slice_index_or self.now.begins n self.now.ends }
    {
        if n < self.begins.len() {
            self.begins.at(n)
        } else {
            self.ends
        }
    }

    /// Returns the states in which the `lines` lines from line `first` on begin.
    pub(crate) fn part(
        &self,
        alloc: Global,
        first: u64,
        lines: u64,
    ) -> Result<StateList, AllocError>
        requires first { 1 ≤ first }
        requires within { first - 1 + lines ≤ length self.now.begins }
        requires range { first + lines ≤ 2 ^ 62 }
        ensures { IfOk result (λ part. part ≡ take lines (drop (first - 1) self.now.begins)) }
    {
        let before = first - 1;
        self.begins.part(alloc, before, before + lines)
    }
}

/// The states of the last parse, and a mark for each line of the current text.
#[derive(Drop)]
pub struct States {
    hunks: Hunks,
    last: LineStates,
}

impl Model for States {
    ghost use Rattle.std.specs.Prelude.{length};
    ghost use Rattle.line_states.specs.Settling.{StatesState, AreOf};

    ghost Value = { StatesState };

    ghost view = { λ s. record {
      marks = s.hunks.marks;
      last = s.last;
      spare = s.hunks.spare;
    } };

    ghost invariant = { λ s. AreOf (length s.last.begins) s.hunks.marks };
}

impl States {
    /// Creates the states of a text of one line, which is new. Allocates no memory.
    pub fn new(alloc: Global) -> States
        ensures marks { result.marks ≡ New ∷ [] }
        ensures last { result.last ≡ borders [] Code }
    {
        States::all_new(alloc, 1)
    }

    /// Creates the states of a text of `lines` lines, all new. Allocates no memory.
    pub fn all_new(alloc: Global, lines: u64) -> States
        requires some { 1 ≤ lines }
        requires fits { lines < 2 ^ 62 }
        ensures marks { result.marks ≡ replicate lines New }
        ensures last { result.last ≡ borders [] Code }
    {
        States {
            hunks: Hunks::all_new(alloc, lines),
            last: LineStates::in_code(0),
        }
    }

    /// Makes room for `edits` edits. Of the methods that change the states, only this one allocates memory. Also after
    /// an error the marks and states are unchanged and room that was there stays.
    pub fn reserve(&mut self, edits: u64) -> Result<(), AllocError>
        ensures room { OnOk result (edits ≤ self.new.spare) }
        ensures marks { self.new.marks ≡ self.old.marks }
        ensures last { self.new.last ≡ self.old.last }
        ensures kept { self.old.spare ≤ self.new.spare }
    {
        self.hunks.reserve(edits)
    }

    /// Replaces the `old` lines from line `first` on by `new` new lines. Neither number is 0. Allocates no memory.
    pub fn edit(&mut self, first: u64, old: u64, new: u64)
        requires room { 0 < self.old.spare }
        requires first { 1 ≤ first }
        requires some { 1 ≤ old }
        requires within { first - 1 + old ≤ length self.old.marks }
        requires new { 1 ≤ new }
        requires fits { length self.old.marks - old + new < 2 ^ 62 }
        ensures marks { self.new.marks ≡ edited_marks first old new self.old.marks }
        ensures last { self.new.last ≡ self.old.last }
        ensures room { self.old.spare ≤ self.new.spare + 1 }
    {
        self.hunks.edit(first, old, new);
    }

    /// Takes over the states of the lines after a parse of the text, and marks each line as kept. Allocates no memory.
    pub fn adopt(&mut self, states: LineStates)
        requires { length states.begins ≡ length self.old.marks }
        ensures marks { self.new.marks ≡ clean_marks (length self.old.marks) }
        ensures last { self.new.last ≡ states }
        ensures room { self.old.spare ≤ self.new.spare }
    {
        let lines = self.hunks.lines();
        self.hunks.clean(lines);
        self.last = states;
    }

    /// Returns the marks of the lines.
    pub fn hunks(&self) -> &Hunks
        ensures { result.now.marks ≡ self.now.marks }
    {
        &self.hunks
    }

    /// Returns the state in which each line begins, and which lines are new or restarted. Asks for the new and
    /// restarted lines, in order and each once, and for no other line. Fails if memory is short; then only a prefix of
    /// these lines was asked for.
    pub fn settle<Q: Lines>(
        &self,
        alloc: Global,
        table: &BracketTable,
        hiding: &Hiding,
        lines: &mut Q,
    ) -> Result<Settled<'_>, AllocError>
        requires count { length self.now.marks ≡ length (Q.state lines.old).contents }
        requires lead { let known = known_lines self.now.last self.now.marks in
            Lead (scanner table.now hiding.now) known (Q.state lines.old).contents }
        ensures begins { let by = scanner table.now hiding.now in
            IfOk result (λ settled.
            settled.states.begins ≡ line_states by (Q.state lines.old).contents) }
        ensures ends { let by = scanner table.now hiding.now in
            IfOk result (λ settled.
            settled.states.ends ≡ state_behind by Code (Q.state lines.old).contents) }
        ensures marks { let by = scanner table.now hiding.now in
            IfOk result (λ settled.
            settled.marks ≡ marks_now by self.now (Q.state lines.old)) }
        ensures asked { let by = scanner table.now hiding.now in
            OnOk result ((Q.state lines.new).asked ≡ asked_after by self.now (Q.state lines.old)) }
        ensures front { let by = scanner table.now hiding.now in
            OnErr result (IsFrontOf (asked_after by self.now (Q.state lines.old)) (Q.state lines.new).asked) }
        ensures contents { (Q.state lines.new).contents ≡ (Q.state lines.old).contents }
    {
        let settler = Settler::new(&self.hunks, &self.last, table, hiding);
        let (hunks, states) = settler.settle(alloc, lines)?;
        Ok(Settled {
            marks: Marks::Own(hunks),
            states,
        })
    }

    /// Returns the result for a text in which every line begins in code and no line is restarted. Allocates no memory,
    /// and asks for no line.
    pub fn in_code(&self) -> Settled<'_>
        ensures marks { result.marks ≡ self.now.marks }
        ensures begins { result.states.begins ≡ replicate (length self.now.marks) Code }
        ensures ends { result.states.ends ≡ Code }
    {
        Settled {
            marks: Marks::Same(&self.hunks),
            states: LineStates::in_code(self.hunks.lines()),
        }
    }
}
