//! Collects marks and states. Those of consecutive lines go into their lists together.

ghost use Rattle.std.specs.Prelude.{◌≡◌, ◌+◌, ◌^◌, ◌<◌, ◌≤◌, ◌++◌, ◌∷◌, [], length, replicate, IfOk, OnOk};
ghost use Rattle.mark_rules.specs.declared.Mark.TheVariants.{New};
ghost use Rattle.mark_rules.specs.Marks.{mark_at, kept_marks, Rises};
ghost use Rattle.line_states.specs.Gathered.{marks_put};

use hiding_rules::LineState;
use line_hunks::Hunks;
use shared_states::StateList;
use std::alloc::{AllocError, Global};
use std::marker::Model;

/// Collected marks of lines. Consecutive new lines are added as one run.
#[derive(Drop)]
pub(crate) struct MarkList {
    put: Option<Hunks>,
    /// The number of new lines after those in `put`.
    fresh: u64,
}

impl Model for MarkList {
    ghost use Rattle.std.specs.Prelude.{List, ◌++◌, replicate};
    ghost use Rattle.mark_rules.specs.declared.Mark.{Mark};
    ghost use Rattle.mark_rules.specs.declared.Mark.TheVariants.{New};
    ghost use Rattle.line_states.specs.Gathered.{marks_put};

    ghost Value = { List Mark };

    ghost view = { λ m. marks_put m.put ++ replicate m.fresh New };
}

impl MarkList {
    /// Creates an empty list.
    pub fn none() -> MarkList
        ensures { result ≡ [] }
    {
        MarkList {
            put: None,
            fresh: 0,
        }
    }

    /// Appends one new line. Allocates no memory.
    pub fn push_new(&mut self)
        requires { length self.old < 2 ^ 62 }
        ensures { self.new ≡ self.old ++ New ∷ [] }
    {
        self.fresh += 1;
    }

    /// Appends `lines` lines kept with consecutive numbers from `first` on. The last line before them is new.
    pub fn push_kept(&mut self, alloc: Global, first: u64, lines: u64) -> Result<(), AllocError>
        requires first { 1 ≤ first }
        requires some { 1 ≤ lines }
        requires fits { length self.old + lines < 2 ^ 62 }
        requires range { first + lines ≤ 2 ^ 62 }
        requires new { mark_at (length self.old) self.old ≡ New }
        requires rises { Rises (self.old ++ kept_marks first lines) }
        ensures { OnOk result (self.new ≡ self.old ++ kept_marks first lines) }
    {
        put_new(alloc, &mut self.put, self.fresh)?;
        self.fresh = 0;
        put_kept(alloc, &mut self.put, first, lines)
    }

    /// Returns the marks, of which there is at least one.
    pub fn into_hunks(self, alloc: Global) -> Result<Hunks, AllocError>
        requires some { 0 < length self }
        requires fits { length self < 2 ^ 62 }
        ensures { IfOk result (λ hunks. hunks.marks ≡ self) }
    {
        let mut put = self.put;
        put_new(alloc, &mut put, self.fresh)?;
        Ok(put.unwrap())
    }
}

/// Appends `lines` new lines; `lines` may be 0.
fn put_new(alloc: Global, put: &mut Option<Hunks>, lines: u64) -> Result<(), AllocError>
    requires { length (marks_put put.old) + lines < 2 ^ 62 }
    ensures { OnOk result (marks_put put.new ≡ marks_put put.old ++ replicate lines New) }
{
    if lines == 0 {
        return Ok(());
    }
    match put {
        Some(hunks) => hunks.push_new(lines)?,
        None => *put = Some(Hunks::all_new(alloc, lines)),
    }
    Ok(())
}

/// Appends `lines` lines kept with consecutive numbers from `first` on. The last line before them is new.
fn put_kept(
    alloc: Global,
    put: &mut Option<Hunks>,
    first: u64,
    lines: u64,
) -> Result<(), AllocError>
    requires first { 1 ≤ first }
    requires some { 1 ≤ lines }
    requires fits { length (marks_put put.old) + lines < 2 ^ 62 }
    requires range { first + lines ≤ 2 ^ 62 }
    requires new { mark_at (length (marks_put put.old)) (marks_put put.old) ≡ New }
    requires rises { Rises (marks_put put.old ++ kept_marks first lines) }
    ensures { OnOk result (marks_put put.new ≡ marks_put put.old ++ kept_marks first lines) }
{
    match put {
        Some(hunks) => hunks.push_kept(first, lines)?,
        None => *put = Some(Hunks::all_kept(alloc, first, lines)),
    }
    Ok(())
}

/// Collected states of lines. Consecutive lines in one state are added as one run.
#[derive(Drop)]
pub(crate) struct StateRuns {
    put: StateList,
    /// The state of the lines after those in `put`, and their number.
    state: LineState,
    lines: u64,
}

impl Model for StateRuns {
    ghost use Rattle.std.specs.Prelude.{List, ◌++◌, replicate};
    ghost use Rattle.hiding_rules.specs.declared.LineState.{LineState};

    ghost Value = { List LineState };

    ghost view = { λ s. s.put ++ replicate s.lines s.state };
}

impl StateRuns {
    /// Creates an empty list.
    pub fn none() -> StateRuns
        ensures { result ≡ [] }
    {
        StateRuns {
            put: StateList::run(LineState::Code, 0),
            state: LineState::Code,
            lines: 0,
        }
    }

    /// Appends one line.
    pub fn push(&mut self, alloc: Global, state: LineState) -> Result<(), AllocError>
        requires { length self.old < 2 ^ 62 }
        ensures { OnOk result (self.new ≡ self.old ++ state ∷ []) }
    {
        if state != self.state {
            self.put
                .append(alloc, StateList::run(self.state, self.lines))?;
            self.state = state;
            self.lines = 0;
        }
        self.lines += 1;
        Ok(())
    }

    /// Appends the lines of a list.
    pub fn append(&mut self, alloc: Global, states: StateList) -> Result<(), AllocError>
        requires { length self.old + length states < 2 ^ 62 }
        ensures { OnOk result (self.new ≡ self.old ++ states) }
    {
        self.put
            .append(alloc, StateList::run(self.state, self.lines))?;
        self.lines = 0;
        self.put.append(alloc, states)
    }

    /// Returns the states.
    pub fn into_list(self, alloc: Global) -> Result<StateList, AllocError>
        requires { length self < 2 ^ 62 }
        ensures { IfOk result (λ states. states ≡ self) }
    {
        let mut put = self.put;
        put.append(alloc, StateList::run(self.state, self.lines))?;
        Ok(put)
    }
}
