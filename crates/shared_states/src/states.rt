//! A list of states.

ghost use Rattle.std.specs.Prelude.{◌≡◌, ◌+◌, ◌-◌, ◌<◌, ◌≤◌, ◌^◌, ◌++◌, length, take, drop, replicate, slice_index_or, IfOk, OnOk, OnErr};
ghost use Rattle.hiding_rules.specs.declared.LineState.TheVariants.{Code};

use crate::cut::{first_lines, join, lines_behind};
use crate::node::Link;
use hiding_rules::LineState;
use std::alloc::{AllocError, Global};
use std::marker::Model;

/// The states of consecutive lines, stored as runs of lines in one state, in a balanced tree of which several lists
/// share parts. A look-up, a part and an append take time logarithmic in the number of runs.
#[derive(Drop)]
pub struct StateList {
    link: Link,
}

impl Model for StateList {
    ghost use Rattle.std.specs.Prelude.{List};
    ghost use Rattle.hiding_rules.specs.declared.LineState.{LineState};

    ghost Value = { List LineState };

    ghost use Rattle.shared_states.specs.Shapes.{link_states};

    ghost view = { λ states. link_states states.link };
}

impl StateList {
    /// Creates a list of `lines` lines in one state. Allocates no memory.
    pub fn run(state: LineState, lines: u64) -> StateList
        ensures { result ≡ replicate lines state }
    {
        StateList {
            link: Link::Run(state, lines),
        }
    }

    /// Returns the number of lines.
    pub fn len(&self) -> u64
        ensures { result ≡ length self.now }
    {
        self.link.len()
    }

    /// Returns the state of the line with index `line`, counted from 0.
    pub fn at(&self, line: u64) -> LineState
        requires { line < length self.now }
        ensures { result ≡ slice_index_or self.now line Code }
    {
        self.link.at(line)
    }

    /// Returns the lines with indices `from..to` as a list of its own, which shares nodes with this list where it can.
    pub fn part(&self, alloc: Global, from: u64, to: u64) -> Result<StateList, AllocError>
        requires ordered { from ≤ to }
        requires within { to ≤ length self.now }
        ensures { IfOk result (λ part. part ≡ take (to - from) (drop from self.now)) }
    {
        let behind = lines_behind(alloc, &self.link, from)?;
        let link = first_lines(alloc, &behind, to - from)?;
        Ok(StateList { link })
    }

    /// Appends the lines of `other`. After an error the list is unchanged.
    pub fn append(&mut self, alloc: Global, other: StateList) -> Result<(), AllocError>
        requires fits { length self.old + length other < 2 ^ 64 }
        ensures ok { OnOk result (self.new ≡ self.old ++ other) }
        ensures err { OnErr result (self.new ≡ self.old) }
    {
        let link = self.link.share()?;
        self.link = join(alloc, link, other.link)?;
        Ok(())
    }
}
