//! Sources in memory.
ghost use Rattle.std.specs.Prelude.{◌≡◌, ◌<◌, All, IfOk, IsOk, Some, []};
ghost use Rattle.script_streams.specs.Streams.{Reads};
ghost use Rattle.memory_streams.specs.Plan.{GivesSomething};
ghost use Rattle.memory_streams.specs.Planned.{new_source, ReadsByPlan};

use crate::Fault;
use crate::plan::Plan;
use crate::supply::Supply;
use script_streams::{Failed, Source};
use std::alloc::{AllocError, Global};
use std::marker::Model;

/// Gives bytes from memory by a plan, and shows the bytes left.
#[derive(Drop)]
pub struct MemSource {
    supply: Supply,
    each: usize,
    plan: Plan,
    faults: u64,
    reads_past_end: u64,
}

impl Model for MemSource {
    ghost use Rattle.std.specs.Prelude.{◌<◌, All};
    ghost use Rattle.memory_streams.specs.Plan.{GivesSomething};
    ghost use Rattle.memory_streams.specs.Planned.{PlannedSource};

    ghost Value = { PlannedSource };

    ghost view = { λ s. record {
      state = record s.supply { faults = s.faults };
      each = s.each;
      plan = s.plan.faults.items;
      calls = s.plan.calls;
      reads_past_end = s.reads_past_end;
    } };

    ghost invariant = { λ s. (0 < s.each) × All GivesSomething s.plan.faults.items };
}

impl MemSource {
    /// Makes a source of these bytes; a read gives at most `each`, which is at least 1. A read named in the plan
    /// fails, or gives fewer. If two faults name the same read, the first one applies.
    pub fn new(
        alloc: Global,
        bytes: &[u8],
        each: usize,
        plan: &[Fault],
    ) -> Result<MemSource, AllocError>
        requires each { 0 < each }
        requires plan { All GivesSomething plan.now }
        ensures { IfOk result (λ source. source ≡ new_source bytes.now each plan.now) }
    {
        Ok(MemSource {
            supply: Supply::new(alloc, bytes)?,
            each,
            plan: Plan::new(alloc, plan)?,
            faults: 0,
            reads_past_end: 0,
        })
    }

    /// Returns the bytes not yet given.
    pub fn left(&self) -> &[u8]
        ensures { self.now.state.left ≡ Some result.now }
    {
        self.supply.left()
    }

    /// Returns the number of reads that failed.
    pub fn faults(&self) -> u64
        ensures { result ≡ self.now.state.faults }
    {
        self.faults
    }

    /// Returns the number of reads made right after one that returned the end.
    pub fn reads_past_end(&self) -> u64
        ensures { result ≡ self.now.reads_past_end }
    {
        self.reads_past_end
    }

    /// Returns the number of reads made.
    pub fn calls(&self) -> u64
        ensures { result ≡ self.now.calls }
    {
        self.plan.calls
    }
}

impl Source for MemSource {
    ghost state = { λ s. s.state };

    fn read(&mut self, buf: &mut [u8]) -> Result<usize, Failed>
        ensures reads { Reads result self.old.state self.new.state buf.new }
        ensures planned { ReadsByPlan result self.old self.new buf.old }
    {
        let past_end = u64::from(self.supply.has_ended());
        self.reads_past_end = self.reads_past_end.saturating_add(past_end);
        match self.plan.next_allowance(self.each) {
            Some(most) => Ok(self.supply.give(buf, most)),
            None => {
                self.supply.give_none();
                self.faults = self.faults.saturating_add(1);
                Err(Failed)
            }
        }
    }
}

/// Gives bytes from memory, and shows the bytes left. Its reads never fail.
#[derive(Drop)]
pub struct SureSource {
    source: MemSource,
}

impl Model for SureSource {
    ghost use Rattle.std.specs.Prelude.{◌≡◌, []};
    ghost use Rattle.memory_streams.specs.Planned.{PlannedSource};

    ghost Value = { PlannedSource };

    ghost view = { λ s. s.source };

    ghost invariant = { λ s. s.source.plan ≡ [] };
}

impl SureSource {
    /// Makes a source of these bytes; a read gives at most `each`, which is at least 1.
    pub fn new(alloc: Global, bytes: &[u8], each: usize) -> Result<SureSource, AllocError>
        requires { 0 < each }
        ensures { IfOk result (λ source. source ≡ new_source bytes.now each []) }
    {
        let source = MemSource::new(alloc, bytes, each, &[])?;
        Ok(SureSource { source })
    }
}

impl Source for SureSource {
    ghost state = { λ s. record s.state { faults = 0 } };

    fn read(&mut self, buf: &mut [u8]) -> Result<usize, Failed>
        ensures reads { Reads result (record self.old.state { faults = 0 })
            (record self.new.state { faults = 0 }) buf.new }
        ensures sure { IsOk result }
        ensures planned { ReadsByPlan result self.old self.new buf.old }
    {
        self.source.read(buf)
    }
}
