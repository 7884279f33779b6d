//! Sinks in memory.
ghost use Rattle.std.specs.Prelude.{◌≡◌, ◌<◌, take, IfOk, OnErr, IsOk, []};
ghost use Rattle.std.specs.Option.{option_copied};
ghost use Rattle.memory_streams.specs.Planned.{new_sink, told_with, WritesByPlan};
ghost use Rattle.script_streams.specs.Streams.{Writes};

use crate::Fault;
use crate::plan::Plan;
use crate::tray::Tray;
use script_streams::{Failed, Sink};
use std::alloc::{AllocError, Global};
use std::marker::Model;

/// Takes bytes into memory by a plan, and shows them as long as they fit its room. Taking bytes allocates nothing.
#[derive(Drop)]
pub struct MemSink {
    tray: Tray,
    each: usize,
    plan: Plan,
    faults: u64,
}

impl Model for MemSink {
    ghost use Rattle.std.specs.Prelude.{None};
    ghost use Rattle.memory_streams.specs.Planned.{PlannedSink};
    ghost use Rattle.memory_streams.specs.Tray.{bytes_told};

    ghost Value = { PlannedSink };

    ghost view = { λ s. record {
      state = record {
        taken = bytes_told s.tray;
        room = s.tray.room;
        faults = s.faults;
        tally = None;
      };
      each = s.each;
      plan = s.plan.faults.items;
      calls = s.plan.calls;
    } };
}

impl MemSink {
    /// Makes a sink with room for `room` bytes; a write takes at most `each`, which is at least 1. A write named in
    /// the plan fails and takes nothing, or takes fewer. If two faults name the same write, the first one applies.
    pub fn new(
        alloc: Global,
        room: usize,
        each: usize,
        plan: &[Fault],
    ) -> Result<MemSink, AllocError>
        requires { 0 < each }
        ensures { IfOk result (λ sink. sink ≡ new_sink room each plan.now) }
    {
        Ok(MemSink {
            tray: Tray::with_room(alloc, room)?,
            each,
            plan: Plan::new(alloc, plan)?,
            faults: 0,
        })
    }

    /// Returns all the bytes taken; `None` once they exceeded the room.
    pub fn bytes(&self) -> Option<&[u8]>
        ensures { option_copied result ≡ self.now.state.taken }
    {
        self.tray.bytes()
    }

    /// Returns the number of writes made.
    pub fn calls(&self) -> u64
        ensures { result ≡ self.now.calls }
    {
        self.plan.calls
    }

    /// Returns the number of writes that failed, or took nothing of a non-empty piece.
    pub fn faults(&self) -> u64
        ensures { result ≡ self.now.state.faults }
    {
        self.faults
    }
}

impl Sink for MemSink {
    ghost state = { λ s. s.state };

    fn write(&mut self, piece: &[u8]) -> Result<usize, Failed>
        ensures writes { Writes result self.old.state self.new.state piece.now }
        ensures told { IfOk result (λ count. self.new.state.taken
            ≡ told_with self.old.state.room self.old.state.taken (take count piece.now)) }
        ensures failed { OnErr result (self.new.state.taken ≡ self.old.state.taken) }
        ensures planned { WritesByPlan result self.old self.new piece.now }
    {
        let Some(most) = self.plan.next_allowance(self.each) else {
            self.faults = self.faults.saturating_add(1);
            return Err(Failed);
        };
        let taken = most.min(piece.len());
        if taken == 0 && !piece.is_empty() {
            self.faults = self.faults.saturating_add(1);
        }
        self.tray.put(&piece[..taken]);
        Ok(taken)
    }
}

/// Takes bytes into memory, and shows them as long as they fit its room. Its writes never fail.
#[derive(Drop)]
pub struct SureSink {
    sink: MemSink,
}

impl Model for SureSink {
    ghost use Rattle.std.specs.Prelude.{◌≡◌, ◌<◌, []};
    ghost use Rattle.memory_streams.specs.Planned.{PlannedSink};

    ghost Value = { PlannedSink };

    ghost view = { λ s. s.sink };

    ghost invariant = { λ s. (0 < s.sink.each) × (s.sink.plan ≡ []) };
}

impl SureSink {
    /// Makes a sink with room for `room` bytes; a write takes at most `each`, which is at least 1.
    pub fn new(alloc: Global, room: usize, each: usize) -> Result<SureSink, AllocError>
        requires { 0 < each }
        ensures { IfOk result (λ sink. sink ≡ new_sink room each []) }
    {
        let sink = MemSink::new(alloc, room, each, &[])?;
        Ok(SureSink { sink })
    }

    /// Returns all the bytes taken; `None` once they exceeded the room.
    pub fn bytes(&self) -> Option<&[u8]>
        ensures { option_copied result ≡ self.now.state.taken }
    {
        self.sink.bytes()
    }
}

impl Sink for SureSink {
    ghost state = { λ s. record s.state { faults = 0 } };

    fn write(&mut self, piece: &[u8]) -> Result<usize, Failed>
        ensures writes { Writes result (record self.old.state { faults = 0 })
            (record self.new.state { faults = 0 }) piece.now }
        ensures sure { IsOk result }
        ensures told { IfOk result (λ count. self.new.state.taken
            ≡ told_with self.old.state.room self.old.state.taken (take count piece.now)) }
        ensures planned { WritesByPlan result self.old self.new piece.now }
    {
        self.sink.write(piece)
    }
}
