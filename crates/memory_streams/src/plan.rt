//! Plans of which calls fail or come short.
ghost use Rattle.std.specs.Prelude.{◌≡◌, IfOk};
ghost use Rattle.memory_streams.specs.Plan.{call_of, fault_at, next_allowance, counted};

use std::alloc::{AllocError, Global};

/// A fault of one call of a source or a sink. Calls count from 1.
#[derive(Clone, Copy, PartialEq, Eq, Debug)]
pub enum Fault {
    /// The call fails.
    Fails { call: u64 },
    /// The call gives or takes at most `most` bytes. For a source `most` is at least 1, since 0 means the end. A sink
    /// limited to 0 returns 0, which counts as a fault.
    Short { call: u64, most: usize },
}

impl Fault {
    fn call(&self) -> u64
        ensures { result ≡ call_of self.now }
    {
        match *self {
            Fault::Fails { call } | Fault::Short { call, .. } => call,
        }
    }
}

/// Counts the calls, and returns what each may do. The first fault that names a call decides.
#[derive(Drop)]
pub(crate) struct Plan {
    pub(crate) faults: Vec<Fault>,
    pub(crate) calls: u64,
}

impl Plan {
    pub(crate) fn new(alloc: Global, faults: &[Fault]) -> Result<Plan, AllocError>
        ensures faults { IfOk result (λ plan. plan.faults.items ≡ faults.now) }
        ensures calls { IfOk result (λ plan. plan.calls ≡ 0) }
    {
        Ok(Plan {
            faults: Vec::from_slice(alloc, faults)?,
            calls: 0,
        })
    }

    /// Returns the most bytes that the next call may give or take; without a fault that is `each`. `None` if the call
    /// fails.
    pub(crate) fn next_allowance(&mut self, each: usize) -> Option<usize>
        ensures allowance { result ≡ next_allowance self.old.faults.items self.old.calls each }
        ensures calls { self.new.calls ≡ counted self.old.calls }
        ensures faults { self.new.faults.items ≡ self.old.faults.items }
    {
        self.calls = self.calls.saturating_add(1);
        match self.fault_at(self.calls) {
            None => Some(each),
            Some(Fault::Fails { .. }) => None,
            Some(Fault::Short { most, .. }) => Some(each.min(most)),
        }
    }

    fn fault_at(&self, call: u64) -> Option<Fault>
        ensures { result ≡ fault_at self.now.faults.items call }
    {
        self.faults
            .iter()
            .copied()
            .find(|fault| fault.call() == call)
    }
}
