//! A text that follows another text by events: the result of one event, and of several events in turn.
#![tactic(auto)]

use thiserror::Error;

/// The number of events that a mirror applied, and of those that it skipped.
#[derive(Clone, Copy, PartialEq, Eq, Debug)]
pub struct Tally {
    /// The number of applied events.
    pub applied: u64,
    /// The number of events for versions that the mirror is past.
    pub old: u64,
    /// The number of events that arrived while earlier events were missing.
    pub gaps: u64,
}

/// The reason why an event was not applied.
#[derive(Clone, Copy, PartialEq, Eq, Debug, Error)]
pub enum MirrorError {
    /// Earlier events are missing: the mirror has version `have`, the event needs version `need`.
    #[error("events are missing before it")]
    Gap { have: u64, need: u64 },
    /// Batch number `batch` of the event, counted from 1, does not fit the text to which it applies.
    #[error("a batch does not fit the text")]
    Misfit { batch: u64 },
    /// Out of memory.
    #[error("out of memory")]
    Memory,
}

/// The reason why a run of events stopped at the event after the counted ones.
#[derive(Clone, Copy, PartialEq, Eq, Debug, Error)]
pub enum HaltCause {
    /// Batch number `batch` of the event, counted from 1, does not fit the text to which it applies.
    #[error("a batch does not fit the text")]
    Misfit { batch: u64 },
    /// Out of memory.
    #[error("out of memory")]
    Memory,
}

/// A run of events that stopped at an event which failed.
#[derive(Clone, Copy, PartialEq, Eq, Debug)]
pub struct Halt {
    /// The counts of the events before the failed one.
    pub tally: Tally,
    pub cause: HaltCause,
}
