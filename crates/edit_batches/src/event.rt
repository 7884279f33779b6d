//! A change of a text, which can be repeated on a copy of it.

ghost use Rattle.std.specs.Prelude.{◌≡◌, ◌<◌};
ghost use Rattle.text_lengths.specs.declared.TheConstants.{GREATEST_NUMBER};

use crate::shared::SharedBatch;
use std::marker::Model;

/// A change of a text: the version before it, which is below `GREATEST_NUMBER`, and the batches that were applied, in order. An undo or a
/// redo may have several.
#[derive(Drop)]
pub struct Event {
    from: u64,
    batches: Vec<SharedBatch>,
}

impl Model for Event {
    ghost use Rattle.std.specs.Prelude.{◌<◌};
    ghost use Rattle.text_lengths.specs.declared.TheConstants.{GREATEST_NUMBER};
    ghost use Rattle.batch_rules.specs.Events.{EventState};

    ghost Value = { EventState };

    ghost view = { λ e. record { from = e.from; batches = e.batches.items } };

    ghost invariant = { λ e. e.from < GREATEST_NUMBER };
}

impl Event {
    pub fn new(from: u64, batches: Vec<SharedBatch>) -> Event
        requires { from < GREATEST_NUMBER }
        ensures from { result.from ≡ from }
        ensures batches { result.batches ≡ batches.items }
    {
        Event { from, batches }
    }

    /// Returns the version before the change.
    pub fn from(&self) -> u64
        ensures from { result ≡ self.now.from }
        ensures below { result < GREATEST_NUMBER }
    {
        self.from
    }

    /// Returns the batches in the order in which they were applied.
    pub fn batches(&self) -> &[SharedBatch]
        ensures { result.now ≡ self.now.batches }
    {
        self.batches.as_slice()
    }
}
