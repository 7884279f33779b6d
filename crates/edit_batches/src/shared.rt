//! Batches with several owners.

ghost use Rattle.std.specs.Prelude.{◌≡◌, IfOk};

use crate::batch::Batch;
use std::alloc::{AllocError, Global};
use std::marker::Model;
use std::rc::Rc;

/// A batch with several owners, such as a history and the events that were made of it. Contracts see the list of its edits.
#[derive(Drop)]
pub struct SharedBatch {
    batch: Rc<Batch>,
}

impl Model for SharedBatch {
    ghost use Rattle.std.specs.Prelude.{List};
    ghost use Rattle.text_rules.specs.declared.Op.{Op};

    ghost Value = { List Op };

    ghost view = { λ b. b.batch.value };
}

impl SharedBatch {
    /// Makes the first owner of the batch.
    pub fn of(alloc: Global, batch: Batch) -> Result<SharedBatch, AllocError>
        ensures { IfOk result (λ shared. shared ≡ batch) }
    {
        Ok(SharedBatch {
            batch: Rc::new(alloc, batch)?,
        })
    }

    /// Makes one more owner of the batch. Copies nothing.
    pub fn shared(&self) -> Result<SharedBatch, AllocError>
        ensures { IfOk result (λ shared. shared ≡ self.now) }
    {
        Ok(SharedBatch {
            batch: self.batch.clone()?,
        })
    }

    /// Returns the batch.
    pub fn batch(&self) -> &Batch
        ensures { result.now ≡ self.now }
    {
        &self.batch
    }
}
