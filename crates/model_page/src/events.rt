//! Changes as batches.

ghost use Rattle.std.specs.Prelude.{◌≡◌, IfOk};
ghost use Rattle.edit_stack.specs.Element.{step_of};
ghost use Rattle.model_page.specs.Changes.{ops_by};
ghost use Rattle.model_page.specs.Ways.{batches_by};

use crate::apply::place_at;
use crate::change::{Change, Way, batch_for};
use edit_batches::{Batch, SharedBatch};
use edit_stack::Element;
use std::alloc::{AllocError, Global};
use unit_text::Flat;

/// Returns the batch that is carried out for the change this way, as one more owner. Of new line endings it copies the text.
pub fn batch_along(alloc: Global, change: &Change, way: Way) -> Result<SharedBatch, AllocError>
    ensures { IfOk result (λ batch. batch ≡ ops_by way change.now) }
{
    match change {
        Change::Ops { batch, inverse } => batch_for(batch, inverse, way).shared(alloc),
        Change::Endings(recast) => {
            let from = recast.side(way.other()).units().len() as u64;
            let batch = Batch::of_whole(alloc, from, recast.side(way).units())?;
            SharedBatch::of(alloc, batch)
        }
    }
}

/// Returns the batches that are carried out for the step this way, in order, as `batch_along` does.
pub fn batches_along(
    alloc: Global,
    step: &Element<Change>,
    way: Way,
) -> Result<Vec<SharedBatch>, AllocError>
    ensures { IfOk result (λ batches. batches.items ≡ batches_by way (step_of step.now).changes) }
{
    let mut batches = Vec::with_capacity(alloc, step.len())?;
    for done in 0..step.len() {
        let change = step.change(place_at(way, step.len(), done));
        batches.push(batch_along(alloc, change, way)?)?;
    }
    Ok(batches)
}
