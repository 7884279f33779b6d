//! Changes that were carried out, and the room to repeat them or take them back.

ghost use Rattle.std.specs.Prelude.{◌≡◌, ◌≤◌, IfOk, length};
ghost use Rattle.std.specs.List.{All};
ghost use Rattle.edit_stack.specs.Element.{step_of};
ghost use Rattle.batch_rules.specs.Batches.{most_units, applied_from, inverse_from, text_units, StandFrom};
ghost use Rattle.model_page.specs.declared.change.Change.TheVariants.{Ops};
ghost use Rattle.model_page.specs.Changes.{ops_by};
ghost use Rattle.text_batches.specs.Needs.{need_of_ops};
ghost use Rattle.model_page.specs.Needs.{need_along};
ghost use Rattle.model_page.specs.Ways.{forces, other};

use crate::placed::{PlacedBatch, PlacedRecast};
use edit_batches::Batch;
use edit_stack::Element;
use std::alloc::{AllocError, Global};
use text_batches::joined;
use text_buffer::{Need, TextBuffer};

/// The way in which changes are carried out.
#[derive(Clone, Copy)]
pub enum Way {
    /// Takes changes back.
    Back,
    /// Makes changes again.
    On,
}

impl Way {
    /// Returns whether ops force decorations on this way.
    pub(crate) fn forces(self) -> bool
        ensures { result ≡ forces self }
    {
        matches!(self, Way::Back)
    }

    pub(crate) fn other(self) -> Way
        ensures { result ≡ other self }
    {
        match self {
            Way::Back => Way::On,
            Way::On => Way::Back,
        }
    }
}

/// A change that was carried out.
#[derive(Drop)]
pub enum Change {
    /// A batch and its inverse.
    Ops {
        batch: PlacedBatch,
        inverse: PlacedBatch,
    },
    /// New line endings.
    Endings(PlacedRecast),
}

impl Change {
    /// Makes the change of a batch. `text` is the text before it.
    pub fn of_batch(alloc: Global, batch: Batch, text: &TextBuffer) -> Result<Change, AllocError>
        requires standing { StandFrom 0 text.now.units batch }
        requires fits { length (applied_from 0 text.now.units batch) ≤ most_units }
        ensures { IfOk result (λ change. change
            ≡ Ops batch (inverse_from 0 0 text.now.units batch)) }
    {
        let inverse = PlacedBatch::inverse_of(alloc, &batch, text)?;
        Ok(Change::Ops {
            batch: PlacedBatch::of(alloc, batch)?,
            inverse,
        })
    }
}

/// Returns the batch for this way: the batch or its inverse.
pub(crate) fn batch_for<'b>(
    batch: &'b PlacedBatch,
    inverse: &'b PlacedBatch,
    way: Way,
) -> &'b PlacedBatch
    ensures { result.now ≡ ops_by way (Ops batch.now inverse.now) }
{
    match way {
        Way::Back => inverse,
        Way::On => batch,
    }
}

/// Returns the room that the change needs this way.
pub fn need_of(change: &Change, way: Way) -> Need
    requires { text_units (ops_by way change.now) ≤ most_units }
    ensures { result ≡ need_of_ops (ops_by way change.now) }
{
    match change {
        Change::Ops { batch, inverse } => batch_for(batch, inverse, way).need(),
        Change::Endings(recast) => Need::of_edit(recast.side(way).units()),
    }
}

/// Returns the room that the changes of the step need this way. Fails if that is more than can be reserved.
pub fn need_of_step(step: &Element<Change>, way: Way) -> Result<Need, AllocError>
    requires { All (λ c. text_units (ops_by way c) ≤ most_units) (step_of step.now).changes }
    ensures { IfOk result (λ need. need ≡ need_along way (step_of step.now).changes) }
{
    let mut all = Need {
        edits: 0,
        units: 0,
        breaks: 0,
    };
    for at in 0..step.len() {
        let need = need_of(step.change(at), way);
        all = joined(all, need).ok_or(AllocError)?;
    }
    Ok(all)
}
