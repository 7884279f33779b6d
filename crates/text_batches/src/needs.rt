//! The room that batches need.

ghost use Rattle.std.specs.Prelude.{◌≡◌, ◌+◌, ◌≤◌, ◌<◌, ◌^◌, IfOk, IfSome};
ghost use Rattle.std.specs.List.{All};
ghost use Rattle.batch_rules.specs.Batches.{most_units, text_units, FollowFrom};
ghost use Rattle.text_batches.specs.Needs.{edit_count, need_of_ops, need_of_batches, text_breaks};

use edit_batches::{Batch, SharedBatch};
use line_starts::count_breaks;
use std::alloc::AllocError;
use text_buffer::{Need, part_count};
use text_rules::Op;

/// Returns the room that the batches need together. The edits of each batch are in order. Fails if that is more than can be reserved.
pub fn need_of_batches(batches: &[SharedBatch]) -> Result<Need, AllocError>
    requires { All (λ ops. FollowFrom 0 ops → text_units ops ≤ most_units) batches.now }
    ensures { IfOk result (λ need. need ≡ need_of_batches batches.now) }
{
    let mut all = Need {
        edits: 0,
        units: 0,
        breaks: 0,
    };
    for batch in batches {
        all = joined(all, need_of_batch(batch.batch())).ok_or(AllocError)?;
    }
    Ok(all)
}

/// Returns the room that the ops of the batch need.
pub fn need_of_batch(batch: &Batch) -> Need
    requires { FollowFrom 0 batch.now → text_units batch.now ≤ most_units }
    ensures { result ≡ need_of_ops batch.now }
{
    Need {
        edits: edit_count(batch.ops()),
        units: batch.text_units(),
        breaks: text_breaks(batch.ops()),
    }
}

/// Returns the sum of both; None if that is more than can be reserved.
pub fn joined(a: Need, b: Need) -> Option<Need>
    ensures edits { IfSome result (λ need. need.edits ≡ a.edits + b.edits) }
    ensures units { IfSome result (λ need. need.units ≡ a.units + b.units) }
    ensures breaks { IfSome result (λ need. need.breaks ≡ a.breaks + b.breaks) }
{
    Some(Need {
        edits: a.edits.checked_add(b.edits)?,
        units: a.units.checked_add(b.units)?,
        breaks: a.breaks.checked_add(b.breaks)?,
    })
}

// Returns the number of edits of the ops: one for each part of their texts.
fn edit_count(ops: &[Op]) -> u64
    requires { text_units ops.now ≤ most_units }
    ensures { result ≡ edit_count ops.now }
{
    let mut edits = 0;
    for op in ops {
        edits += part_count(op.text.as_slice());
    }
    edits
}

// Returns the number of breaks in the texts of all ops.
fn text_breaks(ops: &[Op]) -> u64
    requires { text_units ops.now < 2 ^ 64 }
    ensures { result ≡ text_breaks ops.now }
{
    let mut breaks = 0;
    for op in ops {
        breaks += count_breaks(op.text.as_slice());
    }
    breaks
}
