//! Changes with the places of their texts.

ghost use Rattle.std.specs.Prelude.{◌≡◌, ◌<◌, ◌≤◌, length, slice_index_or, IfOk};
ghost use Rattle.unit_text.specs.Kinds.{IsOfKind};
ghost use Rattle.batch_rules.specs.Batches.{most_units, applied_from, inverse_from, text_units, StandFrom, FollowFrom};
ghost use Rattle.decoration_rules.specs.Lines.{AreLineMoves};
ghost use Rattle.decoration_rules.specs.LineMoves.{line_moves, HaveSameContents};
ghost use Rattle.model_page.specs.Changes.{text_from, text_to};
ghost use Rattle.text_batches.specs.Needs.{need_of_ops};
ghost use Rattle.model_page.specs.Placed.{op_of};

use crate::change::Way;
use crate::form::{Form, MOST_SHORT, Place, PlacedOps, short, short_inverse};
use chunk_buffers::ChunkSpan;
use edit_batches::{Batch, SharedBatch};
use recasts::{Recast, Side};
use std::alloc::{AllocError, Global};
use std::cell::Cell;
use std::marker::Model;
use text_batches::need_of_batch;
use text_buffer::{Need, TextBuffer};
use text_lengths::Span;
use text_rules::Op;

/// A batch for repeated use, with the places of its texts. Contracts see its ops; nothing depends on the places.
///
/// A single op that inserts at most four units allocates nothing and keeps no place.
#[derive(Drop)]
pub struct PlacedBatch {
    form: Form,
}

impl Model for PlacedBatch {
    ghost use Rattle.std.specs.Prelude.{List};
    ghost use Rattle.text_rules.specs.declared.Op.{Op};
    ghost use Rattle.model_page.specs.Placed.{ops_kept, IsKept};

    ghost Value = { List Op };

    ghost view = { λ p. ops_kept p.form };

    ghost invariant = { λ p. IsKept p.form };
}

/// One op of a batch, to be read.
#[derive(Clone, Copy)]
pub(crate) struct OpView<'b> {
    pub(crate) span: Span,
    pub(crate) text: &'b [u16],
    pub(crate) force: bool,
}

impl PlacedBatch {
    /// Makes one from a batch that was not carried out yet.
    pub fn of(alloc: Global, batch: Batch) -> Result<PlacedBatch, AllocError>
        ensures { IfOk result (λ placed. placed ≡ batch) }
    {
        let form = match batch.ops() {
            [op] => short(op.span, op.text.as_slice(), op.force),
            _ => None,
        };
        match form {
            Some(form) => Ok(PlacedBatch { form }),
            None => PlacedBatch::of_many(alloc, batch),
        }
    }

    fn of_many(alloc: Global, batch: Batch) -> Result<PlacedBatch, AllocError>
        ensures { IfOk result (λ placed. placed ≡ batch) }
    {
        let places = places_for(alloc, batch.ops())?;
        let batch = SharedBatch::of(alloc, batch)?;
        let ops = Box::new(alloc, PlacedOps { batch, places })?;
        Ok(PlacedBatch {
            form: Form::Many(ops),
        })
    }

    /// Makes the inverse of the batch. `text` is the text before it. Reads only the units that the batch removes.
    pub fn inverse_of(
        alloc: Global,
        batch: &Batch,
        text: &TextBuffer,
    ) -> Result<PlacedBatch, AllocError>
        requires standing { StandFrom 0 text.now.units batch.now }
        requires fits { length (applied_from 0 text.now.units batch.now) ≤ most_units }
        ensures { IfOk result (λ placed. placed ≡ inverse_from 0 0 text.now.units batch.now) }
    {
        let form = match batch.ops() {
            [op] => short_inverse(op, text),
            _ => None,
        };
        match form {
            Some(form) => Ok(PlacedBatch { form }),
            None => PlacedBatch::of_many(alloc, batch.inverse(alloc, text)?),
        }
    }

    /// Returns the number of ops.
    pub(crate) fn len(&self) -> usize
        ensures { result ≡ length self.now }
    {
        match &self.form {
            Form::Short { .. } => 1,
            Form::Many(kept) => kept.batch.batch().ops().len(),
        }
    }

    /// Returns the op with this index.
    pub(crate) fn op(&self, at: usize) -> OpView<'_>
        requires { at < length self.now }
        ensures { op_of result ≡ slice_index_or self.now at (op_of result) }
    {
        match &self.form {
            Form::Short {
                len,
                force,
                taken,
                units,
                start,
            } => OpView {
                span: Span {
                    start: *start,
                    end: *start + *taken as u64,
                },
                text: &units[..*len as usize],
                force: *force,
            },
            Form::Many(kept) => {
                let op = &kept.batch.batch().ops()[at];
                OpView {
                    span: op.span,
                    text: op.text.as_slice(),
                    force: op.force,
                }
            }
        }
    }

    /// Returns the place of the text with this index, if known.
    pub(crate) fn known(&self, at: usize) -> Option<ChunkSpan> {
        match &self.form {
            Form::Short { .. } => None,
            Form::Many(kept) => kept.places.get(at)?.get(),
        }
    }

    /// Stores the place of the text.
    pub(crate) fn note(&self, at: usize, known: Option<ChunkSpan>) {
        if let Form::Many(kept) = &self.form {
            if let Some(place) = kept.places.get(at) {
                place.set(known);
            }
        }
    }

    /// Returns the room that its ops need.
    pub(crate) fn need(&self) -> Need
        requires { FollowFrom 0 self.now → text_units self.now ≤ most_units }
        ensures { result ≡ need_of_ops self.now }
    {
        match &self.form {
            Form::Short { len, units, .. } => Need::of_edit(&units[..*len as usize]),
            Form::Many(kept) => need_of_batch(kept.batch.batch()),
        }
    }

    /// Makes one more owner of the batch. Copies only an op that is stored inline.
    pub(crate) fn shared(&self, alloc: Global) -> Result<SharedBatch, AllocError>
        ensures { IfOk result (λ batch. batch ≡ self.now) }
    {
        match &self.form {
            Form::Short { .. } => {
                let op = self.op(0);
                let batch = Batch::of_one(alloc, op.span, op.text, op.force)?;
                SharedBatch::of(alloc, batch)
            }
            Form::Many(kept) => kept.batch.shared(),
        }
    }
}

// Makes an unknown place for each op, or none at all if all texts are stored inline.
fn places_for(alloc: Global, ops: &[Op]) -> Result<Vec<Place>, AllocError> {
    if ops.iter().all(|op| op.text.as_slice().len() <= MOST_SHORT) {
        return Ok(Vec::new(alloc));
    }
    let mut places = Vec::with_capacity(alloc, ops.len())?;
    for _op in ops {
        places.push(Cell::new(None))?;
    }
    Ok(places)
}

/// A recast for repeated use, with the places of its two texts. Contracts see the recast; nothing depends on the places.
#[derive(Drop)]
pub struct PlacedRecast {
    kept: Box<KeptRecast>,
}

/// A recast and the places of its two texts.
#[derive(Drop)]
pub(crate) struct KeptRecast {
    recast: Recast,
    before: Place,
    after: Place,
}

impl Model for PlacedRecast {
    ghost use Rattle.decoration_rules.specs.Recasts.{RecastState};

    ghost Value = { RecastState };

    ghost view = { λ p. p.kept.value.recast };
}

impl PlacedRecast {
    /// Makes one from a recast that was not carried out yet.
    pub fn of(alloc: Global, recast: Recast) -> Result<PlacedRecast, AllocError>
        ensures { IfOk result (λ placed. placed ≡ recast) }
    {
        let kept = KeptRecast {
            recast,
            before: Cell::new(None),
            after: Cell::new(None),
        };
        Ok(PlacedRecast {
            kept: Box::new(alloc, kept)?,
        })
    }

    /// Returns the text to which it leads this way.
    pub(crate) fn side(&self, way: Way) -> &Side
        ensures text { record { units = result.now.units; kind = result.now.kind } ≡ text_to way self.now }
        ensures moves { result.now.moves ≡ line_moves (text_from way self.now).units (text_to way self.now).units }
        ensures contents { HaveSameContents (text_from way self.now).units (text_to way self.now).units }
        ensures endings { IsOfKind result.now.kind result.now.units }
        ensures lines { AreLineMoves result.now.moves }
        ensures fits { length result.now.units ≤ most_units }
    {
        match way {
            Way::Back => self.kept.recast.before(),
            Way::On => self.kept.recast.after(),
        }
    }

    /// Returns the place of that text, if known.
    pub(crate) fn place(&self, way: Way) -> &Place {
        match way {
            Way::Back => &self.kept.before,
            Way::On => &self.kept.after,
        }
    }
}
