//! A checked batch.

ghost use Rattle.std.specs.Prelude.{◌≡◌, ℕ, ◌+◌, ◌<◌, ◌≤◌, ◌^◌, [], ◌∷◌, length, Err, IfOk, List};
ghost use Rattle.batch_rules.specs.Batches.{most_units, applied_from, applied, checked_batch, ops_in, inverse_from, text_units, StandFrom, FollowFrom};
ghost use Rattle.batch_rules.specs.Events.{length_after, whole_op};
ghost use Rattle.edit_batches.specs.Outcomes.{Checks};

use crate::checks::{has_bad_span, is_too_long, length_after, overlap};
use crate::inverse::inverse_of;
use crate::kinds::ops_in;
use crate::order::Sorted;
use batch_rules::BatchError;
use std::alloc::{AllocError, Global};
use std::marker::Model;
use text_lengths::Span;
use text_rules::Op;
use unit_text::{Flat, Units};

/// Edits of one text, in order and without overlap. Contracts see the list of them.
#[derive(Drop)]
pub struct Batch {
    ops: Vec<Op>,
}

impl Model for Batch {
    ghost use Rattle.std.specs.Prelude.{List};
    ghost use Rattle.text_rules.specs.declared.Op.{Op};
    ghost use Rattle.batch_rules.specs.Batches.{FollowFrom};

    ghost Value = { List Op };

    ghost view = { λ b. b.ops.items };

    ghost invariant = { λ b. FollowFrom 0 b.ops.items };
}

impl Batch {
    /// Returns a batch of these edits, with their texts in the line endings of the text's kind. Fails with `Range` if a span is invalid;
    /// else with `Overlap` if two edits overlap; else with `Limit` if the new text would be too long. Allocates only if an edit's text has
    /// other line endings, and then may fail with `Memory`.
    pub fn checked<F: Flat>(ops: Sorted, text: &F) -> Result<Batch, BatchError>
        ensures rule { Checks result (checked_batch (F.kind text.now) (F.units text.now) ops) }
        ensures standing { IfOk result (λ b. StandFrom 0 (F.units text.now) b) }
        ensures fits { IfOk result
            (λ b. length (applied_from 0 (F.units text.now) b) ≤ most_units) }
        ensures texts { IfOk result (λ b. text_units b ≤ most_units) }
        ensures sure { ops_in (F.kind text.now) ops ≡ ops → ¬ (result ≡ Err BatchError.Memory) }
    {
        let ops = ops_in(ops.into_ops(), text.kind()).map_err(|_| BatchError::Memory)?;
        if has_bad_span(&ops, text) {
            return Err(BatchError::Range);
        }
        if overlap(&ops) {
            return Err(BatchError::Overlap);
        }
        if is_too_long(&ops, text) {
            return Err(BatchError::Limit);
        }
        Ok(Batch { ops })
    }

    /// Returns the batch that undoes this one; `text` is the text before this one. Reads only the units that this batch deletes.
    pub fn inverse<F: Flat>(&self, alloc: Global, text: &F) -> Result<Batch, AllocError>
        requires standing { StandFrom 0 (F.units text.now) self.now }
        requires fits { length (applied_from 0 (F.units text.now) self.now) ≤ most_units }
        ensures ops { IfOk result (λ b. b ≡ inverse_from 0 0 (F.units text.now) self.now) }
        ensures standing { IfOk result
            (λ b. StandFrom 0 (applied_from 0 (F.units text.now) self.now) b) }
        ensures back { IfOk result
            (λ b. applied (applied (F.units text.now) self.now) b ≡ F.units text.now) }
        ensures texts { IfOk result (λ b. text_units b ≤ length (F.units text.now)) }
    {
        let ops = inverse_of(alloc, &self.ops, text)?;
        Ok(Batch { ops })
    }

    /// Returns the edits in order.
    pub fn ops(&self) -> &[Op]
        ensures ops { result.now ≡ self.now }
        ensures in_order { FollowFrom 0 self.now }
    {
        self.ops.as_slice()
    }

    /// Returns the total number of units of the edits' texts.
    pub fn text_units(&self) -> u64
        requires { text_units self.now < 2 ^ 64 }
        ensures { result ≡ text_units self.now }
    {
        self.ops.iter().map(|op| op.text.len()).sum()
    }

    /// Returns the batch of one edit that replaces the span by these units.
    pub fn of_one(
        alloc: Global,
        span: Span,
        units: &[u16],
        force: bool,
    ) -> Result<Batch, AllocError>
        requires { span.start ≤ span.end }
        ensures { IfOk result (λ b. b
            ≡ record { span = span; text = units.now; force = force } ∷ []) }
    {
        let ops = one_op(alloc, span, units, force)?;
        Ok(Batch { ops })
    }

    /// Returns the batch of one edit that replaces a whole text of `len` units by these units.
    pub fn of_whole(alloc: Global, len: u64, units: &[u16]) -> Result<Batch, AllocError>
        ensures { (x : List ℕ) → length x ≡ len → IfOk result (λ b. b ≡ whole_op x units.now) }
    {
        Batch::of_one(alloc, Span { start: 0, end: len }, units, false)
    }

    /// Returns the length after the batch of a text of `len` units; None if an edit ends above `len`, or the new text would have more units
    /// than a text may have.
    pub fn length_after(&self, len: u64) -> Option<u64>
        ensures { (x : List ℕ) → length x ≡ len → result ≡ length_after x self.now }
    {
        length_after(len, &self.ops)
    }
}

/// Returns a list of one edit that replaces the span by these units.
pub fn one_op(alloc: Global, span: Span, units: &[u16], force: bool) -> Result<Vec<Op>, AllocError>
    ensures { IfOk result (λ ops. ops.items
        ≡ record { span = span; text = units.now; force = force } ∷ []) }
{
    let text = Units::copy_of(alloc, units)?;
    let mut ops = Vec::with_capacity(alloc, 1)?;
    ops.push(Op { span, text, force })?;
    Ok(ops)
}
