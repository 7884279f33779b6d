//! The order of the edits of a batch.

ghost use Rattle.std.specs.Prelude.{◌≡◌, true, false, IfOk, IsOk};
ghost use Rattle.batch_rules.specs.Batches.{stands_before, sorted_ops};

use std::alloc::AllocError;
use std::marker::Model;
use text_rules::Op;

/// Edits sorted by end, then by start; equal ones keep their given order. Contracts see the list of them.
#[derive(Drop)]
pub struct Sorted {
    ops: Vec<Op>,
}

impl Model for Sorted {
    ghost use Rattle.std.specs.Prelude.{◌≡◌, List};
    ghost use Rattle.text_rules.specs.declared.Op.{Op};
    ghost use Rattle.batch_rules.specs.Batches.{sorted_ops};

    ghost Value = { List Op };

    ghost view = { λ s. s.ops.items };

    ghost invariant = { λ s. sorted_ops s.ops.items ≡ s.ops.items };
}

impl Sorted {
    /// Sorts the edits. Allocates only if they are not sorted yet.
    pub fn of(ops: Vec<Op>) -> Result<Sorted, AllocError>
        ensures sorted { IfOk result (λ sorted. sorted ≡ sorted_ops ops.items) }
        ensures sure { sorted_ops ops.items ≡ ops.items → IsOk result }
    {
        let ops = sorted_ops(ops)?;
        Ok(Sorted { ops })
    }

    /// Returns the edits in order.
    pub fn ops(&self) -> &[Op]
        ensures ops { result.now ≡ self.now }
        ensures in_order { sorted_ops self.now ≡ self.now }
    {
        self.ops.as_slice()
    }

    pub(crate) fn into_ops(self) -> Vec<Op>
        ensures ops { result.items ≡ self }
        ensures in_order { sorted_ops self ≡ self }
    {
        self.ops
    }
}

fn sorted_ops(mut ops: Vec<Op>) -> Result<Vec<Op>, AllocError>
    ensures sorted { IfOk result (λ sorted. sorted.items ≡ sorted_ops ops.items) }
    ensures sure { sorted_ops ops.items ≡ ops.items → IsOk result }
{
    if are_in_order(&ops) {
        return Ok(ops);
    }
    ops.sort_by_key(|op| (op.span.end, op.span.start))?;
    Ok(ops)
}

fn are_in_order(ops: &[Op]) -> bool
    ensures yes { result ≡ true → sorted_ops ops.now ≡ ops.now }
    ensures no { result ≡ false → ¬ (sorted_ops ops.now ≡ ops.now) }
{
    ops.is_sorted_by(|op, next| stands_before(op, next))
}

fn stands_before(op: &Op, next: &Op) -> bool
    ensures { result ≡ stands_before op.now next.now }
{
    op.span.end < next.span.end
        || (op.span.end == next.span.end && op.span.start <= next.span.start)
}
