//! The edits that undo a batch.

ghost use Rattle.std.specs.Prelude.{◌≡◌, ◌-◌, ◌<◌, ◌≤◌, length, take, drop, IfOk};
ghost use Rattle.batch_rules.specs.Batches.{most_units, applied_from, inverse_from, StandFrom};

use std::alloc::{AllocError, Global};
use text_lengths::Span;
use text_rules::Op;
use unit_text::{Flat, Units};

/// Returns the edits that undo these, each with the units that it restores.
pub(crate) fn inverse_of<F: Flat>(
    alloc: Global,
    ops: &[Op],
    text: &F,
) -> Result<Vec<Op>, AllocError>
    requires standing { StandFrom 0 (F.units text.now) ops.now }
    requires fits { length (applied_from 0 (F.units text.now) ops.now) ≤ most_units }
    ensures { IfOk result (λ back. back.items ≡ inverse_from 0 0 (F.units text.now) ops.now) }
{
    let mut back = Vec::with_capacity(alloc, ops.len())?;
    let mut at = 0;
    let mut now = 0;
    for op in ops {
        let start = now + (op.span.start - at);
        let end = start + op.text.len();
        let text = units_between(alloc, text, op.span)?;
        back.push(Op {
            span: Span { start, end },
            text,
            force: false,
        })?;
        at = op.span.end;
        now = end;
    }
    Ok(back)
}

/// Copies the units of a span of the text.
fn units_between<F: Flat>(alloc: Global, text: &F, span: Span) -> Result<Units, AllocError>
    requires ordered { span.start ≤ span.end }
    requires within { span.end ≤ length (F.units text.now) }
    ensures { IfOk result (λ units. units
        ≡ take (span.end - span.start) (drop span.start (F.units text.now))) }
{
    let mut units = Vec::with_capacity(alloc, (span.end - span.start) as usize)?;
    text.copy(span.start, span.end, &mut units)?;
    Ok(Units::from_vec(units))
}
