//! The checks of a batch.

ghost use Rattle.std.specs.Prelude.{◌≡◌, nat_lt, length, List, ℕ};
ghost use Rattle.batch_rules.specs.Batches.{most_units, has_bad_span, overlap, applied_from, StandFrom, FollowFrom};
ghost use Rattle.batch_rules.specs.Events.{length_after};

use text_rules::{MOST_TEXT_UNITS, Op, is_bad_span};
use unit_text::Flat;

pub(crate) fn has_bad_span<F: Flat>(ops: &[Op], text: &F) -> bool
    ensures { result ≡ has_bad_span (F.kind text.now) (F.units text.now) ops.now }
{
    ops.iter().any(|op| is_bad_span(text, op.span))
}

/// Returns whether one of the edits, which are in order, starts below the end of the one before it.
pub(crate) fn overlap(ops: &[Op]) -> bool
    ensures { result ≡ overlap ops.now }
{
    let mut end = 0;
    for op in ops {
        if op.span.start < end {
            return true;
        }
        end = op.span.end;
    }
    false
}

/// Returns whether the text after the edits would have more units than a text may have.
pub(crate) fn is_too_long<F: Flat>(ops: &[Op], text: &F) -> bool
    requires { StandFrom 0 (F.units text.now) ops.now }
    ensures { result ≡ nat_lt most_units (length (applied_from 0 (F.units text.now) ops.now)) }
{
    length_after(text.len(), ops).is_none()
}

/// Returns the length of a text of `len` units after the edits, which are in order and do not overlap; None if one ends above `len`, or the
/// new text would have more units than a text may have.
pub(crate) fn length_after(len: u64, ops: &[Op]) -> Option<u64>
    requires { FollowFrom 0 ops.now }
    ensures { (x : List ℕ) → length x ≡ len → result ≡ length_after x ops.now }
{
    let mut at = 0;
    let mut room = MOST_TEXT_UNITS;
    for op in ops {
        if op.span.end > len {
            return None;
        }
        room = room
            .checked_sub(op.span.start - at)?
            .checked_sub(op.text.len())?;
        at = op.span.end;
    }
    let left = room.checked_sub(len - at)?;
    Some(MOST_TEXT_UNITS - left)
}
