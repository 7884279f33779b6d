//! Brings the texts of a batch into one kind of line endings.

ghost use Rattle.std.specs.Prelude.{◌≡◌, IfOk, IsOk};
ghost use Rattle.batch_rules.specs.Batches.{ops_in};

use std::alloc::AllocError;
use text_rules::Op;
use unit_text::Kind;

/// Returns the edits with the line endings of the kind in their texts. Allocates only for texts that have others.
pub(crate) fn ops_in(mut ops: Vec<Op>, kind: Kind) -> Result<Vec<Op>, AllocError>
    ensures ok { IfOk result (λ new. new.items ≡ ops_in kind ops.items) }
    ensures sure { ops_in kind ops.items ≡ ops.items → IsOk result }
{
    for at in 0..ops.len() {
        ops[at].text.normalize(kind)?;
    }
    Ok(ops)
}
