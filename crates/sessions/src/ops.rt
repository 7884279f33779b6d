//! Converts the edits of a line from positions to offsets.

ghost use Rattle.std.specs.Prelude.{◌≡◌, ◌<◌};
ghost use Rattle.group_rules.specs.declared.TheConstants.{DOC_COUNT};
ghost use Rattle.group_rules.specs.Group.{doc_in};
ghost use Rattle.model_group.specs.State.{documents};
ghost use Rattle.sessions.specs.Bytes.{AreFound};
ghost use Rattle.session_rules.specs.Step.{span_of, op_at, ops_at};

use model_core::{ModelError, Op};
use model_group::Group;
use script_lines::{LineOp, LineOps, Place};
use std::alloc::Global;
use text_lengths::Span;

/// Converts the edits of a document to offsets. `Range` if a position is invalid. Remembers the pieces for the next edit.
pub(crate) fn ops_at(
    alloc: Global,
    group: &mut Group,
    doc: u64,
    ops: LineOps,
) -> Result<Vec<Op>, ModelError>
    requires { doc < DOC_COUNT }
    ensures found { AreFound result (ops_at (doc_in (documents group.old) doc) ops) }
    ensures same { group.new ≡ group.old }
{
    let ops = ops.into_vec();
    let mut found = Vec::with_capacity(alloc, ops.len()).map_err(|_| ModelError::Memory)?;
    for op in ops {
        let op = op_at(group, doc, op).ok_or(ModelError::Range)?;
        found.push(op).map_err(|_| ModelError::Memory)?;
    }
    Ok(found)
}

fn op_at(group: &mut Group, doc: u64, op: LineOp) -> Option<Op>
    requires { doc < DOC_COUNT }
    ensures found { result ≡ op_at (doc_in (documents group.old) doc) op }
    ensures same { group.new ≡ group.old }
{
    let span = span_of(group, doc, op.place)?;
    Some(Op {
        span,
        text: op.text,
        force: op.force,
    })
}

fn span_of(group: &mut Group, doc: u64, place: Place) -> Option<Span>
    requires { doc < DOC_COUNT }
    ensures found { result ≡ span_of (doc_in (documents group.old) doc) place }
    ensures same { group.new ≡ group.old }
{
    match place {
        Place::At(span) => Some(span),
        Place::InRange(start, end) => {
            let start = group.locate(doc, start)?;
            let end = group.locate(doc, end)?;
            Some(Span { start, end })
        }
    }
}
