//! The reply to a joint edit.

ghost use Rattle.std.specs.Prelude.{◌≡◌, ◌+◌, ◌*◌, ◌<◌, ◌≤◌, ◌++◌, [], length, map, vec_len, vec_capacity, IfOk, IsOk};
ghost use Rattle.std.specs.List.{All};
ghost use Rattle.group_rules.specs.declared.TheConstants.{DOC_COUNT};
ghost use Rattle.model_group.specs.State.{documents};
ghost use Rattle.script_lines.specs.declared.request.DocEdit.{DocEdit};
ghost use Rattle.session_rules.specs.Step.{batches_at, joint_reply, joint_answer};
ghost use Rattle.script_lines.specs.Proper.{AreBatches};
ghost use Rattle.sessions.specs.Joint.{AreBatchesFound, doc_part};
ghost use Rattle.sessions.specs.Told.{TellsBy};

use crate::ops::ops_at;
use crate::outcome::{Outcome, Refused, Reply};
use model_core::{Model, ModelError};
use model_group::{DocBatch, Group, names_badly};
use script_lines::{DocEdit, DocEdits, Refusal, long_begin, long_end, long_number};
use std::alloc::{AllocError, Global};

/// The most bytes of a document's part of the reply: four numbers.
const DOC_BYTES: usize = 84;

/// The bytes of `ok` and LF.
const END_BYTES: usize = 3;

/// Reserves room for the whole reply before the first change. So nothing has changed if the reply is `! memory`.
pub(crate) fn joint_reply(alloc: Global, group: &mut Group, edits: DocEdits) -> Outcome
    requires { AreBatches edits }
    ensures { let g = documents group.old in
        TellsBy (joint_answer g edits) g result (documents group.new) }
{
    let docs = docs_of(alloc, edits.as_slice())?;
    if names_badly(docs.as_slice()) {
        return Err(Refused(Refusal::Unknown));
    }
    let batches = batches_at(alloc, group, edits)?;
    let mut reply = room_for(alloc, docs.len())?;
    group.joint(batches)?;
    tell_all(group, docs.as_slice(), &mut reply)?;
    Ok(Reply::Long(reply))
}

fn docs_of(alloc: Global, edits: &[DocEdit]) -> Result<Vec<u64>, AllocError>
    ensures { IfOk result (λ docs. docs.items ≡ map (λ (edit : DocEdit). edit.doc) edits.now) }
{
    edits.iter().map(|edit| edit.doc).collect(alloc)
}

/// Converts the batches to offsets. `Range` if a position is invalid.
fn batches_at(
    alloc: Global,
    group: &mut Group,
    edits: DocEdits,
) -> Result<Vec<DocBatch>, ModelError>
    requires { All (λ (edit : DocEdit). edit.doc < DOC_COUNT) edits }
    ensures found { AreBatchesFound result (batches_at (documents group.old) edits) }
    ensures same { group.new ≡ group.old }
{
    let edits = edits.into_vec();
    let mut batches = Vec::with_capacity(alloc, edits.len()).map_err(|_| ModelError::Memory)?;
    for edit in edits {
        let ops = ops_at(alloc, group, edit.doc, edit.ops)?;
        batches
            .push(DocBatch { doc: edit.doc, ops })
            .map_err(|_| ModelError::Memory)?;
    }
    Ok(batches)
}

/// Returns an empty reply with room for `docs` documents.
fn room_for(alloc: Global, docs: usize) -> Result<Vec<u8>, AllocError>
    ensures empty { IfOk result (λ reply. reply.items ≡ []) }
    ensures room { IfOk result (λ reply. docs * DOC_BYTES + END_BYTES ≤ vec_capacity reply) }
{
    let Some(most) = docs.checked_mul(DOC_BYTES) else {
        return Err(AllocError);
    };
    let Some(most) = most.checked_add(END_BYTES) else {
        return Err(AllocError);
    };
    Vec::with_capacity(alloc, most)
}

/// Appends `ok` and the part of each document, into reserved room.
fn tell_all(group: &Group, docs: &[u64], reply: &mut Vec<u8>) -> Result<(), AllocError>
    requires there { All (λ doc. doc < DOC_COUNT) docs.now }
    requires room { vec_len reply.old + length docs.now * DOC_BYTES + END_BYTES
        ≤ vec_capacity reply.old }
    ensures sure { IsOk result }
    ensures told { reply.new.items
        ≡ reply.old.items ++ joint_reply (documents group.now) docs.now }
{
    long_begin(reply)?;
    for doc in docs {
        tell_doc(*doc, group.doc(*doc), reply)?;
    }
    long_end(reply)
}

/// Appends ` DOC VERSION UNITS LINES`.
fn tell_doc(doc: u64, model: &Model, reply: &mut Vec<u8>) -> Result<(), AllocError>
    requires room { vec_len reply.old + DOC_BYTES ≤ vec_capacity reply.old }
    ensures sure { IsOk result }
    ensures told { reply.new.items ≡ reply.old.items ++ doc_part doc model.now.document }
    ensures capacity { vec_capacity reply.old ≤ vec_capacity reply.new }
    ensures len { vec_len reply.new ≤ vec_len reply.old + DOC_BYTES }
{
    long_number(doc, reply)?;
    long_number(model.versions().0, reply)?;
    long_number(model.len(), reply)?;
    long_number(model.line_count(), reply)
}
