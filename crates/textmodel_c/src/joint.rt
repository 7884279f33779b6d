//! Joint edits: batches in several documents, all or none.

ghost use Rattle.std.specs.Prelude.{◌≡◌, All, Result, Ok, map, IfOk, OnOk, ⊤};
ghost use Rattle.document_rules.specs.Refusals.{FlatRefusal};
ghost use Rattle.document_rules.specs.Outcomes.{RefusedFor};
ghost use Rattle.group_rules.specs.Group.{FlatGroup};
ghost use Rattle.group_rules.specs.Joint.{flat_batch};
ghost use Rattle.group_rules.specs.Outcomes.{ChangesAll, IsRefusedFor};
ghost use Rattle.model_group.specs.State.{documents};
ghost use Rattle.textmodel_c.specs.JointOps.{doc_op_of, ends_in, with_op, batches_of, batches_in_utf8, group_batch, joint_of, ops_in_units, plainly, CountsOp, GivesBatches, GivesOps, HasOps, JointInUtf8, JointlyChanged};
ghost use Rattle.textmodel_c.specs.Told.{LeavesSession};
ghost use Rattle.textmodel_c.specs.Utf8.{TellsFault};

use crate::handle::{Handle, taken};
use crate::status::Status;
use crate::utf8::taken_units;
use model_core::{ModelError, Op, Span, Units, units_of};
use model_group::{DOC_COUNT, DocBatch, Group, GroupError};
use std::alloc::{AllocError, Global};
use std::str::from_utf8;

/// One edit of a joint edit. It replaces the span from `start` up to `end` of the document by the next `units` units of the joined text.
/// `force` moves the decorations at the span to its end, whatever their stickiness.
#[repr(C)]
#[derive(Clone, Copy)]
pub struct DocOp {
    pub doc: u64,
    pub start: u64,
    pub end: u64,
    pub units: u64,
    pub force: bool,
}

fn doc_op_of(alloc: Global, op: DocOp, text: &[u16]) -> Result<Op, AllocError>
    ensures { IfOk result (λ made. made ≡ doc_op_of op text.now) }
{
    Ok(Op {
        span: Span {
            start: op.start,
            end: op.end,
        },
        text: Units::copy_of(alloc, text)?,
        force: op.force,
    })
}

// Returns whether the last batch is for this document.
fn ends_in(batches: &[DocBatch], doc: u64) -> bool
    ensures { result ≡ ends_in (map flat_batch batches.now) doc }
{
    match batches.last() {
        Some(last) => last.doc == doc,
        None => false,
    }
}

// Appends the op to the last batch if that is for the same document. Otherwise starts a new batch with it.
fn add_op(alloc: Global, batches: &mut Vec<DocBatch>, doc: u64, op: Op) -> Result<(), AllocError>
    ensures { OnOk result (map flat_batch batches.new.items
        ≡ with_op (map flat_batch batches.old.items) doc op) }
{
    if !ends_in(batches, doc) {
        let mut ops = Vec::new(alloc);
        ops.push(op)?;
        batches.push(DocBatch { doc, ops })?;
        return Ok(());
    }
    if let Some(last) = batches.last_mut() {
        last.ops.push(op)?;
    }
    Ok(())
}

// Splits the ops into batches. `Range` if the ops do not use up the text exactly.
fn batches_of(alloc: Global, ops: &[DocOp], text: &[u16]) -> Result<Vec<DocBatch>, GroupError>
    ensures batches { GivesBatches result (batches_of ops.now text.now) }
    ensures some { IfOk result (λ batches. All HasOps batches.items) }
{
    let mut batches = Vec::new(alloc);
    let mut rest = text;
    for op in ops {
        if op.units > rest.len() as u64 {
            return Err(GroupError::Range);
        }
        let (own, after) = rest.split_at(op.units as usize);
        let made = doc_op_of(alloc, *op, own).map_err(|_| GroupError::Memory)?;
        add_op(alloc, &mut batches, op.doc, made).map_err(|_| GroupError::Memory)?;
        rest = after;
    }
    if !rest.is_empty() {
        return Err(GroupError::Range);
    }
    Ok(batches)
}

fn error_of(error: ModelError) -> GroupError
    ensures { (rule : Result FlatGroup FlatRefusal) → RefusedFor error rule
        → IsRefusedFor result (plainly rule) }
{
    match error {
        ModelError::Unknown => GroupError::Unknown,
        ModelError::Range => GroupError::Range,
        ModelError::Overlap => GroupError::Overlap,
        ModelError::Limit => GroupError::Limit,
        ModelError::Memory => GroupError::Memory,
    }
}

// Carries out a batch in one document.
fn edit_one(group: &mut Group, batch: DocBatch) -> Result<(), GroupError>
    ensures { ChangesAll result (documents group.old) (documents group.new)
        (group_batch (flat_batch batch) (documents group.old)) }
{
    let DocBatch { doc, ops } = batch;
    if doc >= DOC_COUNT {
        return Err(GroupError::Unknown);
    }
    group.edit(doc, ops).map_err(error_of)
}

// Carries out the batches, all or none.
fn edit_all(group: &mut Group, mut batches: Vec<DocBatch>) -> Result<(), GroupError>
    requires { All HasOps batches.items }
    ensures { ChangesAll result (documents group.old) (documents group.new)
        (joint_of (Ok (map flat_batch batches.items)) (documents group.old)) }
{
    if batches.len() > 1 {
        return group.joint(batches);
    }
    match batches.pop() {
        Some(batch) => edit_one(group, batch),
        None => Err(GroupError::Range),
    }
}

fn edit_jointly(
    alloc: Global,
    group: &mut Group,
    ops: &[DocOp],
    text: &[u16],
) -> Result<(), GroupError>
    ensures { ChangesAll result (documents group.old) (documents group.new)
        (joint_of (batches_of ops.now text.now) (documents group.old)) }
{
    let batches = batches_of(alloc, ops, text)?;
    edit_all(group, batches)
}

/// Carries out edits in one or several documents, all or none. Adjacent ops of one document are its batch. `text` has the texts of all ops,
/// one after another. With several documents, each gets its own step of undo; these steps are undone and redone together. `Range` if there
/// is no op, or the ops do not use up `text` exactly; else `Unknown` if a document number is above 63 or is repeated after another one;
/// else `Range` if a span is invalid; else `Overlap` if two spans of a document overlap; else `Limit` if a new text or a version would pass
/// its limit.
#[unsafe(no_mangle)]
pub extern "C" fn tm_raw_joint(
    alloc: Global,
    handle: &mut Handle,
    ops: &[DocOp],
    text: &[u16],
) -> u32
    ensures documents { LeavesSession result handle.old.held handle.new.held ⊤
        (JointlyChanged result (batches_of ops.now text.now)) }
{
    let mut contents = taken!(handle, alloc);
    let answer = edit_jointly(alloc, &mut contents.session.group, ops, text);
    handle.put(contents);
    Status::of_joint(answer).number()
}

// Converts the length of the op's text from bytes of UTF-8 to units. Fails with `Range` if the text is not valid UTF-8.
fn op_in_units(alloc: Global, op: DocOp, text: &[u8]) -> Result<DocOp, GroupError>
    ensures { CountsOp op text.now result }
{
    let text = match from_utf8(text) {
        Ok(text) => text,
        Err(_) => return Err(GroupError::Range),
    };
    let mut units = Vec::new(alloc);
    units_of(text, &mut units).map_err(|_| GroupError::Memory)?;
    Ok(DocOp {
        units: units.len() as u64,
        ..op
    })
}

// Converts the lengths of all texts from bytes of UTF-8 to units.
fn ops_in_units(alloc: Global, ops: &[DocOp], text: &[u8]) -> Result<Vec<DocOp>, GroupError>
    ensures { GivesOps result (ops_in_units ops.now text.now) }
{
    let mut counted = Vec::new(alloc);
    let mut rest = text;
    for op in ops {
        if op.units > rest.len() as u64 {
            return Err(GroupError::Range);
        }
        let (own, after) = rest.split_at(op.units as usize);
        let op = op_in_units(alloc, *op, own)?;
        counted.push(op).map_err(|_| GroupError::Memory)?;
        rest = after;
    }
    if !rest.is_empty() {
        return Err(GroupError::Range);
    }
    Ok(counted)
}

fn edit_in_utf8(
    alloc: Global,
    group: &mut Group,
    ops: &[DocOp],
    text: &[u8],
    units: &[u16],
) -> Result<(), GroupError>
    ensures { ChangesAll result (documents group.old) (documents group.new)
        (joint_of (batches_in_utf8 ops.now text.now units.now) (documents group.old)) }
{
    let counted = ops_in_units(alloc, ops, text)?;
    edit_jointly(alloc, group, &counted, units)
}

fn joint_in_utf8(
    alloc: Global,
    handle: &mut Handle,
    ops: &[DocOp],
    text: &[u8],
    units: &[u16],
) -> u32
    ensures { LeavesSession result handle.old.held handle.new.held ⊤
        (JointlyChanged result (batches_in_utf8 ops.now text.now units.now)) }
{
    let mut contents = taken!(handle, alloc);
    let group = &mut contents.session.group;
    let answer = edit_in_utf8(alloc, group, ops, text, units);
    handle.put(contents);
    Status::of_joint(answer).number()
}

/// Like `tm_raw_joint`, with texts in UTF-8; `units` of an op is in bytes. `Encoding` if `text` is invalid; `bad` is then the offset of the
/// first invalid byte. `Range` also if the text of an op ends inside a character.
#[unsafe(no_mangle)]
pub extern "C" fn tm_raw_joint_utf8(
    alloc: Global,
    handle: &mut Handle,
    ops: &[DocOp],
    text: &[u8],
    bad: &mut u64,
) -> u32
    ensures documents { JointInUtf8 result ops.now text.now handle.old.held handle.new.held }
    ensures fault { TellsFault text.now bad.old bad.new }
{
    let units = taken_units!(alloc, text, bad);
    joint_in_utf8(alloc, handle, ops, text, &units)
}
