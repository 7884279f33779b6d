//! Finds the edit of a joint edit, or the decoration, for which a call was refused.

ghost use Rattle.std.specs.Prelude.{◌≡◌, ◌||◌, List, [], Bool, not, false, nat_lt, IfOk};
ghost use Rattle.std.specs.List.{list_any};
ghost use Rattle.text_rules.specs.Edits.{is_bad_span};
ghost use Rattle.batch_rules.specs.Batches.{overlap};
ghost use Rattle.decoration_rules.specs.Decorations.{has_repeat, is_bad, is_unknown, owns};
ghost use Rattle.group_rules.specs.declared.TheConstants.{DOC_COUNT};
ghost use Rattle.group_rules.specs.Joint.{names_badly};
ghost use Rattle.model_group.specs.State.{documents};
ghost use Rattle.textmodel_c.specs.JointOps.{doc_op_of};
ghost use Rattle.textmodel_c.specs.Rules.{new_deco_of, span};
ghost use Rattle.textmodel_c.specs.Faults.{docs_in_turn, has_bad_span, overlap_on, pass_end, refusal_of, some_overlap, spans_on, DecorationAtFaultHeld, EditAtFaultHeld, FindsDecoration, FindsEdit, FindsFirst, TellsPlace};

use crate::contents::Contents;
use crate::handle::{Handle, taken, taken_for};
use crate::joint::DocOp;
use crate::marks::NewDecoration;
use crate::status::Status;
use decoration_rules::GREATEST_MODE;
use edit_batches::Sorted;
use model_core::{Model, ModelError, Op, Span, Units};
use model_group::{DOC_COUNT, names_badly};
use std::alloc::{AllocError, Global};

/// A fault of a list. The empty list never has it.
trait Fault<T> {
    ghost so: { Self → List T → Bool };

    /// Returns whether the list has the fault.
    fn is_in(&self, items: &[T]) -> Result<bool, AllocError>
        ensures { IfOk result (λ answer. answer ≡ so self.now items.now) };

    ghost not_in_none: { (fault : Self) → so fault [] ≡ false };
}

// Returns an index n such that the first n + 1 items have the fault and the first n do not; None if all items have not.
fn first_with<T, F: Fault<T>>(fault: &F, items: &[T]) -> Result<Option<u64>, AllocError>
    ensures { IfOk result (FindsFirst (F.so fault.now) items.now) }
{
    if !fault.is_in(items)? {
        return Ok(None);
    }
    let mut low = 0;
    let mut high = items.len();
    while high - low > 1 {
        let middle = low + (high - low) / 2;
        if fault.is_in(&items[..middle])? {
            high = middle;
        } else {
            low = middle;
        }
    }
    Ok(Some(low as u64))
}

// Returns whether the start is above the end, or one of the two is not a valid offset of the text.
fn is_bad_span(model: &Model, span: Span) -> bool
    ensures { result ≡ is_bad_span model.now.document.kind model.now.document.units span }
{
    span.end < span.start || !(model.is_place(span.start) && model.is_place(span.end))
}

// Returns the documents of the ops in order. Adjacent ops of one document count once.
fn docs_in_turn(alloc: Global, ops: &[DocOp]) -> Result<Vec<u64>, AllocError>
    ensures { IfOk result (λ docs. docs.items ≡ docs_in_turn ops.now) }
{
    let mut docs: Vec<u64> = ops.iter().map(|op| op.doc).collect(alloc)?;
    docs.dedup();
    Ok(docs)
}

/// A document number is out of range, or repeated after another one.
#[derive(Drop)]
struct BadNames {
    alloc: Global,
}

impl Fault<DocOp> for BadNames {
    ghost use Rattle.std.specs.Prelude.{refl};

    ghost so = { λ _ ops. names_badly (docs_in_turn ops) };

    ghost not_in_none = { λ _. refl };

    fn is_in(&self, ops: &[DocOp]) -> Result<bool, AllocError> {
        let docs = docs_in_turn(self.alloc, ops)?;
        Ok(names_badly(&docs))
    }
}

// Returns whether the op's span is invalid. A missing document counts as empty.
fn has_bad_span(contents: &Contents, op: DocOp) -> bool
    ensures { result ≡ has_bad_span (documents contents.now.session.group) op }
{
    if op.doc >= DOC_COUNT {
        return op.start != 0 || op.end != 0;
    }
    let span = Span {
        start: op.start,
        end: op.end,
    };
    is_bad_span(contents.document(op.doc), span)
}

// Returns whether the op has more than `left` units of text or an invalid span.
fn is_out_of_range(contents: &Contents, op: DocOp, left: u64) -> bool
    ensures { result ≡ (nat_lt left op.units
        || has_bad_span (documents contents.now.session.group) op) }
{
    op.units > left || has_bad_span(contents, op)
}

fn first_out_of_range(contents: &Contents, ops: &[DocOp], left: u64) -> Option<u64>
    ensures { let g = documents contents.now.session.group in
        FindsFirst (λ ops. pass_end left ops || list_any (has_bad_span g) ops) ops.now result }
{
    let mut rest = left;
    for (i, op) in ops.iter().enumerate() {
        if is_out_of_range(contents, *op, rest) {
            return Some(i as u64);
        }
        rest -= op.units;
    }
    None
}

fn without_text(alloc: Global, op: DocOp) -> Op
    ensures { result ≡ doc_op_of op [] }
{
    Op {
        span: Span {
            start: op.start,
            end: op.end,
        },
        text: Units::from_vec(Vec::new(alloc)),
        force: op.force,
    }
}

// Returns the ops of one document, without their texts.
fn spans_on(alloc: Global, doc: u64, ops: &[DocOp]) -> Result<Vec<Op>, AllocError>
    ensures { IfOk result (λ spans. spans.items ≡ spans_on doc ops.now) }
{
    let mut spans = Vec::new(alloc);
    for op in ops {
        if op.doc == doc {
            spans.push(without_text(alloc, *op))?;
        }
    }
    Ok(spans)
}

// Returns whether two of the ops overlap. The ops are sorted.
fn overlap(ops: &[Op]) -> bool
    ensures { result ≡ overlap ops.now }
{
    let mut end = 0;
    for op in ops {
        if op.span.start < end {
            return true;
        }
        end = op.span.end;
    }
    false
}

// Returns whether two ops of this document overlap.
fn overlap_on(alloc: Global, doc: u64, ops: &[DocOp]) -> Result<bool, AllocError>
    ensures { IfOk result (λ answer. answer ≡ overlap_on doc ops.now) }
{
    let sorted = Sorted::of(spans_on(alloc, doc, ops)?)?;
    Ok(overlap(sorted.ops()))
}

// Returns whether two ops of one of these documents overlap.
fn overlap_on_any(alloc: Global, docs: &[u64], ops: &[DocOp]) -> Result<bool, AllocError>
    ensures { IfOk result (λ answer. answer ≡ list_any (λ doc. overlap_on doc ops.now) docs.now) }
{
    for doc in docs {
        if overlap_on(alloc, *doc, ops)? {
            return Ok(true);
        }
    }
    Ok(false)
}

/// Two ops of one document overlap.
#[derive(Drop)]
struct Overlaps {
    alloc: Global,
}

impl Fault<DocOp> for Overlaps {
    ghost use Rattle.std.specs.Prelude.{refl};

    ghost so = { λ _ ops. some_overlap ops };

    ghost not_in_none = { λ _. refl };

    fn is_in(&self, ops: &[DocOp]) -> Result<bool, AllocError> {
        let docs = docs_in_turn(self.alloc, ops)?;
        overlap_on_any(self.alloc, &docs, ops)
    }
}

fn edit_at_fault(
    alloc: Global,
    contents: &Contents,
    ops: &[DocOp],
    left: u64,
    why: u32,
) -> Result<Option<u64>, AllocError>
    ensures { let g = documents contents.now.session.group in
        IfOk result (FindsEdit (refusal_of why) g left ops.now) }
{
    if why == Status::Unknown.number() {
        return first_with(&BadNames { alloc }, ops);
    }
    if why == Status::Range.number() {
        return Ok(first_out_of_range(contents, ops, left));
    }
    if why == Status::Overlap.number() {
        return first_with(&Overlaps { alloc }, ops);
    }
    Ok(None)
}

// Stores the index that was found, if any, and returns the status.
fn told(place: Result<Option<u64>, AllocError>, index: &mut u64) -> Status
    ensures { TellsPlace place result index.old index.new }
{
    Status::of_found(place.map_err(|_| ModelError::Memory), index)
}

/// Finds the op for which `tm_raw_joint` was refused. Sets `index` to its index in the list, from 0. To be called right after the refusal:
/// `why` is the number of that status, `left` the length of the joined text. For `Unknown`, `Range` and `Overlap` the ops up to it would be
/// refused alike, those before it would not. `Nothing` if there is none, as when texts are left over, or for any other status; `Memory` if
/// there is none for the search.
#[unsafe(no_mangle)]
pub extern "C" fn tm_raw_joint_fault(
    alloc: Global,
    handle: &mut Handle,
    ops: &[DocOp],
    left: u64,
    why: u32,
    index: &mut u64,
) -> u32
    ensures kept { handle.new.held ≡ handle.old.held }
    ensures fault { EditAtFaultHeld result why handle.old.held left ops.now index.old index.new }
{
    let contents = taken!(handle, alloc);
    let place = edit_at_fault(alloc, &contents, ops, left, why);
    handle.put(contents);
    told(place, index).number()
}

fn owns(model: &Model, owner: u64, id: u64) -> bool
    ensures { result ≡ owns model.now.document.decorations.marks owner id }
{
    match model.get_deco(id) {
        Some(deco) => deco.owner == owner,
        None => false,
    }
}

// Returns whether an id is repeated.
fn has_repeat(alloc: Global, ids: &[u64]) -> Result<bool, AllocError>
    ensures { IfOk result (λ answer. answer ≡ has_repeat ids.now) }
{
    let mut sorted = Vec::from_slice(alloc, ids)?;
    sorted.sort_unstable();
    Ok(!sorted.is_sorted_by(|a, b| a < b))
}

// Returns whether one of the ids is not live or has another owner.
fn names_another(model: &Model, owner: u64, ids: &[u64]) -> bool
    ensures { let marks = model.now.document.decorations.marks in
        result ≡ list_any (λ id. not (owns marks owner id)) ids.now }
{
    ids.iter().any(|id| !owns(model, owner, *id))
}

fn is_unknown(alloc: Global, model: &Model, owner: u64, ids: &[u64]) -> Result<bool, AllocError>
    ensures { IfOk result (λ answer. answer
        ≡ is_unknown model.now.document.decorations.marks owner ids.now) }
{
    if names_another(model, owner, ids) {
        return Ok(true);
    }
    has_repeat(alloc, ids)
}

/// One of the ids is not live, has another owner or is repeated.
#[derive(Drop)]
struct UnknownIds<'m> {
    alloc: Global,
    model: &'m Model,
    owner: u64,
}

impl<'m> Fault<u64> for UnknownIds<'m> {
    ghost use Rattle.std.specs.Prelude.{refl};

    ghost so = { λ fault. is_unknown fault.model.now.document.decorations.marks fault.owner };

    ghost not_in_none = { λ _. refl };

    fn is_in(&self, ids: &[u64]) -> Result<bool, AllocError> {
        is_unknown(self.alloc, self.model, self.owner, ids)
    }
}

// Returns whether the span or the mode is invalid.
fn is_bad(model: &Model, new: NewDecoration) -> bool
    ensures { result ≡ is_bad model.now.document.kind model.now.document.units (new_deco_of new) }
{
    let span = Span {
        start: new.start,
        end: new.end,
    };
    is_bad_span(model, span) || new.stick > GREATEST_MODE
}

fn first_bad(model: &Model, add: &[NewDecoration]) -> Option<u64>
    ensures { let f = model.now.document in
        FindsFirst (list_any (λ new. is_bad f.kind f.units (new_deco_of new))) add.now result }
{
    for (i, new) in add.iter().enumerate() {
        if is_bad(model, *new) {
            return Some(i as u64);
        }
    }
    None
}

fn decoration_at_fault(
    alloc: Global,
    model: &Model,
    owner: u64,
    remove: &[u64],
    add: &[NewDecoration],
    why: u32,
) -> Result<Option<u64>, AllocError>
    ensures { IfOk result
        (FindsDecoration (refusal_of why) model.now.document owner remove.now add.now) }
{
    if why == Status::Unknown.number() {
        let fault = UnknownIds {
            alloc,
            model,
            owner,
        };
        return first_with(&fault, remove);
    }
    if why == Status::Range.number() {
        return Ok(first_bad(model, add));
    }
    Ok(None)
}

/// Finds the decoration for which `tm_raw_decorate` was refused, as `tm_raw_joint_fault` does. For `Unknown`, `index` is an index in
/// `remove`: the ids up to it would be refused alike, those before it would not. For `Range`, it is the index in `add` of the first invalid
/// one. `Nothing` if there is none, or for any other status; `Memory` if there is none for the search.
#[unsafe(no_mangle)]
pub extern "C" fn tm_raw_decorate_fault(
    alloc: Global,
    handle: &mut Handle,
    doc: u64,
    owner: u64,
    remove: &[u64],
    add: &[NewDecoration],
    why: u32,
    index: &mut u64,
) -> u32
    ensures kept { handle.new.held ≡ handle.old.held }
    ensures fault { DecorationAtFaultHeld result why doc handle.old.held owner remove.now add.now
        index.old index.new }
{
    let contents = taken_for!(handle, doc, alloc);
    let model = contents.document(doc);
    let place = decoration_at_fault(alloc, model, owner, remove, add, why);
    handle.put(contents);
    told(place, index).number()
}
