//! Edits, undo and redo, and line endings.

ghost use Rattle.std.specs.Prelude.{◌≡◌, ◌<◌, false, Ok};
ghost use Rattle.document_rules.specs.Outcomes.{Changes, Gives, Moves};
ghost use Rattle.group_rules.specs.declared.TheConstants.{DOC_COUNT};
ghost use Rattle.document_rules.specs.Document.{flat_stop};
ghost use Rattle.group_rules.specs.Going.{group_undo, group_redo};
ghost use Rattle.group_rules.specs.Group.{group_edit};
ghost use Rattle.model_group.specs.State.{documents};
ghost use Rattle.textmodel_c.specs.Documents.{document_in, OnDocument};
ghost use Rattle.textmodel_c.specs.Rules.{at, span, one_op, offset_in, span_between, group_edit_at, group_eol_as};
ghost use Rattle.textmodel_c.specs.Told.{Becomes, ChangesHeld, Leaves, MovesDocs, WentHeld};
ghost use Rattle.textmodel_c.specs.Utf8.{ChangesInUtf8, TellsFault};

use crate::handle::{Handle, taken_for};
use crate::opening::kind_of;
use crate::positions::{encoding_of, position_in};
use crate::status::Status;
use crate::utf8::taken_units;
use edit_batches::one_op;
use model_core::{Encoding, ModelError, Position, Span};
use model_group::Group;
use std::alloc::Global;

fn edit_span(
    alloc: Global,
    group: &mut Group,
    doc: u64,
    span: Span,
    text: &[u16],
) -> Result<(), ModelError>
    requires { doc < DOC_COUNT }
    ensures { Changes result (documents group.old) (documents group.new)
        (group_edit (documents group.old) doc (one_op span text.now false)) }
{
    let ops = one_op(alloc, span, text, false).map_err(|_| ModelError::Memory)?;
    group.edit(doc, ops)
}

/// Replaces the units from `start` up to `end` by the text. The version goes up by 1. `Range` if this is not a valid span of the text,
/// `Limit` if the new text or the version would pass its limit.
#[unsafe(no_mangle)]
pub extern "C" fn tm_raw_edit(
    alloc: Global,
    handle: &mut Handle,
    doc: u64,
    start: u64,
    end: u64,
    text: &[u16],
) -> u32
    ensures document { ChangesHeld result doc handle.old.held handle.new.held
        (λ g. group_edit g doc (one_op (span start end) text.now false)) }
{
    let mut contents = taken_for!(handle, doc, alloc);
    let span = Span { start, end };
    let answer = edit_span(alloc, &mut contents.session.group, doc, span, text);
    handle.put(contents);
    Status::of_done(answer).number()
}

// Converts a position into an offset. Remembers the pieces for the next edit.
fn offset_in(
    alloc: Global,
    group: &mut Group,
    doc: u64,
    encoding: Encoding,
    at: Position,
) -> Result<Option<u64>, ModelError>
    requires { doc < DOC_COUNT }
    ensures found { Gives result (Ok (offset_in (document_in group.old doc) encoding at)) }
    ensures same { group.new ≡ group.old }
{
    match position_in(alloc, group.doc(doc), encoding, at)? {
        Some(position) => Ok(group.locate(doc, position)),
        None => Ok(None),
    }
}

fn span_between(
    alloc: Global,
    group: &mut Group,
    doc: u64,
    encoding: Encoding,
    from: Position,
    to: Position,
) -> Result<Option<Span>, ModelError>
    requires { doc < DOC_COUNT }
    ensures found { Gives result (Ok (span_between (document_in group.old doc) encoding from to)) }
    ensures same { group.new ≡ group.old }
{
    let start = offset_in(alloc, group, doc, encoding, from)?;
    let end = offset_in(alloc, group, doc, encoding, to)?;
    match (start, end) {
        (Some(start), Some(end)) => Ok(Some(Span { start, end })),
        _ => Ok(None),
    }
}

fn edit_between(
    alloc: Global,
    group: &mut Group,
    doc: u64,
    encoding: u32,
    from: Position,
    to: Position,
    text: &[u16],
) -> Result<(), ModelError>
    requires { doc < DOC_COUNT }
    ensures { Changes result (documents group.old) (documents group.new)
        (group_edit_at doc encoding from to text.now (documents group.old)) }
{
    let encoding = encoding_of(encoding).ok_or(ModelError::Range)?;
    let span = span_between(alloc, group, doc, encoding, from, to)?.ok_or(ModelError::Range)?;
    edit_span(alloc, group, doc, span, text)
}

/// Like `tm_raw_edit`, from one position up to another. `encoding` is the unit of the columns: 8 for bytes of UTF-8, 16 for UTF-16 units,
/// 32 for code points. Columns count from 1. `Range` also if the encoding or a position is invalid.
#[unsafe(no_mangle)]
pub extern "C" fn tm_raw_edit_at(
    alloc: Global,
    handle: &mut Handle,
    doc: u64,
    line: u64,
    column: u64,
    end_line: u64,
    end_column: u64,
    encoding: u32,
    text: &[u16],
) -> u32
    ensures document { ChangesHeld result doc handle.old.held handle.new.held
        (group_edit_at doc encoding (at line column) (at end_line end_column) text.now) }
{
    let mut contents = taken_for!(handle, doc, alloc);
    let from = Position { line, column };
    let to = Position {
        line: end_line,
        column: end_column,
    };
    let group = &mut contents.session.group;
    let answer = edit_between(alloc, group, doc, encoding, from, to, text);
    handle.put(contents);
    Status::of_done(answer).number()
}

/// Like `tm_raw_edit`, with a text in UTF-8. `Encoding` if it is invalid; `bad` is then the offset of the first invalid byte.
#[unsafe(no_mangle)]
pub extern "C" fn tm_raw_edit_utf8(
    alloc: Global,
    handle: &mut Handle,
    doc: u64,
    start: u64,
    end: u64,
    text: &[u8],
    bad: &mut u64,
) -> u32
    ensures document { ChangesInUtf8 result text.now doc handle.old.held handle.new.held
        (λ units g. group_edit g doc (one_op (span start end) units false)) }
    ensures fault { TellsFault text.now bad.old bad.new }
{
    let units = taken_units!(alloc, text, bad);
    tm_raw_edit(alloc, handle, doc, start, end, &units)
}

/// Like `tm_raw_edit_at`, with a text in UTF-8. `Encoding` as in `tm_raw_edit_utf8`.
#[unsafe(no_mangle)]
pub extern "C" fn tm_raw_edit_at_utf8(
    alloc: Global,
    handle: &mut Handle,
    doc: u64,
    line: u64,
    column: u64,
    end_line: u64,
    end_column: u64,
    encoding: u32,
    text: &[u8],
    bad: &mut u64,
) -> u32
    ensures document { ChangesInUtf8 result text.now doc handle.old.held handle.new.held
        (group_edit_at doc encoding (at line column) (at end_line end_column)) }
    ensures fault { TellsFault text.now bad.old bad.new }
{
    let units = taken_units!(alloc, text, bad);
    tm_raw_edit_at(
        alloc, handle, doc, line, column, end_line, end_column, encoding, &units,
    )
}

/// Undoes the last step. The version goes up by 1. `Nothing` if there is no step. A step of a joint edit is undone in all its documents.
/// `Limit` if a version would pass its limit; else `Joint` if the step is not the last one in each of these documents: `other` is then one
/// where it is not.
#[unsafe(no_mangle)]
pub extern "C" fn tm_raw_undo(alloc: Global, handle: &mut Handle, doc: u64, other: &mut u64) -> u32
    ensures document { WentHeld result doc handle.old.held handle.new.held other.old other.new
        (λ g. group_undo g doc) }
{
    let mut contents = taken_for!(handle, doc, alloc);
    let answer = contents.session.group.undo(doc);
    handle.put(contents);
    Status::of_going(answer, other).number()
}

/// Redoes the step that was undone last. The version goes up by 1. `Nothing` if there is no step. A step of a joint edit is redone in all
/// its documents. `Limit` if a version would pass its limit; else `Joint` if the step is not the next one in each of these documents:
/// `other` is then one where it is not.
#[unsafe(no_mangle)]
pub extern "C" fn tm_raw_redo(alloc: Global, handle: &mut Handle, doc: u64, other: &mut u64) -> u32
    ensures document { WentHeld result doc handle.old.held handle.new.held other.old other.new
        (λ g. group_redo g doc) }
{
    let mut contents = taken_for!(handle, doc, alloc);
    let answer = contents.session.group.redo(doc);
    handle.put(contents);
    Status::of_going(answer, other).number()
}

fn stop(group: &mut Group, doc: u64)
    requires { doc < DOC_COUNT }
    ensures { OnDocument doc (λ f g. g ≡ flat_stop f) group.old group.new }
{
    group.stop(doc);
}

/// Makes the next edit begin a new step of undo.
#[unsafe(no_mangle)]
pub extern "C" fn tm_stop(alloc: Global, handle: &mut Handle, doc: u64) -> u32
    ensures document { Leaves result doc handle.old.held handle.new.held
        (Becomes result doc flat_stop) }
{
    let mut contents = taken_for!(handle, doc, alloc);
    stop(&mut contents.session.group, doc);
    handle.put(contents);
    Status::Ok.number()
}

fn set_kind(group: &mut Group, doc: u64, kind: u32) -> Result<bool, ModelError>
    requires { doc < DOC_COUNT }
    ensures { Moves result (documents group.old) (documents group.new)
        (group_eol_as doc kind (documents group.old)) }
{
    let kind = kind_of(kind).ok_or(ModelError::Range)?;
    group.set_eol(doc, kind)
}

/// Changes all line endings to this kind. The version goes up by 1. The change is its own step of undo. `Nothing` if the document has this
/// kind already. `Range` if the kind is invalid, else `Limit` if the new text or the version would pass its limit.
#[unsafe(no_mangle)]
pub extern "C" fn tm_set_eol(alloc: Global, handle: &mut Handle, doc: u64, kind: u32) -> u32
    ensures document { Leaves result doc handle.old.held handle.new.held
        (MovesDocs result (group_eol_as doc kind)) }
{
    let mut contents = taken_for!(handle, doc, alloc);
    let answer = set_kind(&mut contents.session.group, doc, kind);
    handle.put(contents);
    Status::of_step(answer).number()
}
