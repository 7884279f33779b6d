//! Makes and frees sessions, and reads the text of a document.

ghost use Rattle.std.specs.Prelude.{◌≡◌, Some, None, length, is_some, slice_get};
ghost use Rattle.document_rules.specs.Document.{flat_line, flat_value, flat_line_count};
ghost use Rattle.textmodel_c.specs.Rules.{span, number_of_kind, fitting_end, fitting_span, flat_read, in_utf8, units_for};
ghost use Rattle.textmodel_c.specs.Statuses.{number_of};
ghost use Rattle.textmodel_c.specs.Told.{Asked, Holds, Lists, ListsHeld, Made, ReadsOnHeld, handed};

use crate::contents::Contents;
use crate::handle::{Handle, taken_for};
use crate::lists::hand_out_of;
use crate::status::Status;
use crate::utf8::utf8_out;
use model_core::{Model, Span};
use std::alloc::Global;
use unit_text::Kind;

/// A unit takes at most 3 bytes in UTF-8.
pub(crate) const MOST_BYTES_A_UNIT: u64 = 3;

/// Puts a new session of 64 empty documents into the handle. Frees what it held before. `Memory` if there is none for it.
#[unsafe(no_mangle)]
pub extern "C" fn tm_make(alloc: Global, handle: &mut Handle) -> u32
    ensures { Made result handle.old.held handle.new.held }
{
    let Ok(contents) = Contents::new(alloc) else {
        return Status::Memory.number();
    };
    handle.put(contents);
    Status::Ok.number()
}

/// Frees the session, if any. The handle is empty then.
#[unsafe(no_mangle)]
pub extern "C" fn tm_free(alloc: Global, handle: &mut Handle) -> u32
    ensures left { handle.new.held ≡ None }
    ensures freed { result ≡ number_of Status.Ok }
{
    if let Some(contents) = handle.take(alloc) {
        drop(contents);
    }
    Status::Ok.number()
}

/// Sets `len` to the length of the text in units.
#[unsafe(no_mangle)]
pub extern "C" fn tm_len(alloc: Global, handle: &mut Handle, doc: u64, len: &mut u64) -> u32
    ensures kept { handle.new.held ≡ handle.old.held }
    ensures len { Asked result doc handle.old.held len.old len.new
        (λ f. Some (length f.units)) }
{
    let contents = taken_for!(handle, doc, alloc);
    *len = contents.document(doc).len();
    handle.put(contents);
    Status::Ok.number()
}

/// Sets `count` to the number of lines.
#[unsafe(no_mangle)]
pub extern "C" fn tm_line_count(
    alloc: Global,
    handle: &mut Handle,
    doc: u64,
    count: &mut u64,
) -> u32
    ensures kept { handle.new.held ≡ handle.old.held }
    ensures count { Asked result doc handle.old.held count.old count.new
        (λ f. Some (flat_line_count f)) }
{
    let contents = taken_for!(handle, doc, alloc);
    *count = contents.document(doc).line_count();
    handle.put(contents);
    Status::Ok.number()
}

fn number_of_kind(kind: Kind) -> u32
    ensures { result ≡ number_of_kind kind }
{
    match kind {
        Kind::Mixed => 0,
        Kind::Lf => 1,
        Kind::Crlf => 2,
    }
}

/// Sets `kind` to the kind of line endings: 0 for mixed, 1 for LF, 2 for CR LF.
#[unsafe(no_mangle)]
pub extern "C" fn tm_kind(alloc: Global, handle: &mut Handle, doc: u64, kind: &mut u32) -> u32
    ensures kept { handle.new.held ≡ handle.old.held }
    ensures kind { Asked result doc handle.old.held kind.old kind.new
        (λ f. Some (number_of_kind f.kind)) }
{
    let contents = taken_for!(handle, doc, alloc);
    *kind = number_of_kind(contents.document(doc).kind());
    handle.put(contents);
    Status::Ok.number()
}

/// Sets `version`, and `alternative` to the version at which the text was last the same as now.
#[unsafe(no_mangle)]
pub extern "C" fn tm_versions(
    alloc: Global,
    handle: &mut Handle,
    doc: u64,
    version: &mut u64,
    alternative: &mut u64,
) -> u32
    ensures kept { handle.new.held ≡ handle.old.held }
    ensures version { Asked result doc handle.old.held version.old version.new
        (λ f. Some f.version) }
    ensures alternative { Asked result doc handle.old.held alternative.old alternative.new
        (λ f. Some f.alternative) }
{
    let contents = taken_for!(handle, doc, alloc);
    (*version, *alternative) = contents.document(doc).versions();
    handle.put(contents);
    Status::Ok.number()
}

/// Returns `Ok` if there is a step to undo, else `Nothing`.
#[unsafe(no_mangle)]
pub extern "C" fn tm_can_undo(alloc: Global, handle: &mut Handle, doc: u64) -> u32
    ensures kept { handle.new.held ≡ handle.old.held }
    ensures can { Holds result doc handle.old.held
        (λ f. is_some (slice_get f.history.undo 0)) }
{
    let contents = taken_for!(handle, doc, alloc);
    let can = contents.document(doc).can_undo();
    handle.put(contents);
    Status::of_step(Ok(can)).number()
}

/// Returns `Ok` if there is a step to redo, else `Nothing`.
#[unsafe(no_mangle)]
pub extern "C" fn tm_can_redo(alloc: Global, handle: &mut Handle, doc: u64) -> u32
    ensures kept { handle.new.held ≡ handle.old.held }
    ensures can { Holds result doc handle.old.held
        (λ f. is_some (slice_get f.history.redo 0)) }
{
    let contents = taken_for!(handle, doc, alloc);
    let can = contents.document(doc).can_redo();
    handle.put(contents);
    Status::of_step(Ok(can)).number()
}

fn value_out(alloc: Global, model: &Model, span: Span, out: &mut [u16], count: &mut u64) -> Status
    ensures { Lists result out.old out.new count.old count.new (flat_value model.now.document span) }
{
    let mut units = Vec::new(alloc);
    let answer = model.value(span, &mut units);
    hand_out_of(answer, &units, out, count)
}

/// Copies the units from `start` up to `end`. Sets `count` to their number. `Range` if the span is invalid. `Short` if `out` is too short.
#[unsafe(no_mangle)]
pub extern "C" fn tm_raw_value(
    alloc: Global,
    handle: &mut Handle,
    doc: u64,
    start: u64,
    end: u64,
    out: &mut [u16],
    count: &mut u64,
) -> u32
    ensures kept { handle.new.held ≡ handle.old.held }
    ensures units { ListsHeld result doc handle.old.held out.old out.new count.old count.new
        (λ f. flat_value f (span start end)) }
{
    let contents = taken_for!(handle, doc, alloc);
    let status = value_out(
        alloc,
        contents.document(doc),
        Span { start, end },
        out,
        count,
    );
    handle.put(contents);
    status.number()
}

fn value_utf8_out(
    alloc: Global,
    model: &Model,
    span: Span,
    out: &mut [u8],
    count: &mut u64,
) -> Status
    ensures { Lists result out.old out.new count.old count.new
        (in_utf8 (flat_value model.now.document span)) }
{
    let mut units = Vec::new(alloc);
    let answer = model.value(span, &mut units);
    utf8_out(alloc, answer, &units, out, count)
}

/// Like `tm_raw_value`, in UTF-8; `count` is in bytes. A lone surrogate becomes U+FFFD.
#[unsafe(no_mangle)]
pub extern "C" fn tm_raw_value_utf8(
    alloc: Global,
    handle: &mut Handle,
    doc: u64,
    start: u64,
    end: u64,
    out: &mut [u8],
    count: &mut u64,
) -> u32
    ensures kept { handle.new.held ≡ handle.old.held }
    ensures bytes { ListsHeld result doc handle.old.held out.old out.new count.old count.new
        (λ f. in_utf8 (flat_value f (span start end))) }
{
    let contents = taken_for!(handle, doc, alloc);
    let status = value_utf8_out(
        alloc,
        contents.document(doc),
        Span { start, end },
        out,
        count,
    );
    handle.put(contents);
    status.number()
}

fn line_out(alloc: Global, model: &Model, n: u64, out: &mut [u16], count: &mut u64) -> Status
    ensures { Lists result out.old out.new count.old count.new (flat_line model.now.document n) }
{
    let mut units = Vec::new(alloc);
    let answer = model.line(n, &mut units);
    hand_out_of(answer, &units, out, count)
}

/// Copies the content of a line. Sets `count` to its length in units. `Range` if there is no such line. `Short` if `out` is too short.
#[unsafe(no_mangle)]
pub extern "C" fn tm_raw_line(
    alloc: Global,
    handle: &mut Handle,
    doc: u64,
    n: u64,
    out: &mut [u16],
    count: &mut u64,
) -> u32
    ensures kept { handle.new.held ≡ handle.old.held }
    ensures units { ListsHeld result doc handle.old.held out.old out.new count.old count.new
        (λ f. flat_line f n) }
{
    let contents = taken_for!(handle, doc, alloc);
    let status = line_out(alloc, contents.document(doc), n, out, count);
    handle.put(contents);
    status.number()
}

// Returns the span of at most `room` units from the offset on. It is one shorter if its end would not be a valid offset.
fn fitting_span(model: &Model, offset: u64, room: u64) -> Span
    ensures { result ≡ fitting_span model.now.document offset room }
{
    let len = model.len();
    if offset >= len || room >= len - offset {
        return Span {
            start: offset,
            end: len,
        };
    }
    let end = offset + room;
    if end > offset && !model.is_place(end) {
        return Span {
            start: offset,
            end: end - 1,
        };
    }
    Span { start: offset, end }
}

fn read_out(alloc: Global, model: &Model, offset: u64, out: &mut [u16], count: &mut u64) -> Status
    ensures { Lists result out.old out.new count.old count.new
        (flat_read model.now.document offset (length out.old)) }
{
    if out.len() < 2 {
        return Status::Range;
    }
    let span = fitting_span(model, offset, out.len() as u64);
    value_out(alloc, model, span, out, count)
}

/// Copies as many units from the offset on as fit into `out`, one fewer if that would split a surrogate pair or, in a CR LF document, a
/// line ending. Sets `count` to their number. `Range` if the offset is invalid or `out` has room for less than 2 units.
#[unsafe(no_mangle)]
pub extern "C" fn tm_raw_read_into(
    alloc: Global,
    handle: &mut Handle,
    doc: u64,
    offset: u64,
    out: &mut [u16],
    count: &mut u64,
) -> u32
    ensures kept { handle.new.held ≡ handle.old.held }
    ensures units { ListsHeld result doc handle.old.held out.old out.new count.old count.new
        (λ f. flat_read f offset (length out.old)) }
{
    let contents = taken_for!(handle, doc, alloc);
    let status = read_out(alloc, contents.document(doc), offset, out, count);
    handle.put(contents);
    status.number()
}

// Copies as much text in UTF-8 as is sure to fit, and moves the offset to its end.
fn read_utf8_out(
    alloc: Global,
    model: &Model,
    offset: &mut u64,
    out: &mut [u8],
    count: &mut u64,
) -> Status
    ensures bytes { Lists result out.old out.new count.old count.new
        (in_utf8 (flat_read model.now.document offset.old (units_for (length out.old)))) }
    ensures next { offset.new ≡ handed result offset.old
        (fitting_end model.now.document offset.old (units_for (length out.old))) }
{
    let room = out.len() as u64 / MOST_BYTES_A_UNIT;
    if room < 2 {
        return Status::Range;
    }
    let span = fitting_span(model, *offset, room);
    let status = value_utf8_out(alloc, model, span, out, count);
    if let Status::Ok = status {
        *offset = span.end;
    }
    status
}

/// Like `tm_raw_read_into`, in UTF-8. Copies at most a third as many units as `out` has bytes, since a unit takes at most 3. Sets `count`
/// to the number of bytes and moves `offset` to their end. `Range` if the offset is invalid or `out` has room for less than 6 bytes.
#[unsafe(no_mangle)]
pub extern "C" fn tm_raw_read_into_utf8(
    alloc: Global,
    handle: &mut Handle,
    doc: u64,
    offset: &mut u64,
    out: &mut [u8],
    count: &mut u64,
) -> u32
    ensures kept { handle.new.held ≡ handle.old.held }
    ensures bytes { ReadsOnHeld result doc handle.old.held offset.old offset.new
        out.old out.new count.old count.new }
{
    let contents = taken_for!(handle, doc, alloc);
    let status = read_utf8_out(alloc, contents.document(doc), offset, out, count);
    handle.put(contents);
    status.number()
}

fn line_utf8_out(alloc: Global, model: &Model, n: u64, out: &mut [u8], count: &mut u64) -> Status
    ensures { Lists result out.old out.new count.old count.new
        (in_utf8 (flat_line model.now.document n)) }
{
    let mut units = Vec::new(alloc);
    let answer = model.line(n, &mut units);
    utf8_out(alloc, answer, &units, out, count)
}

/// Like `tm_raw_line`, in UTF-8; `count` is in bytes. A lone surrogate becomes U+FFFD.
#[unsafe(no_mangle)]
pub extern "C" fn tm_raw_line_utf8(
    alloc: Global,
    handle: &mut Handle,
    doc: u64,
    n: u64,
    out: &mut [u8],
    count: &mut u64,
) -> u32
    ensures kept { handle.new.held ≡ handle.old.held }
    ensures bytes { ListsHeld result doc handle.old.held out.old out.new count.old count.new
        (λ f. in_utf8 (flat_line f n)) }
{
    let contents = taken_for!(handle, doc, alloc);
    let status = line_utf8_out(alloc, contents.document(doc), n, out, count);
    handle.put(contents);
    status.number()
}
