//! Converts between offsets and positions. The encoding is the unit of columns: bytes of UTF-8, UTF-16 units or code points.

ghost use Rattle.std.specs.Prelude.{◌≡◌, ◌+◌, ◌*◌, ◌≤◌, true, length, Ok, Err, IfSome, option_map};
ghost use Rattle.document_rules.specs.Outcomes.{Gives};
ghost use Rattle.column_encodings.specs.Columns.{length_in};
ghost use Rattle.textmodel_c.specs.Rules.{at, encoding_of, is_utf16, column_before, units_column, column_at, column_as, place_in, position_in, flat_place, flat_offset_as};
ghost use Rattle.textmodel_c.specs.Statuses.{number_of};
ghost use Rattle.textmodel_c.specs.Told.{FoundHeld};

use crate::handle::{Handle, taken_for};
use crate::status::Status;
use column_encodings::{column_in, offset_of};
use model_core::{Encoding, Model, ModelError, Position};
use std::alloc::Global;
use steps::Steps;

/// A line and a column, both counted from 1.
#[repr(C)]
#[derive(Clone, Copy)]
pub struct Place {
    pub line: u64,
    pub column: u64,
}

/// Returns the encoding with this number.
pub(crate) fn encoding_of(number: u32) -> Option<Encoding>
    ensures { result ≡ encoding_of number }
{
    match number {
        8 => Some(Encoding::Utf8),
        16 => Some(Encoding::Utf16),
        32 => Some(Encoding::Utf32),
        _ => None,
    }
}

pub(crate) fn is_utf16(encoding: Encoding) -> bool
    ensures { result ≡ is_utf16 encoding }
{
    match encoding {
        Encoding::Utf8 => false,
        Encoding::Utf16 => true,
        Encoding::Utf32 => false,
    }
}

// Returns the length of a line's content in the encoding.
fn length_in(encoding: Encoding, content: &[u16]) -> u64
    ensures length { result ≡ length_in encoding content.now }
    ensures small { result ≤ 3 * length content.now }
{
    column_in(encoding, content, content.len() as u64).unwrap_or(0)
}

// Converts an offset in a line into the encoding. In a mixed document the offset between CR and LF is valid: one beyond the content.
pub(crate) fn column_before(encoding: Encoding, content: &[u16], before: u64) -> Option<u64>
    ensures column { result ≡ column_before encoding content.now before }
    ensures small { IfSome result (λ column. column ≤ 3 * length content.now + 1) }
{
    if before == content.len() as u64 + 1 {
        return Some(length_in(encoding, content) + 1);
    }
    column_in(encoding, content, before)
}

// Converts a column of the encoding into one in UTF-16 units.
fn units_column(encoding: Encoding, column: u64, content: &[u16]) -> Option<u64>
    ensures { result ≡ units_column encoding column content.now }
{
    let before = column.checked_sub(1)?;
    if before == length_in(encoding, content) + 1 {
        return Some(content.len() as u64 + 2);
    }
    let offset = offset_of(encoding, content, before)?;
    Some(offset + 1)
}

/// Converts a position's column from UTF-16 units into the encoding.
pub(crate) fn column_as(
    alloc: Global,
    model: &Model,
    encoding: Encoding,
    at: Position,
) -> Result<u64, ModelError>
    ensures column { Gives result (column_as model.now.document encoding at) }
    ensures sure { is_utf16 encoding ≡ true → ¬ (result ≡ Err ModelError.Memory) }
{
    if is_utf16(encoding) {
        return Ok(at.column);
    }
    let mut content = Vec::new(alloc);
    model.line(at.line, &mut content)?;
    column_at(encoding, at.column, &content).ok_or(ModelError::Range)
}

// Converts a column from UTF-16 units into the encoding; None if it is invalid.
fn column_at(encoding: Encoding, column: u64, content: &[u16]) -> Option<u64>
    ensures { result ≡ column_at encoding column content.now }
{
    let before = column.checked_sub(1)?;
    let stand = column_before(encoding, content, before)?;
    Some(stand + 1)
}

// Converts a position from UTF-16 units into the encoding.
fn place_in(
    alloc: Global,
    model: &Model,
    encoding: Encoding,
    at: Position,
) -> Result<Place, ModelError>
    ensures place { Gives result (place_in model.now.document encoding at) }
    ensures sure { is_utf16 encoding ≡ true → ¬ (result ≡ Err ModelError.Memory) }
{
    let line = at.line;
    let column = column_as(alloc, model, encoding, at)?;
    Ok(Place { line, column })
}

fn place_as(
    alloc: Global,
    model: &Model,
    offset: u64,
    encoding: u32,
) -> Result<Option<Place>, ModelError>
    ensures place { Gives result (flat_place model.now.document encoding offset) }
    ensures sure { encoding ≡ 16 → ¬ (result ≡ Err ModelError.Memory) }
{
    let encoding = encoding_of(encoding).ok_or(ModelError::Range)?;
    match model.position_at(offset, &mut Steps::new()) {
        Some(position) => Ok(Some(place_in(alloc, model, encoding, position)?)),
        None => Ok(None),
    }
}

/// Converts `offset` into the position `place`. `encoding` is the unit of the column: 8 for bytes of UTF-8, 16 for UTF-16 units, 32 for
/// code points. `Nothing` if the offset is invalid, `Range` if the encoding is. Never `Memory` if the encoding is 16.
#[unsafe(no_mangle)]
pub extern "C" fn tm_position(
    alloc: Global,
    handle: &mut Handle,
    doc: u64,
    offset: u64,
    encoding: u32,
    place: &mut Place,
) -> u32
    ensures kept { handle.new.held ≡ handle.old.held }
    ensures position { FoundHeld result doc handle.old.held place.old place.new
        (λ f. flat_place f encoding offset) }
    ensures sure { encoding ≡ 16 → ¬ (result ≡ number_of Status.Memory) }
{
    let contents = taken_for!(handle, doc, alloc);
    let answer = place_as(alloc, contents.document(doc), offset, encoding);
    handle.put(contents);
    Status::of_found(answer, place).number()
}

/// Converts a position of the encoding into UTF-16 units; None if its line or column is invalid.
pub(crate) fn position_in(
    alloc: Global,
    model: &Model,
    encoding: Encoding,
    at: Position,
) -> Result<Option<Position>, ModelError>
    ensures position { Gives result (Ok (position_in model.now.document encoding at)) }
    ensures sure { is_utf16 encoding ≡ true → ¬ (result ≡ Err ModelError.Memory) }
{
    if is_utf16(encoding) {
        return Ok(Some(at));
    }
    let mut content = Vec::new(alloc);
    match model.line(at.line, &mut content) {
        Ok(()) => Ok(position_of(at.line, units_column(encoding, at.column, &content))),
        Err(ModelError::Memory) => Err(ModelError::Memory),
        Err(_) => Ok(None),
    }
}

fn position_of(line: u64, column: Option<u64>) -> Option<Position>
    ensures { result ≡ option_map (at line) column }
{
    let column = column?;
    Some(Position { line, column })
}

fn offset_as(
    alloc: Global,
    model: &Model,
    at: Position,
    encoding: u32,
) -> Result<Option<u64>, ModelError>
    ensures offset { Gives result (flat_offset_as model.now.document encoding at) }
    ensures sure { encoding ≡ 16 → ¬ (result ≡ Err ModelError.Memory) }
{
    let encoding = encoding_of(encoding).ok_or(ModelError::Range)?;
    match position_in(alloc, model, encoding, at)? {
        Some(position) => Ok(model.offset_at(position, &mut Steps::new())),
        None => Ok(None),
    }
}

/// Converts a position into an `offset`. The column counts as in `tm_position`. `Nothing` if the position is invalid, `Range` if the
/// encoding is. Never `Memory` if the encoding is 16.
#[unsafe(no_mangle)]
pub extern "C" fn tm_offset(
    alloc: Global,
    handle: &mut Handle,
    doc: u64,
    line: u64,
    column: u64,
    encoding: u32,
    offset: &mut u64,
) -> u32
    ensures kept { handle.new.held ≡ handle.old.held }
    ensures offset { FoundHeld result doc handle.old.held offset.old offset.new
        (λ f. flat_offset_as f encoding (at line column)) }
    ensures sure { encoding ≡ 16 → ¬ (result ≡ number_of Status.Memory) }
{
    let contents = taken_for!(handle, doc, alloc);
    let answer = offset_as(
        alloc,
        contents.document(doc),
        Position { line, column },
        encoding,
    );
    handle.put(contents);
    Status::of_found(answer, offset).number()
}
