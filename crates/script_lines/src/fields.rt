//! Reading the fields of a JSON object.

ghost use Rattle.std.specs.Prelude.{◌≡◌, ◌++◌, string_bytes};
ghost use Rattle.std.specs.BTreeMap.{keys};
ghost use Rattle.std.specs.List.{list_all};
ghost use Rattle.serde_json.specs.View.{view, items_view};
ghost use Rattle.script_lines.specs.Reading.{Reads, Passes};
ghost use Rattle.script_lines.specs.Fields.{names_of, is_name, has_only, has_fields, whole_number, number_at, optional_number_at, text_of, text_at, optional_text_at, span_in, span_from, span_at, position_of, positions_in, positions_at, position_in, flag_at, kind_named, kind_of, kind_at, optional_kind_at};

use crate::items::Item;
use serde_json::{Map, Value};
use std::alloc::{AllocError, Global};
use text_lengths::{Position, Span};
use thiserror::Error;
use unit_text::{Kind, Units, units_of};

/// The reason why a line was not read as a command.
#[derive(Clone, Copy, PartialEq, Eq, Debug, Error)]
pub enum LineFault {
    /// The line is not a valid command.
    #[error("the line is no command")]
    Syntax,
    /// Out of memory while the line was read.
    #[error("out of memory")]
    Memory,
}

/// Fails with `Syntax` unless the value is an object whose keys are all among `names`.
pub(crate) fn expect_only(value: &Value, names: &[&str]) -> Result<(), LineFault>
    ensures { Passes result (has_only (names_of names.now) (view value.now)) }
{
    expect(has_only(value, &[], names))
}

/// Fails with `Syntax` unless the value is an object whose keys are all among `names`, `cmd` and `doc`.
pub(crate) fn expect_fields(value: &Value, names: &[&str]) -> Result<(), LineFault>
    ensures { Passes result (has_fields (names_of names.now) (view value.now)) }
{
    expect(has_only(value, &["cmd", "doc"], names))
}

fn expect(holds: bool) -> Result<(), LineFault>
    ensures { Passes result holds }
{
    if holds {
        Ok(())
    } else {
        Err(LineFault::Syntax)
    }
}

/// Returns whether the value is an object whose keys are all in `common` or `names`.
fn has_only(value: &Value, common: &[&str], names: &[&str]) -> bool
    ensures { result ≡ has_only (names_of common.now ++ names_of names.now) (view value.now) }
{
    match value.as_object() {
        Some(members) => are_names(members, common, names),
        None => false,
    }
}

fn are_names(members: &Map<String, Value>, common: &[&str], names: &[&str]) -> bool
    ensures { result
        ≡ list_all (λ key. is_name (names_of common.now ++ names_of names.now) (string_bytes key))
        (keys members.now) }
{
    members
        .keys()
        .all(|key| is_name(key.as_str(), common, names))
}

fn is_name(key: &str, common: &[&str], names: &[&str]) -> bool
    ensures { result ≡ is_name (names_of common.now ++ names_of names.now) key.now }
{
    is_one_of(key, common) || is_one_of(key, names)
}

fn is_one_of(key: &str, names: &[&str]) -> bool
    ensures { result ≡ is_name (names_of names.now) key.now }
{
    for name in names {
        if key == *name {
            return true;
        }
    }
    false
}

fn whole_number(value: &Value) -> Option<u64>
    ensures { result ≡ whole_number (view value.now) }
{
    value.as_u64()
}

pub(crate) fn number_at(value: &Value, key: &str) -> Result<u64, LineFault>
    ensures { Reads result (number_at key.now (view value.now)) }
{
    let field = value.get(key).ok_or(LineFault::Syntax)?;
    whole_number(field).ok_or(LineFault::Syntax)
}

pub(crate) fn optional_number_at(value: &Value, key: &str) -> Result<Option<u64>, LineFault>
    ensures { Reads result (optional_number_at key.now (view value.now)) }
{
    match value.get(key) {
        None => Ok(None),
        Some(field) => whole_number(field).map(Some).ok_or(LineFault::Syntax),
    }
}

impl Item for u64 {
    ghost reads = { whole_number };

    fn item_in(_alloc: Global, value: &Value) -> Result<u64, LineFault> {
        whole_number(value).ok_or(LineFault::Syntax)
    }
}

pub(crate) fn text_at(alloc: Global, value: &Value, key: &str) -> Result<Units, LineFault>
    ensures { Reads result (text_at key.now (view value.now)) }
{
    let field = value.get(key).ok_or(LineFault::Syntax)?;
    text_of(alloc, field)
}

pub(crate) fn optional_text_at(
    alloc: Global,
    value: &Value,
    key: &str,
) -> Result<Option<Units>, LineFault>
    ensures { Reads result (optional_text_at key.now (view value.now)) }
{
    match value.get(key) {
        None => Ok(None),
        Some(field) => {
            let text = text_of(alloc, field)?;
            Ok(Some(text))
        }
    }
}

pub(crate) fn text_of(alloc: Global, value: &Value) -> Result<Units, LineFault>
    ensures { Reads result (text_of (view value.now)) }
{
    let text = value.as_str().ok_or(LineFault::Syntax)?;
    let mut units = Vec::new(alloc);
    units_of(text, &mut units).map_err(|_| LineFault::Memory)?;
    Ok(Units::from_vec(units))
}

pub(crate) fn span_at(value: &Value, key: &str) -> Result<Span, LineFault>
    ensures { Reads result (span_at key.now (view value.now)) }
{
    let field = value.get(key).ok_or(LineFault::Syntax)?;
    span_from(field)
}

pub(crate) fn span_from(value: &Value) -> Result<Span, LineFault>
    ensures { Reads result (span_from (view value.now)) }
{
    let items = value.as_array().ok_or(LineFault::Syntax)?;
    span_in(items.as_slice())
}

fn span_in(items: &[Value]) -> Result<Span, LineFault>
    ensures { Reads result (span_in (items_view items.now)) }
{
    let [start, end] = items else {
        return Err(LineFault::Syntax);
    };
    let start = whole_number(start).ok_or(LineFault::Syntax)?;
    let end = whole_number(end).ok_or(LineFault::Syntax)?;
    Ok(Span { start, end })
}

pub(crate) fn positions_at(value: &Value, key: &str) -> Result<(Position, Position), LineFault>
    ensures { Reads result (positions_at key.now (view value.now)) }
{
    let field = value.get(key).ok_or(LineFault::Syntax)?;
    let items = field.as_array().ok_or(LineFault::Syntax)?;
    positions_in(items.as_slice())
}

fn positions_in(items: &[Value]) -> Result<(Position, Position), LineFault>
    ensures { Reads result (positions_in (items_view items.now)) }
{
    let [start_line, start_column, end_line, end_column] = items else {
        return Err(LineFault::Syntax);
    };
    let start = position_of(start_line, start_column)?;
    let end = position_of(end_line, end_column)?;
    Ok((start, end))
}

fn position_of(line: &Value, column: &Value) -> Result<Position, LineFault>
    ensures { Reads result (position_of (view line.now) (view column.now)) }
{
    let line = whole_number(line).ok_or(LineFault::Syntax)?;
    let column = whole_number(column).ok_or(LineFault::Syntax)?;
    Ok(Position { line, column })
}

pub(crate) fn position_in(value: &Value) -> Result<Position, LineFault>
    ensures { Reads result (position_in (view value.now)) }
{
    let line = number_at(value, "line")?;
    let column = number_at(value, "col")?;
    Ok(Position { line, column })
}

pub(crate) fn flag_at(value: &Value, key: &str) -> Result<bool, LineFault>
    ensures { Reads result (flag_at key.now (view value.now)) }
{
    match value.get(key) {
        None => Ok(false),
        Some(field) => field.as_bool().ok_or(LineFault::Syntax),
    }
}

pub(crate) fn kind_at(value: &Value, key: &str) -> Result<Kind, LineFault>
    ensures { Reads result (kind_at key.now (view value.now)) }
{
    let field = value.get(key).ok_or(LineFault::Syntax)?;
    kind_of(field)
}

/// Returns the kind that the field names; `Mixed` if the field is missing.
pub(crate) fn optional_kind_at(value: &Value, key: &str) -> Result<Kind, LineFault>
    ensures { Reads result (optional_kind_at key.now (view value.now)) }
{
    match value.get(key) {
        None => Ok(Kind::Mixed),
        Some(field) => kind_of(field),
    }
}

fn kind_of(value: &Value) -> Result<Kind, LineFault>
    ensures { Reads result (kind_of (view value.now)) }
{
    let word = value.as_str().ok_or(LineFault::Syntax)?;
    kind_named(word).ok_or(LineFault::Syntax)
}

fn kind_named(word: &str) -> Option<Kind>
    ensures { result ≡ kind_named word.now }
{
    match word {
        "lf" => Some(Kind::Lf),
        "crlf" => Some(Kind::Crlf),
        _ => None,
    }
}
