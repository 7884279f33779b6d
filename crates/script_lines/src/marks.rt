//! Parsing of the marks of comments and strings.

ghost use Rattle.std.specs.Prelude.{◌≡◌};
ghost use Rattle.serde_json.specs.View.{view};
ghost use Rattle.hiding_rules.specs.Marks.{marks};
ghost use Rattle.script_lines.specs.Reading.{Reads};
ghost use Rattle.script_lines.specs.Marks.{quote_in, sole_unit, optional_quotes_at, marks_of, marks_in, optional_marks_at};

use crate::bracket::optional_pair_at;
use crate::fields::{LineFault, expect_only, optional_text_at, text_of};
use crate::items::{Item, list_in};
use crate::lists::ListOf;
use hiding_marks::{Hiding, HidingError};
use serde_json::Value;
use std::alloc::Global;
use unit_text::Units;

pub(crate) fn optional_marks_at(
    alloc: Global,
    value: &Value,
    key: &str,
) -> Result<Option<Hiding>, LineFault>
    ensures { Reads result (optional_marks_at key.now (view value.now)) }
{
    match value.get(key) {
        None => Ok(None),
        Some(field) => {
            let marks = marks_in(alloc, field)?;
            Ok(Some(marks))
        }
    }
}

fn marks_in(alloc: Global, value: &Value) -> Result<Hiding, LineFault>
    ensures { Reads result (marks_in (view value.now)) }
{
    expect_only(value, &["line", "block", "quotes"])?;
    let line = optional_text_at(alloc, value, "line")?;
    let block = optional_pair_at(alloc, value, "block")?;
    let quotes = optional_quotes_at(alloc, value, "quotes")?;
    marks_of(line, block, quotes.as_slice())
}

fn marks_of(
    line: Option<Units>,
    block: Option<(Units, Units)>,
    quotes: &[u16],
) -> Result<Hiding, LineFault>
    ensures { Reads result (marks_of (marks line block quotes.now)) }
{
    match Hiding::new(line, block, quotes) {
        Ok(hiding) => Ok(hiding),
        Err(HidingError::BadMarks) => Err(LineFault::Syntax),
    }
}

fn optional_quotes_at(alloc: Global, value: &Value, key: &str) -> Result<ListOf<u16>, LineFault>
    ensures { Reads result (optional_quotes_at key.now (view value.now)) }
{
    match value.get(key) {
        None => Ok(ListOf::from_vec(Vec::new(alloc))),
        Some(field) => list_in(alloc, field),
    }
}

impl Item for u16 {
    ghost reads = { quote_in };

    fn item_in(alloc: Global, value: &Value) -> Result<u16, LineFault> {
        let text = text_of(alloc, value)?;
        sole_unit(text.as_slice())
    }
}

fn sole_unit(units: &[u16]) -> Result<u16, LineFault>
    ensures { Reads result (sole_unit units.now) }
{
    match units {
        [unit] => Ok(*unit),
        _ => Err(LineFault::Syntax),
    }
}
