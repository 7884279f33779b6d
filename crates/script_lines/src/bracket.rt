//! Parsing of bracket tables.

ghost use Rattle.std.specs.Prelude.{◌≡◌};
ghost use Rattle.serde_json.specs.View.{view, items_view};
ghost use Rattle.script_lines.specs.Reading.{Reads};
ghost use Rattle.script_lines.specs.Brackets.{pair_of, pair_in, optional_pair_at, table_of, table_in, optional_table_at};

use crate::fields::{LineFault, text_of};
use crate::items::{Item, list_in};
use bracket_scan::{BracketTable, TableError};
use serde_json::Value;
use std::alloc::Global;
use unit_text::Units;

pub(crate) fn optional_table_at(
    alloc: Global,
    value: &Value,
    key: &str,
) -> Result<Option<BracketTable>, LineFault>
    ensures { Reads result (optional_table_at key.now (view value.now)) }
{
    match value.get(key) {
        None => Ok(None),
        Some(field) => {
            let table = table_in(alloc, field)?;
            Ok(Some(table))
        }
    }
}

fn table_in(alloc: Global, value: &Value) -> Result<BracketTable, LineFault>
    ensures { Reads result (table_in (view value.now)) }
{
    let pairs = list_in::<(Units, Units)>(alloc, value)?;
    table_of(alloc, pairs.as_slice())
}

fn table_of(alloc: Global, pairs: &[(Units, Units)]) -> Result<BracketTable, LineFault>
    ensures { Reads result (table_of pairs.now) }
{
    match BracketTable::new(alloc, pairs) {
        Ok(table) => Ok(table),
        Err(TableError::BadTable) => Err(LineFault::Syntax),
        Err(TableError::Memory) => Err(LineFault::Memory),
    }
}

impl Item for (Units, Units) {
    ghost reads = { pair_in };

    fn item_in(alloc: Global, value: &Value) -> Result<(Units, Units), LineFault> {
        pair_in(alloc, value)
    }
}

pub(crate) fn optional_pair_at(
    alloc: Global,
    value: &Value,
    key: &str,
) -> Result<Option<(Units, Units)>, LineFault>
    ensures { Reads result (optional_pair_at key.now (view value.now)) }
{
    match value.get(key) {
        None => Ok(None),
        Some(field) => {
            let pair = pair_in(alloc, field)?;
            Ok(Some(pair))
        }
    }
}

fn pair_in(alloc: Global, value: &Value) -> Result<(Units, Units), LineFault>
    ensures { Reads result (pair_in (view value.now)) }
{
    let items = value.as_array().ok_or(LineFault::Syntax)?;
    pair_of(alloc, items.as_slice())
}

fn pair_of(alloc: Global, items: &[Value]) -> Result<(Units, Units), LineFault>
    ensures { Reads result (pair_of (items_view items.now)) }
{
    let [opening, closing] = items else {
        return Err(LineFault::Syntax);
    };
    let opening = text_of(alloc, opening)?;
    let closing = text_of(alloc, closing)?;
    Ok((opening, closing))
}
