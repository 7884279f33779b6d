//! Parsing of JSON arrays into lists, item by item.

ghost use Rattle.std.specs.Prelude.{Option};
ghost use Rattle.serde_json.specs.Data.{Data};
ghost use Rattle.serde_json.specs.View.{view, items_view};
ghost use Rattle.script_lines.specs.Reading.{Reads};
ghost use Rattle.script_lines.specs.Fields.{all_of, list_in, list_at};

use crate::fields::LineFault;
use crate::lists::ListOf;
use serde_json::Value;
use std::alloc::Global;

/// A type of list items that a line can contain.
pub(crate) trait Item: Drop {
    ghost reads: { Data → Option Self };

    fn item_in(alloc: Global, value: &Value) -> Result<Self, LineFault>
        ensures { Reads result (reads (view value.now)) };
}

pub(crate) fn list_at<T: Item>(
    alloc: Global,
    value: &Value,
    key: &str,
) -> Result<ListOf<T>, LineFault>
    ensures { Reads result (list_at T.reads key.now (view value.now)) }
{
    let field = value.get(key).ok_or(LineFault::Syntax)?;
    list_in(alloc, field)
}

pub(crate) fn list_in<T: Item>(alloc: Global, value: &Value) -> Result<ListOf<T>, LineFault>
    ensures { Reads result (list_in T.reads (view value.now)) }
{
    let items = value.as_array().ok_or(LineFault::Syntax)?;
    all_of(alloc, items.as_slice())
}

pub(crate) fn all_of<T: Item>(alloc: Global, values: &[Value]) -> Result<ListOf<T>, LineFault>
    ensures { Reads result (all_of T.reads (items_view values.now)) }
{
    let mut items = Vec::with_capacity(alloc, values.len()).map_err(|_| LineFault::Memory)?;
    for value in values {
        let item = T::item_in(alloc, value)?;
        items.push(item).map_err(|_| LineFault::Memory)?;
    }
    Ok(ListOf::from_vec(items))
}
