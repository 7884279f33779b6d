//! The commands that change the text.

ghost use Rattle.std.specs.Prelude.{◌≡◌};
ghost use Rattle.serde_json.specs.View.{view, items_view};
ghost use Rattle.script_lines.specs.Reading.{Reads};
ghost use Rattle.script_lines.specs.EditCommands.{open_in, place_in, op_in, some_ops_in, some_ops_at, edit_in, eol_in};

use crate::bracket::optional_table_at;
use crate::command::Command;
use crate::fields::{
    LineFault, expect_fields, expect_only, flag_at, kind_at, optional_kind_at, positions_at,
    span_from, text_at,
};
use crate::items::{Item, all_of};
use crate::marks::optional_marks_at;
use crate::op::{LineOp, LineOps, Place};
use serde_json::Value;
use std::alloc::Global;

pub(super) fn open_in(alloc: Global, value: &Value) -> Result<Command, LineFault>
    ensures { Reads result (open_in (view value.now)) }
{
    expect_fields(value, &["text", "brackets", "marks", "eol"])?;
    let text = text_at(alloc, value, "text")?;
    let brackets = optional_table_at(alloc, value, "brackets")?;
    let marks = optional_marks_at(alloc, value, "marks")?;
    let kind = optional_kind_at(value, "eol")?;
    Ok(Command::Open {
        text,
        brackets,
        marks,
        kind,
    })
}

pub(super) fn eol_in(value: &Value) -> Result<Command, LineFault>
    ensures { Reads result (eol_in (view value.now)) }
{
    expect_fields(value, &["kind"])?;
    let kind = kind_at(value, "kind")?;
    Ok(Command::Eol { kind })
}

pub(super) fn edit_in(alloc: Global, value: &Value) -> Result<Command, LineFault>
    ensures { Reads result (edit_in (view value.now)) }
{
    expect_fields(value, &["ops"])?;
    let ops = some_ops_at(alloc, value, "ops")?;
    Ok(Command::Edit { ops })
}

/// Parses the ops of the field `key`. Fails with `Syntax` if there are none.
pub(crate) fn some_ops_at(alloc: Global, value: &Value, key: &str) -> Result<LineOps, LineFault>
    ensures { Reads result (some_ops_at key.now (view value.now)) }
{
    let field = value.get(key).ok_or(LineFault::Syntax)?;
    let ops = field.as_array().ok_or(LineFault::Syntax)?;
    some_ops_in(alloc, ops.as_slice())
}

fn some_ops_in(alloc: Global, values: &[Value]) -> Result<LineOps, LineFault>
    ensures { Reads result (some_ops_in (items_view values.now)) }
{
    if values.is_empty() {
        return Err(LineFault::Syntax);
    }
    all_of(alloc, values)
}

impl Item for LineOp {
    ghost reads = { op_in };

    fn item_in(alloc: Global, value: &Value) -> Result<LineOp, LineFault> {
        op_in(alloc, value)
    }
}

fn op_in(alloc: Global, value: &Value) -> Result<LineOp, LineFault>
    ensures { Reads result (op_in (view value.now)) }
{
    let place = place_in(value)?;
    let text = text_at(alloc, value, "text")?;
    let force = flag_at(value, "force")?;
    Ok(LineOp { place, text, force })
}

/// Parses the place of an op: the span of the field `at`, or the positions of the field `range` if there is no `at`.
/// Beside this field the op may have only `text` and `force`.
fn place_in(value: &Value) -> Result<Place, LineFault>
    ensures { Reads result (place_in (view value.now)) }
{
    match value.get("at") {
        Some(field) => {
            expect_only(value, &["at", "text", "force"])?;
            let span = span_from(field)?;
            Ok(Place::At(span))
        }
        None => {
            expect_only(value, &["range", "text", "force"])?;
            let (start, end) = positions_at(value, "range")?;
            Ok(Place::InRange(start, end))
        }
    }
}
