//! Sets of fields that several commands have in common.

ghost use Rattle.serde_json.specs.View.{view};
ghost use Rattle.script_lines.specs.Reading.{Reads};
ghost use Rattle.script_lines.specs.Rows.{bare, sole_number, two_numbers, sole_span, sole_position};

use crate::command::Command;
use crate::fields::{LineFault, expect_fields, number_at, position_in, span_at};
use serde_json::Value;
use text_lengths::{Position, Span};

/// Returns the command. Fails with `Syntax` if the value has fields other than `cmd` and `doc`.
pub(super) fn bare(value: &Value, command: Command) -> Result<Command, LineFault>
    ensures { Reads result (bare command (view value.now)) }
{
    expect_fields(value, &[])?;
    Ok(command)
}

/// Returns the number in the field `key`, the only one of the command.
pub(super) fn sole_number(value: &Value, key: &str) -> Result<u64, LineFault>
    ensures { Reads result (sole_number key.now (view value.now)) }
{
    expect_fields(value, &[key])?;
    number_at(value, key)
}

/// Returns the numbers in the fields `key` and `other`, the only ones of the command.
pub(super) fn two_numbers(value: &Value, key: &str, other: &str) -> Result<(u64, u64), LineFault>
    ensures { Reads result (two_numbers key.now other.now (view value.now)) }
{
    expect_fields(value, &[key, other])?;
    let first = number_at(value, key)?;
    let second = number_at(value, other)?;
    Ok((first, second))
}

/// Returns the span in the field `key`, the only one of the command.
pub(super) fn sole_span(value: &Value, key: &str) -> Result<Span, LineFault>
    ensures { Reads result (sole_span key.now (view value.now)) }
{
    expect_fields(value, &[key])?;
    span_at(value, key)
}

/// Returns the position in the fields `line` and `col`, the only ones of the command.
pub(super) fn sole_position(value: &Value) -> Result<Position, LineFault>
    ensures { Reads result (sole_position (view value.now)) }
{
    expect_fields(value, &["line", "col"])?;
    position_in(value)
}
