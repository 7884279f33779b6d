//! The commands that search for a text.

ghost use Rattle.serde_json.specs.View.{view};
ghost use Rattle.script_lines.specs.Reading.{Reads};
ghost use Rattle.script_lines.specs.SearchCommands.{sought_at, find_in, replace_in};

use crate::command::Command;
use crate::fields::{LineFault, expect_fields, text_at};
use crate::sought::Sought;
use serde_json::Value;
use std::alloc::Global;

pub(super) fn find_in(alloc: Global, value: &Value) -> Result<Command, LineFault>
    ensures { Reads result (find_in (view value.now)) }
{
    expect_fields(value, &["text"])?;
    let sought = sought_at(alloc, value, "text")?;
    Ok(Command::Find { sought })
}

pub(super) fn replace_in(alloc: Global, value: &Value) -> Result<Command, LineFault>
    ensures { Reads result (replace_in (view value.now)) }
{
    expect_fields(value, &["find", "text"])?;
    let sought = sought_at(alloc, value, "find")?;
    let text = text_at(alloc, value, "text")?;
    Ok(Command::Replace { sought, text })
}

fn sought_at(alloc: Global, value: &Value, key: &str) -> Result<Sought, LineFault>
    ensures { Reads result (sought_at key.now (view value.now)) }
{
    let units = text_at(alloc, value, key)?;
    Sought::from_units(units).ok_or(LineFault::Syntax)
}
