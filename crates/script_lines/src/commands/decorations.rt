//! The commands on decorations.

ghost use Rattle.std.specs.Prelude.{◌≡◌};
ghost use Rattle.serde_json.specs.View.{view};
ghost use Rattle.script_lines.specs.Reading.{Reads};
ghost use Rattle.script_lines.specs.DecorationCommands.{decorate_in, decos_in};

use crate::command::Command;
use crate::fields::{LineFault, expect_fields, number_at, optional_number_at, span_at};
use crate::items::list_at;
use serde_json::Value;
use std::alloc::Global;

pub(super) fn decorate_in(alloc: Global, value: &Value) -> Result<Command, LineFault>
    ensures { Reads result (decorate_in (view value.now)) }
{
    expect_fields(value, &["owner", "remove", "add"])?;
    let owner = number_at(value, "owner")?;
    let remove = list_at(alloc, value, "remove")?;
    let add = list_at(alloc, value, "add")?;
    Ok(Command::Decorate { owner, remove, add })
}

pub(super) fn decos_in(value: &Value) -> Result<Command, LineFault>
    ensures { Reads result (decos_in (view value.now)) }
{
    expect_fields(value, &["at", "owner"])?;
    let at = span_at(value, "at")?;
    let owner = optional_number_at(value, "owner")?;
    Ok(Command::Decos { at, owner })
}
