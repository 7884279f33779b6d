//! The table of commands.

ghost use Rattle.std.specs.Prelude.{◌≡◌};
ghost use Rattle.serde_json.specs.View.{view};
ghost use Rattle.script_lines.specs.Reading.{Reads};
ghost use Rattle.script_lines.specs.Rows.{named_in};
ghost use Rattle.script_lines.specs.Commands.{commands};

mod decorations;
mod edit;
mod search;
mod shapes;

use crate::command::Command;
use crate::fields::LineFault;
use decorations::{decorate_in, decos_in};
pub(crate) use edit::some_ops_at;
use edit::{edit_in, eol_in, open_in};
use search::{find_in, replace_in};
use serde_json::Value;
use shapes::{bare, sole_number, sole_position, sole_span, two_numbers};
use std::alloc::Global;

/// Parses the command named `name`. Fails with `Syntax` if there is no such command, or its fields are invalid.
pub(crate) fn command_named(alloc: Global, name: &str, value: &Value) -> Result<Command, LineFault>
    ensures { Reads result (named_in commands name.now (view value.now)) }
{
    match name {
        "edit" => edit_in(alloc, value),
        "undo" => bare(value, Command::Undo),
        "redo" => bare(value, Command::Redo),
        "stop" => bare(value, Command::Stop),
        "open" => open_in(alloc, value),
        "eol" => eol_in(value),
        "size" => bare(value, Command::Size),
        "version" => bare(value, Command::Version),
        "changes" => bare(value, Command::Changes),
        "line" => sole_number(value, "n").map(|n| Command::Line { n }),
        "stops" => sole_number(value, "n").map(|n| Command::Stops { n }),
        "value" => sole_span(value, "at").map(|at| Command::Value { at }),
        "offset" => sole_position(value).map(|p| Command::Offset { p }),
        "position" => sole_number(value, "offset").map(|offset| Command::Position { offset }),
        "decorate" => decorate_in(alloc, value),
        "deco" => sole_number(value, "id").map(|id| Command::Deco { id }),
        "decos" => decos_in(value),
        "brackets" => two_numbers(value, "from", "to").map(|(from, to)| Command::Brackets {
            from,
            to,
        }),
        "match" => sole_position(value).map(|p| Command::Match { p }),
        "level" => sole_position(value).map(|p| Command::Level { p }),
        "snapshot" => bare(value, Command::Snapshot),
        "read" => two_numbers(value, "id", "count").map(|(id, count)| Command::Read { id, count }),
        "close" => sole_number(value, "id").map(|id| Command::Close { id }),
        "find" => find_in(alloc, value),
        "replace" => replace_in(alloc, value),
        "mirror" => bare(value, Command::Mirror),
        "send" => bare(value, Command::Send),
        "deliver" => sole_number(value, "n").map(|n| Command::Deliver { n }),
        "mirrored" => sole_number(value, "n").map(|n| Command::Mirrored { n }),
        _ => Err(LineFault::Syntax),
    }
}
