//! Commands, and their parsing from JSON values.

ghost use Rattle.std.specs.Prelude.{◌≡◌, Some, codes};
ghost use Rattle.serde_json.specs.View.{view};
ghost use Rattle.script_lines.specs.Reading.{Reads};
ghost use Rattle.script_lines.specs.Fields.{string_at};
ghost use Rattle.script_lines.specs.Commands.{command_in};

use crate::commands::command_named;
use crate::fields::LineFault;
use crate::lists::{Ids, NewDecos};
use crate::op::LineOps;
use crate::sought::Sought;
use bracket_scan::BracketTable;
use hiding_marks::Hiding;
use serde_json::Value;
use std::alloc::Global;
use text_lengths::{Position, Span};
use unit_text::{Kind, Units};

/// A command on one document.
#[derive(Drop)]
pub enum Command {
    /// Replaces the document by a new one. Its brackets are those of the given table, or of the standard table.
    /// Comments and strings, as given by the marks, hide brackets; without marks nothing is hidden. The line endings
    /// of the text become those of the kind.
    Open {
        text: Units,
        brackets: Option<BracketTable>,
        marks: Option<Hiding>,
        kind: Kind,
    },
    /// Applies the ops to the text as one batch.
    Edit {
        ops: LineOps,
    },
    /// Converts the line endings of the text to those of the kind.
    Eol {
        kind: Kind,
    },
    /// Removes decorations of the owner by their ids, and adds new ones for this owner.
    Decorate {
        owner: u64,
        remove: Ids,
        add: NewDecos,
    },
    /// Undoes the last step.
    Undo,
    /// Redoes the step that was undone last.
    Redo,
    /// Closes the undo step, so that the next edit begins a new one.
    Stop,
    /// Asks for the numbers of units and lines of the text.
    Size,
    /// Asks for the version, and for the alternative version, which undo and redo restore together with the text.
    Version,
    /// Asks for the last change, as edits that are carried out one after another.
    Changes,
    /// Asks for the content of line `n`, counted from 1.
    Line {
        n: u64,
    },
    /// Asks for the units of the span.
    Value {
        at: Span,
    },
    /// Asks for the offset of the position.
    Offset {
        p: Position,
    },
    /// Asks for the position of the offset.
    Position {
        offset: u64,
    },
    /// Asks for the span, the mode and the owner of the decoration.
    Deco {
        id: u64,
    },
    /// Asks for the decorations that overlap or touch the span: those of all owners, or of one.
    Decos {
        at: Span,
        owner: Option<u64>,
    },
    /// Asks for the brackets of lines `from` to `to`, both included, counted from 1.
    Brackets {
        from: u64,
        to: u64,
    },
    /// Asks for the partner of the bracket at the position.
    Match {
        p: Position,
    },
    /// Asks how many brackets are open at the position.
    Level {
        p: Position,
    },
    /// Takes a snapshot of the text.
    Snapshot,
    /// Asks for the next units of the snapshot, at most `count`.
    Read {
        id: u64,
        count: u64,
    },
    /// Closes the snapshot.
    Close {
        id: u64,
    },
    /// Asks for the columns of line `n`, counted from 1, at which a cursor may stop.
    Stops {
        n: u64,
    },
    /// Asks for the spans of the occurrences of the search text.
    Find {
        sought: Sought,
    },
    /// Replaces each occurrence of the search text by `text`.
    Replace {
        sought: Sought,
        text: Units,
    },
    /// Begins a mirror of the current text.
    Mirror,
    /// Sends the last change as an event.
    Send,
    /// Delivers sent event `n`, counted from 1, to the mirror.
    Deliver {
        n: u64,
    },
    /// Asks for the content of line `n` of the mirror, counted from 1.
    Mirrored {
        n: u64,
    },
}

/// Parses a command. `name` is the value of the field `cmd`. Fails with `Syntax` if the value is not a valid command;
/// `Memory` may take the place of any result.
pub(crate) fn command_in(alloc: Global, name: &str, value: &Value) -> Result<Command, LineFault>
    requires { string_at (codes "cmd") (view value.now) ≡ Some name.now }
    ensures { Reads result (command_in (view value.now)) }
{
    command_named(alloc, name, value)
}
