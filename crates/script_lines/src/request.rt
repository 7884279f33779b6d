//! Requests, and their parsing from lines.

ghost use Rattle.std.specs.Prelude.{◌≡◌, true, Some, None, IfOk, OnOk, Err, codes};
ghost use Rattle.std.specs.Str.{is_utf8};
ghost use Rattle.serde_json.specs.Read.{read};
ghost use Rattle.serde_json.specs.View.{view, items_view};
ghost use Rattle.script_lines.specs.Reading.{Reads};
ghost use Rattle.script_lines.specs.Fields.{string_at};
ghost use Rattle.script_lines.specs.Requests.{doc_in, one_in, doc_edit_in, joint_edits_in, joint_in, request_in, request_of};

use crate::command::{Command, command_in};
use crate::commands::some_ops_at;
use crate::fields::{LineFault, expect_only, number_at, optional_number_at};
use crate::items::{Item, all_of};
use crate::lists::ListOf;
use crate::op::LineOps;
use serde_json::Value;
use serde_json::error::Category;
use std::alloc::Global;

/// The request of one line of a script.
#[derive(Drop)]
pub enum Request {
    /// A command on document `doc`. The number may be out of range.
    One { doc: u64, command: Command },
    /// A joint edit, which is carried out as a whole or not at all. It has at least two batches. Their document
    /// numbers may be out of range or equal.
    Joint { edits: DocEdits },
}

/// One batch of a joint edit, with the document that it applies to.
#[derive(Drop, Debug)]
pub struct DocEdit {
    /// The number of the document, which may be out of range.
    pub doc: u64,
    /// The ops in the order of the line, at least one.
    pub ops: LineOps,
}

/// The batches of a joint edit.
pub type DocEdits = ListOf<DocEdit>;

/// Parses the request of a line. Fails with `Syntax` if the line is not a valid request; `Memory` may take the place
/// of any result.
#[tactic(auto, unfolding(crate::specs::Requests::request_of))]
pub fn request_of(alloc: Global, line: &[u8]) -> Result<Request, LineFault>
    ensures { Reads result (request_of line.now) }
{
    let value = value_of(alloc, line)?;
    request_in(alloc, &value)
}

fn value_of(alloc: Global, line: &[u8]) -> Result<Value, LineFault>
    ensures utf8 { OnOk result (is_utf8 line.now ≡ true) }
    ensures ok { IfOk result (λ value. read line.now ≡ Some (view value)) }
    ensures syntax { result ≡ Err LineFault.Syntax → is_utf8 line.now ≡ true
        → read line.now ≡ None }
{
    match Value::from_slice(alloc, line) {
        Ok(value) => Ok(value),
        Err(fault) => match fault.classify() {
            Category::Memory => Err(LineFault::Memory),
            _ => Err(LineFault::Syntax),
        },
    }
}

fn request_in(alloc: Global, value: &Value) -> Result<Request, LineFault>
    ensures { Reads result (request_in (view value.now)) }
{
    let field = value.get("cmd").ok_or(LineFault::Syntax)?;
    let name = field.as_str().ok_or(LineFault::Syntax)?;
    match name {
        "joint" => joint_in(alloc, value),
        _ => one_in(alloc, name, value),
    }
}

/// Parses a command on one document. `name` is the value of the field `cmd`.
fn one_in(alloc: Global, name: &str, value: &Value) -> Result<Request, LineFault>
    requires { string_at (codes "cmd") (view value.now) ≡ Some name.now }
    ensures { Reads result (one_in (view value.now)) }
{
    let doc = doc_in(value)?;
    let command = command_in(alloc, name, value)?;
    Ok(Request::One { doc, command })
}

/// Returns the number of the document that a command applies to: 0 if the field `doc` is missing.
fn doc_in(value: &Value) -> Result<u64, LineFault>
    ensures { Reads result (doc_in (view value.now)) }
{
    let doc = optional_number_at(value, "doc")?;
    Ok(doc.unwrap_or(0))
}

fn joint_in(alloc: Global, value: &Value) -> Result<Request, LineFault>
    ensures { Reads result (joint_in (view value.now)) }
{
    expect_only(value, &["cmd", "edits"])?;
    let field = value.get("edits").ok_or(LineFault::Syntax)?;
    let edits = field.as_array().ok_or(LineFault::Syntax)?;
    let edits = joint_edits_in(alloc, edits.as_slice())?;
    Ok(Request::Joint { edits })
}

fn joint_edits_in(alloc: Global, values: &[Value]) -> Result<DocEdits, LineFault>
    ensures { Reads result (joint_edits_in (items_view values.now)) }
{
    if values.len() < 2 {
        return Err(LineFault::Syntax);
    }
    all_of(alloc, values)
}

impl Item for DocEdit {
    ghost reads = { doc_edit_in };

    fn item_in(alloc: Global, value: &Value) -> Result<DocEdit, LineFault> {
        doc_edit_in(alloc, value)
    }
}

fn doc_edit_in(alloc: Global, value: &Value) -> Result<DocEdit, LineFault>
    ensures { Reads result (doc_edit_in (view value.now)) }
{
    expect_only(value, &["doc", "ops"])?;
    let doc = number_at(value, "doc")?;
    let ops = some_ops_at(alloc, value, "ops")?;
    Ok(DocEdit { doc, ops })
}
