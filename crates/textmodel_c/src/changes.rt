//! What the last change of a document did.

ghost use Rattle.std.specs.Prelude.{◌≡◌, ◌<◌, false, OnOk, OnErr};
ghost use Rattle.group_rules.specs.declared.TheConstants.{DOC_COUNT};
ghost use Rattle.textmodel_c.specs.NextChange.{ChangeTextHeld, ChangeTextUtf8Held, NextTold, TellsNext, TextOut, TextOutUtf8};
ghost use Rattle.textmodel_c.specs.Tellings.{is_telling, telling_after};
ghost use Rattle.textmodel_c.specs.Told.{LeavesWith};

use crate::contents::Contents;
use crate::handle::{Handle, taken, taken_for};
use crate::lists::hand_out_of;
use crate::status::Status;
use crate::telling::{Change, Telling};
use crate::utf8::utf8_out;
use model_core::Model;
use std::alloc::{AllocError, Global};

// Moves on to the next edit of the document's last change. On an error `telling` is unchanged.
fn tell_next(
    alloc: Global,
    telling: &mut Option<Telling>,
    doc: u64,
    model: &Model,
) -> Result<(), AllocError>
    ensures told { OnOk result
        (telling.new ≡ telling_after telling.old doc model.now.document) }
    ensures kept { OnErr result (telling.new ≡ telling.old) }
    ensures begun { OnErr result (is_telling telling.old doc model.now.document ≡ false) }
{
    if let Some(told) = telling {
        if told.is_of(doc, model.versions().0) {
            if !told.go_on() {
                *telling = None;
            }
            return Ok(());
        }
    }
    *telling = Telling::of(alloc, doc, model)?;
    Ok(())
}

fn hand_out_next(alloc: Global, contents: &mut Contents, doc: u64, change: &mut Change) -> Status
    requires { doc < DOC_COUNT }
    ensures { NextTold result doc change.old change.new contents.old contents.new }
{
    let model = contents.session.group.doc(doc);
    if tell_next(alloc, &mut contents.telling, doc, model).is_err() {
        return Status::Memory;
    }
    match &contents.telling {
        Some(telling) => {
            *change = telling.last();
            Status::Ok
        }
        None => Status::Nothing,
    }
}

/// Sets `change` to the next edit of the document's last change. The change is an edit, an undo, a redo or new line endings. Applied in
/// order, the edits turn the text before it into the present one. `Nothing` after the last edit; the next call then starts again. It also
/// starts again after another change, a call for another document, `tm_open` or a script line. `Memory` only at a call that starts.
#[unsafe(no_mangle)]
pub extern "C" fn tm_next_change(
    alloc: Global,
    handle: &mut Handle,
    doc: u64,
    change: &mut Change,
) -> u32
    ensures told { LeavesWith result doc handle.old.held handle.new.held (change.new ≡ change.old)
        (TellsNext result doc change.old change.new) }
{
    let mut contents = taken_for!(handle, doc, alloc);
    let status = hand_out_next(alloc, &mut contents, doc, change);
    handle.put(contents);
    status.number()
}

fn text_out(telling: &Option<Telling>, out: &mut [u16], count: &mut u64) -> Status
    ensures { TextOut result out.old out.new count.old count.new telling.now }
{
    match telling {
        Some(telling) => hand_out_of(Ok(()), telling.text(), out, count),
        None => Status::Nothing,
    }
}

/// Copies the text of the edit that `tm_next_change` returned last. Sets `count` to its length in units. `Nothing` if there is no such
/// edit, or a document was opened or a line answered since; `Short` if `out` is too short.
#[unsafe(no_mangle)]
pub extern "C" fn tm_raw_change_text(
    alloc: Global,
    handle: &mut Handle,
    out: &mut [u16],
    count: &mut u64,
) -> u32
    ensures kept { handle.new.held ≡ handle.old.held }
    ensures text { ChangeTextHeld result handle.old.held out.old out.new count.old count.new }
{
    let contents = taken!(handle, alloc);
    let status = text_out(&contents.telling, out, count);
    handle.put(contents);
    status.number()
}

fn text_utf8_out(
    alloc: Global,
    telling: &Option<Telling>,
    out: &mut [u8],
    count: &mut u64,
) -> Status
    ensures { TextOutUtf8 result out.old out.new count.old count.new telling.now }
{
    match telling {
        Some(telling) => utf8_out(alloc, Ok(()), telling.text(), out, count),
        None => Status::Nothing,
    }
}

/// Like `tm_raw_change_text`, in UTF-8; `count` is in bytes. A lone surrogate becomes U+FFFD.
#[unsafe(no_mangle)]
pub extern "C" fn tm_raw_change_text_utf8(
    alloc: Global,
    handle: &mut Handle,
    out: &mut [u8],
    count: &mut u64,
) -> u32
    ensures kept { handle.new.held ≡ handle.old.held }
    ensures text { ChangeTextUtf8Held result handle.old.held out.old out.new count.old count.new }
{
    let contents = taken!(handle, alloc);
    let status = text_utf8_out(alloc, &contents.telling, out, count);
    handle.put(contents);
    status.number()
}
