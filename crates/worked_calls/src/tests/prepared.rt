//! Changes that are prepared and later committed.

use super::documents::open;
use model_core::{Model, Op};
use std::alloc::{AllocError, Global};
use std::process::Abort;
use std::test::Fail;
use text_lengths::Span;
use unit_text::Units;

/// The visible state of a document: its number of units, its version, and whether undo or redo is possible.
#[derive(Clone, Copy)]
struct Seen {
    units: u64,
    version: u64,
    can_undo: bool,
    can_redo: bool,
}

pub fn expect_a_change_in_two_parts<R: AllocGlobal + Abort>(
    rt: &R,
    model: &mut Model,
) -> Result<(), Fail> {
    let (prepared, edited, undone) = edit_and_undo(rt.alloc(), model)?;
    assert_eq!(rt; prepared, (6, 1));
    assert_eq!(rt; (edited.units, edited.version), (5, 2));
    assert_eq!(rt; (edited.can_undo, edited.can_redo), (true, false));
    assert_eq!(rt; (undone.units, undone.version), (6, 3));
    assert_eq!(rt; (undone.can_undo, undone.can_redo), (false, true));
    Ok(())
}

/// Returns the units and the version while an edit is prepared, and the visible state after commit and after undo.
fn edit_and_undo(alloc: Global, model: &mut Model) -> Result<((u64, u64), Seen, Seen), Fail> {
    open(model, &[0x61, 0x62, 0x63, 0x64, 0x65, 0x66])?;
    let prepared = edit_later(alloc, model)?;
    let edited = look_at(model)?;
    undo_later(model)?;
    let undone = look_at(model)?;
    Ok((prepared, edited, undone))
}

/// Replaces two units by X. Returns the number of units and the version at the moment when the edit was prepared.
fn edit_later(alloc: Global, model: &mut Model) -> Result<(u64, u64), Fail> {
    let ops = x_for_two(alloc)?;
    let ready = model.prepare(ops)?;
    let (version, _) = model.versions();
    let prepared = (model.len(), version);
    model.commit(ready);
    Ok(prepared)
}

fn x_for_two(alloc: Global) -> Result<Vec<Op>, AllocError> {
    let op = Op {
        span: Span { start: 1, end: 3 },
        text: Units::copy_of(alloc, &[0x58])?,
        force: false,
    };
    Ok(vec![in alloc; op]?)
}

fn undo_later(model: &mut Model) -> Result<(), Fail> {
    if let Some(ready) = model.prepare_undo()? {
        model.commit(ready);
    }
    Ok(())
}

fn look_at(model: &mut Model) -> Result<Seen, Fail> {
    let can_undo = model.prepare_undo()?.is_some();
    let can_redo = model.prepare_redo()?.is_some();
    let (version, _) = model.versions();
    Ok(Seen {
        units: model.len(),
        version,
        can_undo,
        can_redo,
    })
}
