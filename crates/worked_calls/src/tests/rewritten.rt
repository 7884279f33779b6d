//! A small text in many pieces that gets rewritten, compared with a plain list of its units; with short and longer
//! ops, which the history stores in two forms. Then a text whose buffers would hold ever more.

use super::documents::{open, put};
use model_core::Model;
use std::alloc::{AllocError, Global};
use std::process::Abort;
use std::test::Fail;
use text_lengths::Span;

const LETTER: u16 = 0x61;

const LEN: usize = 6_000;

const EDITS: usize = 2_200;

/// The number of pastes of as many units, each of which is undone.
const PASTES: usize = 100;

/// Three times the text before a paste or its undo, the text after it, what it appends, and 2^16, are less than this.
const MOST_HELD: u64 = 120_000;

/// The plain list at the end, and the text: after the edits, after undo, and after redo.
#[derive(Drop)]
struct Texts {
    plain: Vec<u16>,
    edited: Vec<u16>,
    undone: Vec<u16>,
    redone: Vec<u16>,
}

pub fn expect_the_plain_text<R: AllocGlobal + Abort>(
    rt: &R,
    model: &mut Model,
) -> Result<(), Fail> {
    let texts = edit_and_undo(rt.alloc(), model)?;
    let first = letters(rt.alloc())?;
    expect_texts(rt, &texts, first.as_slice());
    Ok(())
}

/// Pastes a text and takes it back, again and again.
pub fn expect_small_buffers<R: AllocGlobal + Abort>(rt: &R, model: &mut Model) -> Result<(), Fail> {
    let units = letters(rt.alloc())?;
    open(model, units.as_slice())?;
    for _paste in 0..PASTES {
        put(
            rt.alloc(),
            model,
            Span { start: 9, end: 9 },
            units.as_slice(),
        )?;
        model.undo()?;
    }
    assert!(rt; !model.is_overfull());
    assert!(rt; model.held() < MOST_HELD);
    Ok(())
}

fn expect_texts(rt: &impl Abort, texts: &Texts, first: &[u16]) {
    assert!(rt; texts.edited.as_slice() == texts.plain.as_slice());
    assert!(rt; texts.undone.as_slice() == first);
    assert!(rt; texts.redone.as_slice() == texts.plain.as_slice());
}

fn edit_and_undo(alloc: Global, model: &mut Model) -> Result<Texts, Fail> {
    let plain = edit_beside(alloc, model)?;
    let edited = text_of(alloc, model)?;
    model.undo()?;
    let undone = text_of(alloc, model)?;
    model.redo()?;
    let redone = text_of(alloc, model)?;
    Ok(Texts {
        plain,
        edited,
        undone,
        redone,
    })
}

fn edit_beside(alloc: Global, model: &mut Model) -> Result<Vec<u16>, Fail> {
    let mut plain = letters(alloc)?;
    open(model, plain.as_slice())?;
    for turn in 0..EDITS {
        edit(alloc, model, &mut plain, turn)?;
    }
    Ok(plain)
}

fn letters(alloc: Global) -> Result<Vec<u16>, AllocError> {
    let mut units = Vec::new(alloc);
    units.resize(LEN, LETTER)?;
    Ok(units)
}

/// Replaces one unit, or nine every seventh time, in both.
fn edit(alloc: Global, model: &mut Model, plain: &mut Vec<u16>, turn: usize) -> Result<(), Fail> {
    let at = turn.wrapping_mul(2_741) % (LEN - 9);
    let len = if turn % 7 == 0 { 9 } else { 1 };
    let letter = LETTER + 1 + (turn % 20) as u16;
    let units = [letter; 9];
    let span = Span {
        start: at as u64,
        end: (at + len) as u64,
    };
    put(alloc, model, span, &units[..len])?;
    for place in at..at + len {
        if let Some(unit) = plain.get_mut(place) {
            *unit = letter;
        }
    }
    Ok(())
}

fn text_of(alloc: Global, model: &Model) -> Result<Vec<u16>, AllocError> {
    let mut units = Vec::new(alloc);
    model.text(&mut units)?;
    Ok(units)
}
