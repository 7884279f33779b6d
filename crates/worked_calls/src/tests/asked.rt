//! The number of lines that a question about brackets asks for.

use super::documents::{open, put};
use model_core::Model;
use std::alloc::{AllocError, Global};
use std::process::Abort;
use std::test::Fail;
use text_lengths::{Position, Span};
use unit_text::units_of;

const LINES: u64 = 1000;

/// An offset inside the pair of a middle line.
const MIDDLE: u64 = 1501;

pub fn expect_one_line_asked<R: AllocGlobal + Abort>(
    rt: &R,
    model: &mut Model,
) -> Result<(), Fail> {
    let counts = ask_edit_and_ask(rt.alloc(), model)?;
    assert_eq!(rt; counts, (LINES, 1));
    Ok(())
}

/// Returns the number of lines that the first question asked for, and that the question after an edit asked for.
fn ask_edit_and_ask(alloc: Global, model: &mut Model) -> Result<(u64, u64), Fail> {
    let text = pairs(alloc)?;
    open(model, &text)?;
    let first = asked(model)?;
    let middle = Span {
        start: MIDDLE,
        end: MIDDLE,
    };
    put(alloc, model, middle, &[0x28, 0x29])?;
    Ok((first, asked(model)?))
}

/// Returns a text of `LINES` lines `()`.
fn pairs(alloc: Global) -> Result<Vec<u16>, AllocError> {
    let mut text = Vec::new(alloc);
    units_of("()", &mut text)?;
    for _ in 1..LINES {
        units_of("\n()", &mut text)?;
    }
    Ok(text)
}

/// Returns the number of lines that the parse for a question asked for.
fn asked(model: &mut Model) -> Result<u64, Fail> {
    model.level_at(Position { line: 1, column: 1 })?;
    Ok(model.parsed().map_or(0, |parsed| parsed.asked()))
}
