//! The document as a library. One function owns it throughout, since dropping a document is expensive to prove.

use super::asked::expect_one_line_asked;
use super::documents::{open, put};
use super::mirrors::expect_a_mirror_that_follows;
use super::prepared::expect_a_change_in_two_parts;
use super::rewritten::{expect_small_buffers, expect_the_plain_text};
use model_core::{Kind, Model, ModelError, Op};
use std::alloc::{AllocError, Global};
use std::process::Abort;
use std::test::Fail;
use text_lengths::Span;
use unit_text::{Units, units_of, utf8_of};

#[test]
fn a_document_as_a_library(rt: HostRuntime) -> Result<(), Fail> {
    expect_each(&rt)
}

fn expect_each<R: AllocGlobal + Abort>(rt: &R) -> Result<(), Fail> {
    let mut model = Model::new(rt.alloc());
    expect_each_of(rt, &mut model)
}

fn expect_each_of<R: AllocGlobal + Abort>(rt: &R, model: &mut Model) -> Result<(), Fail> {
    expect_single_edits(rt, model)?;
    expect_a_batch(rt, model)?;
    expect_one_line_asked(rt, model)?;
    expect_a_change_in_two_parts(rt, model)?;
    expect_the_plain_text(rt, model)?;
    expect_small_buffers(rt, model)?;
    expect_a_mirror_that_follows(rt, model)
}

/// The example of CONTRIBUTING.md.
fn expect_a_batch<R: AllocGlobal + Abort>(rt: &R, model: &mut Model) -> Result<(), Fail> {
    let shown = edit_by_a_batch(rt.alloc(), model)?;
    assert_eq!(rt; shown.as_slice(), b"aXd".as_slice());
    Ok(())
}

/// Inserts `abc`, deletes `b`, replaces `a` by `XY` and each `Y` by `Z`. The change of line endings has no effect here.
fn expect_single_edits<R: AllocGlobal + Abort>(rt: &R, model: &mut Model) -> Result<(), Fail> {
    let shown = edit_by_single_edits(rt.alloc(), model)?;
    assert_eq!(rt; shown.as_slice(), b"XZc".as_slice());
    Ok(())
}

fn edit_by_a_batch(alloc: Global, model: &mut Model) -> Result<Vec<u8>, Fail> {
    let mut text = Vec::new(alloc);
    units_of("ab\ncd", &mut text)?;
    open(model, &text)?;
    edit(alloc, model)?;
    Ok(first_line(alloc, model)?)
}

fn edit_by_single_edits(alloc: Global, model: &mut Model) -> Result<Vec<u8>, Fail> {
    put(alloc, model, Span { start: 0, end: 0 }, &[0x61, 0x62, 0x63])?;
    put(alloc, model, Span { start: 1, end: 2 }, &[])?;
    put(alloc, model, Span { start: 0, end: 1 }, &[0x58, 0x59])?;
    replace_each_y(model)?;
    model.set_eol(Kind::Lf)?;
    Ok(first_line(alloc, model)?)
}

fn replace_each_y(model: &mut Model) -> Result<bool, ModelError> {
    model.replace_all(&[0x59], &[0x5A])
}

fn edit(alloc: Global, model: &mut Model) -> Result<(), Fail> {
    let op = Op {
        span: Span { start: 1, end: 4 },
        text: Units::copy_of(alloc, &[0x58])?,
        force: false,
    };
    model.edit(vec![in alloc; op]?)?;
    Ok(())
}

fn first_line(alloc: Global, model: &Model) -> Result<Vec<u8>, Fail> {
    let mut line = Vec::new(alloc);
    model.line(1, &mut line)?;
    Ok(shown(alloc, &line)?)
}

fn shown(alloc: Global, units: &[u16]) -> Result<Vec<u8>, AllocError> {
    let mut shown = Vec::new(alloc);
    utf8_of(units, &mut shown)?;
    Ok(shown)
}
