//! The spans of an edited text, the lines that an edit touches, and a text in a buffer of just sufficient capacity.

use chunk_buffers::Chunks;
use std::alloc::{AllocError, Global};
use std::test::Fail;
use text_buffer::{Need, TextBuffer};
use text_lengths::{Dirty, Position, Span};
use unit_text::Kind;

const A: u16 = 0x61;

const B: u16 = 0x62;

const X: u16 = 0x58;

/// An edit brings a CR and an LF together.
#[test]
fn spans_of_an_edited_text(rt: HostRuntime) -> Result<(), Fail> {
    let units = units_without_x(rt.alloc())?;
    assert_eq!(rt; units.as_slice(), [A, 13, 10, B].as_slice());
    Ok(())
}

fn units_without_x(alloc: Global) -> Result<Vec<u16>, AllocError> {
    let mut text = TextBuffer::of_units(alloc, &[A, 13, X, 10, B], Kind::Mixed)?;
    text.reserve(Need {
        edits: 1,
        units: 0,
        breaks: 0,
    })?;
    text.replace(Span { start: 2, end: 3 }, &[]);
    units_by_spans(alloc, &text)
}

fn units_by_spans(alloc: Global, text: &TextBuffer) -> Result<Vec<u16>, AllocError> {
    let mut spans = Vec::new(alloc);
    text.spans(&mut spans)?;
    let mut units = Vec::new(alloc);
    for span in spans.iter() {
        units.extend_from_slice(text.chunks().units(*span))?;
    }
    Ok(units)
}

/// An LF is inserted after a CR that was a break alone.
#[test]
fn lines_that_an_edit_touches(rt: HostRuntime) -> Result<(), Fail> {
    let text = TextBuffer::of_units(rt.alloc(), &[A, 13, B], Kind::Mixed)?;
    let dirty = text.dirty_lines(Span { start: 2, end: 2 }, &[10]);
    let touched = Dirty {
        first: 1,
        old: 2,
        new: 2,
    };
    assert_eq!(rt; dirty, touched);
    Ok(())
}

/// A CR, followed by a CR LF.
#[test]
fn text_with_just_the_room_for_its_breaks(rt: HostRuntime) -> Result<(), Fail> {
    let mut chunks = Chunks::new(rt.alloc());
    chunks.reserve(4, 2)?;
    let (span, breaks) = chunks.append_joined(&[13], &[13, 10], &[]);
    assert_eq!(rt; breaks, 2);
    assert_eq!(rt; chunks.breaks(span), 2);
    assert_eq!(rt; chunks.units(span), [13, 13, 10].as_slice());
    Ok(())
}

/// Buffers longer and shorter than the rest of the text.
#[test]
fn units_read_into_a_buffer(rt: HostRuntime) -> Result<(), Fail> {
    let text = TextBuffer::of_units(rt.alloc(), &[A, B, X], Kind::Mixed)?;
    let mut out = [0; 4];
    assert_eq!(rt; text.read_into(1, &mut out), 2);
    assert_eq!(rt; out.as_slice(), [B, X, 0, 0].as_slice());
    assert_eq!(rt; text.read_into(0, &mut out[..2]), 2);
    assert_eq!(rt; out.as_slice(), [A, B, 0, 0].as_slice());
    Ok(())
}

/// Begins with the last position; one of the positions is past the content of its line.
#[test]
fn positions_located(rt: HostRuntime) -> Result<(), Fail> {
    let mut text = TextBuffer::of_units(rt.alloc(), &[A, 13, 10, B, X], Kind::Mixed)?;
    assert_eq!(rt; text.locate(Position { line: 2, column: 3 }), Some(5));
    assert_eq!(rt; text.locate(Position { line: 1, column: 2 }), Some(1));
    assert_eq!(rt; text.locate(Position { line: 1, column: 3 }), None);
    Ok(())
}
