//! Replies to questions about brackets, computed from a tree.

use bracket_nodes::{Entry, Node, Status};
use script_lines::{Short, long_begin, long_end, long_mark, long_number};
use std::alloc::{AllocError, Global};
use text_lengths::{Length, Position};

/// Appends the reply with the brackets of the lines, which count from 1.
pub fn push_brackets(
    alloc: Global,
    tree: &Node,
    from: u64,
    to: u64,
    out: &mut Vec<u8>,
) -> Result<(), AllocError> {
    let mut entries = Vec::new(alloc);
    tree.entries(from.saturating_sub(1), to.saturating_sub(1), &mut entries)?;
    long_begin(out)?;
    for entry in entries.iter() {
        push_entry(entry, out)?;
    }
    long_end(out)
}

fn push_entry(entry: &Entry, out: &mut Vec<u8>) -> Result<(), AllocError> {
    push_place(entry.place, out)?;
    long_number(entry.len, out)?;
    long_number(entry.kind, out)?;
    long_mark(letter(entry.status), out)?;
    long_number(entry.level, out)
}

fn letter(status: Status) -> u8 {
    match status {
        Status::PairedOpening => b'o',
        Status::PairedClosing => b'c',
        Status::Unclosed => b'u',
        Status::Unexpected => b'x',
    }
}

/// Appends the reply with the place and the width of the other bracket of a pair.
pub fn push_partner(tree: &Node, position: Position, out: &mut Vec<u8>) -> Result<(), AllocError> {
    let Some((place, width)) = tree.partner_of(place_of(position)) else {
        return out.extend_from_slice(Short::none().as_slice());
    };
    long_begin(out)?;
    push_place(place, out)?;
    long_number(width, out)?;
    long_end(out)
}

/// Appends the reply with the number of brackets open at the position.
pub fn push_level(tree: &Node, position: Position, out: &mut Vec<u8>) -> Result<(), AllocError> {
    long_begin(out)?;
    long_number(tree.level_at(place_of(position)), out)?;
    long_end(out)
}

/// Returns the place in a tree, where lines and columns count from 0.
fn place_of(position: Position) -> Length {
    Length {
        lines: position.line.saturating_sub(1),
        columns: position.column.saturating_sub(1),
    }
}

fn push_place(place: Length, out: &mut Vec<u8>) -> Result<(), AllocError> {
    long_number(place.lines.saturating_add(1), out)?;
    long_number(place.columns.saturating_add(1), out)
}
