//! Looks up the pieces that edits will need, each once.

ghost use Rattle.std.specs.Prelude.{IfSome};
ghost use Rattle.std.specs.List.{All};
ghost use Rattle.piece_tree.specs.Pieces.{IsFound};
ghost use Rattle.text_buffer.specs.LookUps.{Has, IsThere};

use crate::look_up::{Sought, beside, piece_near};
use crate::remembered::Remembered;
use piece_tree::{Found, PieceTree};
use text_lengths::Span;
use text_rules::Op;

/// A line is followed through at most this many pieces. The end of a longer line is found by a search.
const MOST_FOLLOWED: usize = 8;

/// At most this many pieces are kept from one edit to the look-ups of lines for the next.
const MOST_LEFT: usize = 8;

/// Remembers the pieces at the ends of the ops' spans, in addition to those located before. If memory is short, it adds none of them.
pub(crate) fn look_up_all(pieces: &PieceTree, ops: &[Op], remembered: &mut Remembered)
    requires { All (IsFound pieces.now.entries) remembered.old }
    ensures { All (IsFound pieces.now.entries) remembered.new }
{
    // The next edit may be where the last one was.
    let near = remembered.last();
    remembered.forget_left(0);
    if remembered.make_room(ops.len().saturating_mul(2)).is_err() {
        return;
    }
    // Located pieces may be in any order.
    remembered.settle();
    for op in ops {
        look_up_ends(pieces, &near, op.span, remembered);
    }
    remembered.settle();
}

/// Looks up the pieces at both ends of a span, unless its start is above its end.
fn look_up_ends(pieces: &PieceTree, other: &Option<Found>, span: Span, remembered: &mut Remembered)
    requires other { IfSome other.now (IsFound pieces.now.entries) }
    requires remembered { All (IsFound pieces.now.entries) remembered.old }
    ensures { All (IsFound pieces.now.entries) remembered.new }
{
    if span.start <= span.end {
        look_up_unit(pieces, other, span.start, remembered);
        look_up_unit(pieces, other, span.end, remembered);
    }
}

/// Remembers the piece of the unit at this offset, if there is one.
pub(crate) fn look_up_unit(
    pieces: &PieceTree,
    other: &Option<Found>,
    offset: u64,
    remembered: &mut Remembered,
)
    requires other { IfSome other.now (IsFound pieces.now.entries) }
    requires remembered { All (IsFound pieces.now.entries) remembered.old }
    ensures { All (IsFound pieces.now.entries) remembered.new }
{
    if offset < pieces.len() {
        look_up(pieces, other, Sought::Offset(offset), remembered);
    }
}

/// Remembers the pieces of a line, counted from 1, from the piece of the break before it to that of its own break. Does so only if the line
/// exists and the pieces are few.
pub(crate) fn look_up_line(pieces: &PieceTree, line: u64, remembered: &mut Remembered)
    requires { All (IsFound pieces.now.entries) remembered.old }
    ensures { All (IsFound pieces.now.entries) remembered.new }
{
    let near = remembered.last();
    remembered.forget_left(MOST_LEFT);
    if 1 < line && line - 1 <= pieces.breaks() {
        let first = look_up(pieces, &near, Sought::Break(line - 1), remembered);
        follow_line(pieces, first, line, remembered);
    } else if line == 1 && 0 < pieces.len() {
        let first = look_up(pieces, &near, Sought::Offset(0), remembered);
        follow_line(pieces, first, line, remembered);
    }
}

// Remembers the pieces after this one that are part of the line, if they are few.
fn follow_line(pieces: &PieceTree, first: Found, line: u64, remembered: &mut Remembered)
    requires first { IsFound pieces.now.entries first }
    requires remembered { All (IsFound pieces.now.entries) remembered.old }
    ensures { All (IsFound pieces.now.entries) remembered.new }
{
    let mut found = first;
    for _ in 0..MOST_FOLLOWED {
        let end = Sought::Break(line);
        if end.is_in(&found) {
            return;
        }
        let Some(next) = beside(pieces, &found, end) else {
            return;
        };
        remembered.note(&next);
        found = next;
    }
}

// Returns the piece that has what is sought, and remembers it. Searches near the last remembered piece, or else near `other`.
fn look_up(
    pieces: &PieceTree,
    other: &Option<Found>,
    sought: Sought,
    remembered: &mut Remembered,
) -> Found
    requires there { IsThere pieces.now.entries sought }
    requires other { IfSome other.now (IsFound pieces.now.entries) }
    requires remembered { All (IsFound pieces.now.entries) remembered.old }
    ensures found { Has pieces.now.entries result sought }
    ensures remembered { All (IsFound pieces.now.entries) remembered.new }
{
    if let Some(found) = remembered.find(sought) {
        return found;
    }
    let near = remembered.last().or(*other);
    let found = piece_near(pieces, &near, sought);
    remembered.add(&found);
    found
}
