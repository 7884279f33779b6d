//! Puts texts into the buffers, or reuses them where they were put before.

ghost use Rattle.std.specs.Prelude.{◌≡◌, ◌+◌, ◌<◌, ◌≤◌, ◌++◌, None, length, IfSome};
ghost use Rattle.std.specs.Option.{ForSome};
ghost use Rattle.chunk_buffers.specs.Chunks.{Extends, most_appended, unit_count};
ghost use Rattle.line_starts.specs.Starts.{break_count};
ghost use Rattle.piece_tree.specs.Pieces.{span_of, IsPieceOf};
ghost use Rattle.text_buffer.specs.Again.{AreLast};
ghost use Rattle.text_buffer.specs.Text.{IsAdded};

use chunk_buffers::{ChunkSpan, Chunks};
use piece_tree::{Piece, piece_of};

/// Makes one piece of the three texts; None if they are empty. Appends them, unless only `text` has units and it is already at `place`.
/// Sets `place` to where the text is now.
pub(crate) fn put_some(
    chunks: &mut Chunks,
    before: &[u16],
    text: &[u16],
    after: &[u16],
    place: &mut Option<ChunkSpan>,
) -> Option<Piece>
    requires room { length (before.now ++ text.now ++ after.now) < chunks.old.spare }
    requires short { length (before.now ++ text.now ++ after.now) < most_appended }
    requires breaks { break_count (before.now ++ text.now ++ after.now)
        ≤ chunks.old.spare_breaks }
    ensures added { IsAdded chunks.new.buffers (span_of result)
        (before.now ++ text.now ++ after.now) }
    ensures counted { ForSome result (IsPieceOf chunks.new.buffers) }
    ensures grown { Extends chunks.old.buffers chunks.new.buffers }
    ensures units { unit_count chunks.new.buffers
        ≤ unit_count chunks.old.buffers + length (before.now ++ text.now ++ after.now) + 1 }
    ensures spare { chunks.old.spare
        ≤ chunks.new.spare + length (before.now ++ text.now ++ after.now) + 1 }
    ensures spare_breaks { chunks.old.spare_breaks
        ≤ chunks.new.spare_breaks + break_count (before.now ++ text.now ++ after.now) }
    ensures last { place.old ≡ None → AreLast chunks.old chunks.new
        (span_of result) (before.now ++ text.now ++ after.now) }
{
    let there = if before.is_empty() && after.is_empty() {
        piece_there(chunks, text, place)
    } else {
        None
    };
    if there.is_some() {
        return there;
    }
    let added = append_some(chunks, before, text, after);
    *place = place_in(added, before.len(), text.len());
    added
}

// Returns the piece of the text at `place` if the text is there.
fn piece_there(chunks: &Chunks, text: &[u16], place: &Option<ChunkSpan>) -> Option<Piece>
    ensures none { place.now ≡ None → result ≡ None }
    ensures counted { ForSome result (IsPieceOf chunks.now.buffers) }
    ensures shown { IfSome (span_of result)
        (λ span. IsAdded chunks.now.buffers (Some span) text.now) }
{
    let span = (*place)?;
    if text.is_empty() || !chunks.has(span) {
        return None;
    }
    if chunks.units(span) != text {
        return None;
    }
    Some(piece_of(chunks, span))
}

// Returns the span of the text in the piece, behind `before` units.
fn place_in(piece: Option<Piece>, before: usize, units: usize) -> Option<ChunkSpan> {
    let whole = piece?.span;
    let start = whole.start.checked_add(u32::try_from(before).ok()?)?;
    Some(ChunkSpan {
        buffer: whole.buffer,
        start,
        units: u32::try_from(units).ok()?,
    })
}

// Appends the three texts and returns their piece; None if they are empty.
fn append_some(chunks: &mut Chunks, before: &[u16], text: &[u16], after: &[u16]) -> Option<Piece>
    requires room { length (before.now ++ text.now ++ after.now) < chunks.old.spare }
    requires short { length (before.now ++ text.now ++ after.now) < most_appended }
    requires breaks { break_count (before.now ++ text.now ++ after.now)
        ≤ chunks.old.spare_breaks }
    ensures added { IsAdded chunks.new.buffers (span_of result)
        (before.now ++ text.now ++ after.now) }
    ensures counted { ForSome result (IsPieceOf chunks.new.buffers) }
    ensures grown { Extends chunks.old.buffers chunks.new.buffers }
    ensures units { unit_count chunks.new.buffers
        ≤ unit_count chunks.old.buffers + length (before.now ++ text.now ++ after.now) + 1 }
    ensures spare { chunks.old.spare
        ≤ chunks.new.spare + length (before.now ++ text.now ++ after.now) + 1 }
    ensures spare_breaks { chunks.old.spare_breaks
        ≤ chunks.new.spare_breaks + break_count (before.now ++ text.now ++ after.now) }
    ensures last { AreLast chunks.old chunks.new
        (span_of result) (before.now ++ text.now ++ after.now) }
{
    if before.is_empty() && text.is_empty() && after.is_empty() {
        return None;
    }
    let (span, breaks) = chunks.append_joined(before, text, after);
    Some(Piece { span, breaks })
}
