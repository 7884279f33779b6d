//! The move of a decoration under an edit.

ghost use Rattle.std.specs.Prelude.{◌≡◌, ◌<◌, ◌≤◌, ◌==◌, ◌&&◌, ◌||◌, nat_lt};
ghost use Rattle.decoration_rules.specs.Moves.{offset_limit, start_sticks, end_sticks, moved_offset, moved};

use decoration_rules::{Edit, Mark, Sticky};
use text_lengths::Span;

/// Returns the span of a decoration after the edit.
pub fn moved(span: Span, sticky: Sticky, collapse: bool, edit: &Edit) -> Span
    requires upright { edit.now.start ≤ edit.now.end }
    requires fits { (moved span sticky collapse edit.now).end < offset_limit }
    ensures { result ≡ moved span sticky collapse edit.now }
{
    if collapse && edit.start <= span.start && span.end <= edit.end {
        return Span {
            start: edit.start,
            end: edit.start,
        };
    }
    let start = moved_offset(start_sticks(sticky), span.start, edit);
    let end = moved_offset(end_sticks(sticky), span.end, edit);
    Span {
        start,
        end: start.max(end),
    }
}

/// Returns whether the start of a decoration sticks to the text before it.
fn start_sticks(sticky: Sticky) -> bool
    ensures { result ≡ start_sticks sticky }
{
    match sticky {
        Sticky::AlwaysGrows | Sticky::GrowsBefore => true,
        Sticky::NeverGrows | Sticky::GrowsAfter => false,
    }
}

/// Returns whether the end of a decoration sticks to the text before it.
fn end_sticks(sticky: Sticky) -> bool
    ensures { result ≡ end_sticks sticky }
{
    match sticky {
        Sticky::NeverGrows | Sticky::GrowsBefore => true,
        Sticky::AlwaysGrows | Sticky::GrowsAfter => false,
    }
}

/// Returns the offset of a start or an end after the edit; `sticks` says whether it sticks to the text before it.
fn moved_offset(sticks: bool, offset: u64, edit: &Edit) -> u64
    requires upright { edit.now.start ≤ edit.now.end }
    requires fits { moved_offset sticks offset edit.now < offset_limit }
    ensures { result ≡ moved_offset sticks offset edit.now }
{
    let removed = edit.end - edit.start;
    let replaced = removed.min(edit.units);
    if stays_before(offset, edit.start, !edit.force && (removed > 0 || sticks)) {
        return offset;
    }
    let stays = edit.units < removed || sticks;
    if replaced > 0 && !edit.force && stays_before(offset, edit.start + replaced, stays) {
        return offset;
    }
    if stays_before(offset, edit.end, !edit.force && sticks) {
        return edit.start + edit.units;
    }
    offset - removed + edit.units
}

/// Returns whether the offset is before the place, or at the place if `stays` is set.
fn stays_before(offset: u64, place: u64, stays: bool) -> bool
    ensures { result ≡ (nat_lt offset place || (offset == place && stays)) }
{
    offset < place || (offset == place && stays)
}
