//! The line endings in which the two texts of a recast differ, from the last line back.

ghost use Rattle.std.specs.Prelude.{◌≡◌, ◌+◌, ◌<◌, ◌≤◌, [], ◌∷◌, ◌++◌, length, IfSome};
ghost use Rattle.std.specs.Option.{ForNone};
ghost use Rattle.decoration_rules.specs.LineMoves.{line_moves, HaveSameContents};
ghost use Rattle.text_rules.specs.Lines.{lines_of};
ghost use Rattle.model_page.specs.declared.change.Change.TheVariants.{Endings};
ghost use Rattle.model_page.specs.Changes.{text_from};
ghost use Rattle.model_page.specs.InTurn.{told_op, told, starts_at, ending_span, endings_of_first, edits_of_first, IsWithin};

use crate::change::Way;
use crate::in_turn::ContentChange;
use crate::placed::PlacedRecast;
use decoration_rules::LineMove;
use text_lengths::Span;

/// Finds the last of the first `left` lines whose ending differs. Returns how many lines are before it, and the edit of its ending. None if
/// no ending differs. Copies no text.
pub(crate) fn last_ending<'c>(
    recast: &'c PlacedRecast,
    way: Way,
    left: usize,
) -> Option<(usize, ContentChange<'c>)>
    requires { left ≤ length (lines_of (text_from way recast.now).units) }
    ensures told { IfSome result (λ found. edits_of_first left way (Endings recast.now)
        ≡ told_op found.1 ∷ edits_of_first found.0 way (Endings recast.now)) }
    ensures none { ForNone result (edits_of_first left way (Endings recast.now) ≡ []) }
    ensures before { IfSome result (λ found. found.0 < left) }
{
    let from = recast.side(way.other()).units();
    let to = recast.side(way);
    for at in (0..left).rev() {
        if let Some(edit) = ending_at(from, to.units(), to.moves(), at) {
            return Some((at, edit));
        }
    }
    None
}

// Returns the edit of the ending of line `at`, from 0; None if both texts have the same ending there.
fn ending_at<'c>(
    from: &[u16],
    to: &'c [u16],
    moves: &[LineMove],
    at: usize,
) -> Option<ContentChange<'c>>
    requires contents { HaveSameContents from.now to.now }
    requires moves { moves.now ≡ line_moves from.now to.now }
    requires inside { at < length moves.now }
    ensures { endings_of_first (at + 1) from.now to.now
        ≡ told result ++ endings_of_first at from.now to.now }
{
    let (span, new) = endings_of(from, to, moves, at);
    let old = &from[span.start as usize..span.end as usize];
    let text = &to[new.start as usize..new.end as usize];
    if old == text {
        return None;
    }
    Some(ContentChange { span, text })
}

// Returns the spans of the ending of line `at` in the two texts.
fn endings_of(from: &[u16], to: &[u16], moves: &[LineMove], at: usize) -> (Span, Span)
    requires contents { HaveSameContents from.now to.now }
    requires moves { moves.now ≡ line_moves from.now to.now }
    requires inside { at < length moves.now }
    ensures old { result.0 ≡ ending_span at from.now }
    ensures new { result.1 ≡ ending_span at to.now }
    ensures old_within { IsWithin from.now result.0 }
    ensures new_within { IsWithin to.now result.1 }
{
    let line = moves[at];
    let (old_end, new_end) = starts_of(from, to, moves, at + 1);
    let old = Span {
        start: line.old + line.content,
        end: old_end,
    };
    let new = Span {
        start: line.new + line.content,
        end: new_end,
    };
    (old, new)
}

// Returns the offsets at which line `at` starts in the two texts. After the last line these are their lengths.
fn starts_of(from: &[u16], to: &[u16], moves: &[LineMove], at: usize) -> (u64, u64)
    requires contents { HaveSameContents from.now to.now }
    requires moves { moves.now ≡ line_moves from.now to.now }
    ensures old { result.0 ≡ starts_at at from.now }
    ensures new { result.1 ≡ starts_at at to.now }
{
    match moves.get(at) {
        Some(line) => (line.old, line.new),
        None => (from.len() as u64, to.len() as u64),
    }
}
