//! The moves of the lines between two texts with the same line contents.

ghost use Rattle.std.specs.Prelude.{◌≡◌, ◌+◌, ◌≤◌, [], IfOk, drop, length, map};
ghost use Rattle.decoration_rules.specs.LineMoves.{line_moves, turned, HaveSameContents};
ghost use Rattle.recasts.specs.FirstLine.{first_line};

use decoration_rules::LineMove;
use std::alloc::{AllocError, Global};
use unit_text::{CARRIAGE_RETURN, LINE_FEED};

/// Returns the moves of the lines from one text to the other, in one pass over both.
pub(crate) fn line_moves(
    alloc: Global,
    from: &[u16],
    to: &[u16],
) -> Result<Vec<LineMove>, AllocError>
    requires { HaveSameContents from.now to.now }
    ensures { IfOk result (λ moves. moves.items ≡ line_moves from.now to.now) }
{
    let mut moves = Vec::new(alloc);
    let mut old = 0;
    let mut new = 0;
    loop {
        let content = content_len(from, old);
        moves.push(LineMove {
            old: old as u64,
            content: content as u64,
            new: new as u64,
        })?;
        let ending = ending_len(from, old + content);
        if ending == 0 {
            return Ok(moves);
        }
        old += content + ending;
        new += content;
        new += ending_len(to, new);
    }
}

// Returns the number of units of the line that starts at `start`, without its line ending.
fn content_len(units: &[u16], start: usize) -> usize
    requires { start ≤ length units.now }
    ensures content { result ≡ length (first_line (drop start units.now)).content }
    ensures within { start + result ≤ length units.now }
{
    let (_, rest) = units.split_at(start);
    let end = rest
        .iter()
        .position(|unit| *unit == CARRIAGE_RETURN || *unit == LINE_FEED);
    end.unwrap_or(rest.len())
}

// Returns the number of units of the line ending at `start`; 0 at the end of the text.
fn ending_len(units: &[u16], start: usize) -> usize
    requires within { start ≤ length units.now }
    requires empty { (first_line (drop start units.now)).content ≡ [] }
    ensures ending { result ≡ length (first_line (drop start units.now)).break }
    ensures within { start + result ≤ length units.now }
{
    let (_, rest) = units.split_at(start);
    if rest.starts_with(&[CARRIAGE_RETURN, LINE_FEED]) {
        2
    } else {
        rest.len().min(1)
    }
}

/// Returns the moves in the opposite direction.
pub(crate) fn turned(alloc: Global, moves: &[LineMove]) -> Result<Vec<LineMove>, AllocError>
    ensures { IfOk result (λ back. back.items ≡ map turned moves.now) }
{
    moves
        .iter()
        .map(|line| LineMove {
            old: line.new,
            content: line.content,
            new: line.old,
        })
        .collect(alloc)
}
