//! Carries spans along with their lines.
ghost use Rattle.std.specs.Prelude.{◌≡◌, ◌≤◌, ◌<◌};
ghost use Rattle.decoration_rules.specs.Moves.{offset_limit};
ghost use Rattle.decoration_rules.specs.Lines.{AreLineMoves, carried_place, carried_span};
ghost use Rattle.interval_deltas.specs.Lines.{HasStarted, IsLineAt};

use decoration_rules::LineMove;
use std::marker::Model;
use text_lengths::Span;

/// The old and new starts of lines, and the line of the last look-up.
#[derive(Drop)]
pub(crate) struct Lines<'a> {
    moves: &'a [LineMove],
    /// The index of the line in which the last span started; 0 at first.
    last: usize,
}

impl<'a> Model for Lines<'a> {
    ghost use Rattle.std.specs.Prelude.{◌<◌, List, length};
    ghost use Rattle.decoration_rules.specs.declared.LineMove.{LineMove};
    ghost use Rattle.decoration_rules.specs.Lines.{AreLineMoves};

    ghost Value = { List LineMove };

    ghost view = { λ l. l.moves.now };

    ghost invariant = { λ l. AreLineMoves l.moves.now × (l.last < length l.moves.now) };
}

impl<'a> Lines<'a> {
    pub(crate) fn new(moves: &'a [LineMove]) -> Lines<'a>
        requires { AreLineMoves moves.now }
        ensures { result ≡ moves.now }
    {
        Lines { moves, last: 0 }
    }

    /// Returns the new position of a span. If the span starts in the line in which the last one started, or after it,
    /// no earlier line is read.
    pub(crate) fn carried(&mut self, span: Span) -> Span
        requires { span.start ≤ span.end }
        ensures span { result ≡ carried_span self.old span }
        ensures upright { result.start ≤ result.end }
        ensures fits { result.end < offset_limit }
        ensures same { self.new ≡ self.old }
    {
        let from = self.started_by(span.start);
        let first = line_from(self.moves, from, span.start);
        self.last = first;
        let last = far_line_from(self.moves, first, span.end);
        Span {
            start: carried(self.moves, first, span.start),
            end: carried(self.moves, last, span.end),
        }
    }

    /// Returns the index of a line that starts at `place` or earlier: the line in which the last span started, or 0.
    fn started_by(&self, place: u64) -> usize
        ensures { HasStarted self.now place result }
    {
        if self.moves[self.last].old <= place {
            self.last
        } else {
            0
        }
    }
}

/// Finds the line of a place by a linear search from the line `from`, which starts at the place or earlier.
fn line_from(moves: &[LineMove], from: usize, place: u64) -> usize
    requires lines { AreLineMoves moves.now }
    requires from { HasStarted moves.now place from }
    ensures { IsLineAt moves.now place result }
{
    for next in from + 1..moves.len() {
        if place < moves[next].old {
            return next - 1;
        }
    }
    moves.len() - 1
}

/// Finds the line of a place by a binary search from the line `from`, which starts at the place or earlier.
fn far_line_from(moves: &[LineMove], from: usize, place: u64) -> usize
    requires lines { AreLineMoves moves.now }
    requires from { HasStarted moves.now place from }
    ensures { IsLineAt moves.now place result }
{
    from + moves[from + 1..].partition_point(|line| line.old <= place)
}

/// Returns the new position of a place in the line `at`. A place after the content of the line goes to its end.
fn carried(moves: &[LineMove], at: usize, place: u64) -> u64
    requires lines { AreLineMoves moves.now }
    requires line { IsLineAt moves.now place at }
    ensures { result ≡ carried_place moves.now place }
{
    let line = &moves[at];
    line.new + line.content.min(place - line.old)
}
