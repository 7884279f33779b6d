//! The random choice of the lines of a script.

ghost use Rattle.std.specs.Prelude.{◌≡◌, ◌+◌, ◌^◌, ◌<◌, ◌≤◌};
ghost use Rattle.script_play.specs.Draws.{next, drawn};
ghost use Rattle.script_play.specs.Script.{drawn_span, edit_line, decorate_line, chosen_line, next_line};

use crate::line::{Line, units_of};
use crate::{INCREMENT, MULTIPLIER};

/// The state that determines the next lines of a script.
#[derive(Clone, Copy, Debug)]
pub(crate) struct Play {
    /// The state of the random number generator.
    pub x: u64,
    /// The number of units of the text.
    pub units: u32,
    /// Whether the next line is a redo.
    pub pending: bool,
}

impl Play {
    pub(crate) fn next_line(&mut self) -> Line
        requires { self.old.units < 2 ^ 26 }
        ensures line { result ≡ (next_line self.old).0 }
        ensures play { self.new ≡ (next_line self.old).1 }
        ensures units { self.new.units ≤ self.old.units + 4 }
    {
        if self.pending {
            self.pending = false;
            return Line::Redo;
        }
        let choice = self.draw(16);
        self.chosen_line(choice)
    }

    fn chosen_line(&mut self, choice: u32) -> Line
        requires { self.old.units < 2 ^ 26 }
        ensures line { result ≡ (chosen_line choice self.old).0 }
        ensures play { self.new ≡ (chosen_line choice self.old).1 }
        ensures units { self.new.units ≤ self.old.units + 4 }
    {
        match choice {
            0..=7 => self.edit_line(),
            8 => {
                self.pending = true;
                Line::Undo
            }
            9 => Line::Stop,
            10 => self.decorate_line(),
            11 => Line::Position {
                offset: self.draw_offset(),
            },
            12 => Line::Level,
            13 => Line::Brackets,
            14 => Line::Decos {
                at: self.draw_offset(),
            },
            _ => Line::Size,
        }
    }

    fn edit_line(&mut self) -> Line
        requires { self.old.units < 2 ^ 26 }
        ensures line { result ≡ (edit_line self.old).0 }
        ensures play { self.new ≡ (edit_line self.old).1 }
        ensures units { self.new.units ≤ self.old.units + 4 }
    {
        let (start, removed) = self.draw_span(4);
        let text = self.draw(8);
        self.units = self.units - removed + units_of(text);
        Line::Edit {
            start,
            end: start + removed,
            text,
        }
    }

    fn decorate_line(&mut self) -> Line
        requires { self.old.units < 2 ^ 26 }
        ensures line { result ≡ (decorate_line self.old).0 }
        ensures play { self.new ≡ (decorate_line self.old).1 }
    {
        let (start, taken) = self.draw_span(8);
        let stick = self.draw(4);
        Line::Decorate {
            start,
            end: start + taken,
            stick,
        }
    }

    /// Draws the start and the length of a span of the text. The length is less than `below`.
    fn draw_span(&mut self, below: u32) -> (u32, u32)
        requires units { self.old.units < 2 ^ 26 }
        requires some { 0 < below }
        ensures span { result ≡ drawn_span below self.old }
        ensures within { result.0 + result.1 ≤ self.old.units }
        ensures play { self.new ≡ record self.old { x = next (next self.old.x) } }
    {
        let start = self.draw_offset();
        let count = self.draw(below).min(self.units - start);
        (start, count)
    }

    /// Draws an offset of the text, its end included.
    fn draw_offset(&mut self) -> u32
        requires { self.old.units < 2 ^ 26 }
        ensures offset { result ≡ drawn (next self.old.x) (self.old.units + 1) }
        ensures within { result ≤ self.old.units }
        ensures play { self.new ≡ record self.old { x = next self.old.x } }
    {
        self.draw(self.units + 1)
    }

    /// Draws a number less than `below`, which is at least 1.
    fn draw(&mut self, below: u32) -> u32
        requires { 0 < below }
        ensures number { result ≡ drawn (next self.old.x) below }
        ensures within { result < below }
        ensures play { self.new ≡ record self.old { x = next self.old.x } }
    {
        self.x = next(self.x);
        ((self.x >> 33) % u64::from(below)) as u32
    }
}

/// Returns the state of the random number generator after a draw.
fn next(x: u64) -> u64
    ensures { result ≡ next x }
{
    x.wrapping_mul(MULTIPLIER).wrapping_add(INCREMENT)
}
