//! A script that is generated and read piece by piece.

ghost use Rattle.std.specs.Prelude.{◌≡◌, ◌+◌, ◌*◌, ◌<◌, ◌≤◌, ◌++◌, [], length, min, take};
ghost use Rattle.arrayvec.specs.ArrayVec.{array_vec_len};
ghost use Rattle.script_play.specs.declared.TheConstants.{MOST_LINES};
ghost use Rattle.script_play.specs.Script.{script, IsCount};

use crate::line::{Line, line_bytes};
use crate::play::Play;
use arrayvec::ArrayVec;
use script_streams::copy_front;

/// The current line, of which `given` bytes were read, and the state from which the `lines_left` lines after it are drawn.
#[derive(Drop)]
pub(crate) struct Supply {
    pub line: ArrayVec<u8, 128>,
    pub given: usize,
    pub lines_left: u32,
    pub play: Play,
    ghost within: { given ≤ array_vec_len line },
    ghost small: { play.units + 4 * lines_left ≤ 4 * MOST_LINES },
}

impl Supply {
    ghost use Rattle.script_play.specs.Supply.{left_of};

    pub(crate) fn new(count: u32, seed: u64) -> Supply
        requires { IsCount count }
        ensures { left_of result ≡ script count seed }
    {
        let play = Play {
            x: seed,
            units: 0,
            pending: false,
        };
        if count == 0 {
            return Supply {
                line: ArrayVec::new(),
                given: 0,
                lines_left: 0,
                play,
            };
        }
        Supply {
            line: line_bytes(&Line::Open),
            given: 0,
            lines_left: count - 1,
            play,
        }
    }

    /// Copies the next bytes of the script into the buffer and returns their number. It is less than the length of the buffer only
    /// at the end of the script.
    pub(crate) fn give(&mut self, buf: &mut [u8]) -> usize
        ensures within { result ≤ length buf.new }
        ensures given { left_of self.old ≡ take result buf.new ++ left_of self.new }
        ensures all { result < length buf.new → left_of self.new ≡ [] }
    {
        let mut count = 0;
        while count < buf.len() {
            let more = self.give_some(&mut buf[count..]);
            if more == 0 {
                return count;
            }
            count += more;
        }
        count
    }

    /// Copies some of the next bytes into the buffer and returns their number. It is 0 only for an empty buffer or at the end of the
    /// script.
    fn give_some(&mut self, buf: &mut [u8]) -> usize
        ensures within { result ≤ length buf.new }
        ensures given { left_of self.old ≡ take result buf.new ++ left_of self.new }
        ensures end { result ≡ 0 → 0 < length buf.new → left_of self.new ≡ [] }
    {
        self.refill();
        let count = copy_front(&self.line.as_slice()[self.given..], buf);
        self.given += count;
        count
    }

    /// Draws the next line, if the current one was read to its end and lines are left.
    fn refill(&mut self)
        ensures left { left_of self.new ≡ left_of self.old }
        ensures end { self.new.given ≡ array_vec_len self.new.line → self.new.lines_left ≡ 0 }
    {
        if self.given < self.line.len() || self.lines_left == 0 {
            return;
        }
        let line = self.play.next_line();
        self.line = line_bytes(&line);
        self.given = 0;
        self.lines_left -= 1;
    }
}
