//! The line that is being read.

ghost use Rattle.std.specs.Prelude.{◌≡◌, ℕ, List, [], ◌++◌, nat_lt};
ghost use Rattle.session_rules.specs.Script.{most_line_bytes};
ghost use Rattle.script_runner.specs.Progress.{IsLineSoFar};

use sessions::{MOST_LINE_BYTES, is_blank};
use std::alloc::Global;

/// The part of a line that was read so far. Its bytes are kept up to the limit, unless memory is short.
#[derive(Drop)]
pub(crate) struct PartialLine {
    pub bytes: Vec<u8>,
    /// The number of bytes so far, at most one above the limit.
    pub len: usize,
    pub is_blank: bool,
    pub is_lost: bool,
}

impl PartialLine {
    pub fn new(alloc: Global) -> PartialLine
        ensures { IsLineSoFar result [] }
    {
        PartialLine {
            bytes: Vec::new(alloc),
            len: 0,
            is_blank: true,
            is_lost: false,
        }
    }

    /// Appends bytes of the line. There is no LF among them.
    pub fn extend(&mut self, bytes: &[u8])
        ensures { (line : List ℕ) → IsLineSoFar self.old line
            → IsLineSoFar self.new (line ++ bytes.now) }
    {
        self.is_blank = self.is_blank && is_blank(bytes);
        self.len = self
            .len
            .saturating_add(bytes.len())
            .min(MOST_LINE_BYTES + 1);
        if self.is_lost || self.len > MOST_LINE_BYTES {
            self.bytes.clear();
        } else if self.bytes.extend_from_slice(bytes).is_err() {
            self.is_lost = true;
        }
    }

    pub fn is_too_long(&self) -> bool
        ensures { result ≡ nat_lt most_line_bytes self.now.len }
    {
        self.len > MOST_LINE_BYTES
    }

    /// Begins the next line. Keeps the memory.
    pub fn clear(&mut self)
        ensures { IsLineSoFar self.new [] }
    {
        self.bytes.clear();
        self.len = 0;
        self.is_blank = true;
        self.is_lost = false;
    }
}
