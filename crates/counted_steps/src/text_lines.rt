//! A text as a list of its lines.

ghost use Rattle.std.specs.Prelude.{◌≡◌, ◌+◌, ◌≤◌, ◌<◌, ◌^◌, ◌++◌, ◌∷◌, [], All, length, IfOk, OnOk};
ghost use Rattle.reuse_rules.specs.Edits.{IsEdited};

use line_states::Lines;
use std::alloc::{AllocError, Global};
use steps::Trail;
use unit_text::Units;

/// An upper bound, excluded, for the number of lines of a text.
const LINE_LIMIT: usize = 1 << 40;

/// An upper bound, excluded, for the number of units of a line.
const UNIT_LIMIT: usize = 1 << 16;

/// The lines of a text, and the numbers of those asked for, which only proofs read.
#[derive(Drop)]
pub(crate) struct TextLines {
    lines: Vec<Units>,
    asked: Trail,
    ghost some: { 0 < length lines.items },
    ghost few: { length lines.items < 2 ^ 40 },
    ghost short: { All (λ line. length line < 2 ^ 16) lines.items },
}

impl TextLines {
    /// Returns a text of one empty line.
    pub(crate) fn new(alloc: Global) -> Result<TextLines, AllocError>
        ensures { IfOk result (λ text. text.lines.items ≡ [] ∷ []) }
    {
        let mut lines = Vec::new(alloc);
        lines.push(Units::from_vec(Vec::new(alloc)))?;
        Ok(TextLines {
            lines,
            asked: Trail::new(),
        })
    }

    /// Returns the number of lines.
    pub(crate) fn count(&self) -> u64
        ensures count { result ≡ length self.now.lines.items }
        ensures some { 0 < result }
        ensures few { result < 2 ^ 40 }
    {
        self.lines.len() as u64
    }

    /// Appends a line. Fails if there is no room for it.
    pub(crate) fn push(&mut self, alloc: Global, line: &[u16]) -> Result<(), AllocError>
        ensures { OnOk result (self.new.lines.items ≡ self.old.lines.items ++ line.now ∷ []) }
    {
        if self.lines.len() + 1 >= LINE_LIMIT || line.len() >= UNIT_LIMIT {
            return Err(AllocError);
        }
        self.lines.push(Units::copy_of(alloc, line)?)?;
        Ok(())
    }

    /// Replaces line `n`, counted from 1. Fails if there is no room for the new line.
    pub(crate) fn put(&mut self, n: u64, line: Units) -> Result<(), AllocError>
        requires first { 1 ≤ n }
        requires there { n ≤ length self.old.lines.items }
        ensures { OnOk result (IsEdited n 1 1 self.old.lines.items self.new.lines.items) }
    {
        if line.as_slice().len() >= UNIT_LIMIT {
            return Err(AllocError);
        }
        self.lines[n as usize - 1] = line;
        Ok(())
    }
}

impl Lines for TextLines {
    ghost use Rattle.counted_steps.specs.Weights.{weights_fit};

    ghost state = { λ text. record {
      contents = text.lines.items;
      asked = text.asked.numbers;
    } };

    ghost fits = { λ text. weights_fit text.lines.items text.few text.short };

    fn line(&mut self, n: u64, out: &mut Vec<u16>) -> Result<(), AllocError> {
        out.extend_from_slice(self.lines[n as usize - 1].as_slice())?;
        self.asked = self.asked.and(&n);
        Ok(())
    }
}
