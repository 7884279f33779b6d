//! The lines of a text, as a parse reads them.

ghost use Rattle.std.specs.Prelude.{◌≡◌, ◌<◌, ◌^◌, [], length};

use line_states::Lines;
use std::alloc::AllocError;
use steps::Trail;
use text_buffer::{LineReader, TextBuffer};

/// A reader of the lines of a text. The numbers of the lines that were read are for proofs only.
#[derive(Drop)]
pub(crate) struct TextLines<'t> {
    lines: LineReader<'t>,
    pub asked: Trail,
    ghost small: { length lines < 2 ^ 62 },
}

impl<'t> TextLines<'t> {
    /// Makes a reader. No line was read yet.
    pub(crate) fn new(text: &'t TextBuffer) -> TextLines<'t>
        ensures units { result.lines ≡ text.now.units }
        ensures asked { result.asked.numbers ≡ [] }
    {
        // No text has 2^62 units.
        let _units = text.len();
        TextLines {
            lines: text.lines(),
            asked: Trail::new(),
        }
    }
}

impl Lines for TextLines<'_> {
    ghost use Rattle.document_rules.specs.Brackets.{line_contents};
    ghost use Rattle.model_page.specs.TextWeights.{weights_fit};

    ghost state = { λ lines. record {
      contents = line_contents lines.lines;
      asked = lines.asked.numbers;
    } };

    ghost fits = { λ lines. weights_fit lines.lines lines.small };

    fn line(&mut self, n: u64, out: &mut Vec<u16>) -> Result<(), AllocError> {
        self.lines.line(n, out)?;
        self.asked = self.asked.and(&n);
        Ok(())
    }
}
