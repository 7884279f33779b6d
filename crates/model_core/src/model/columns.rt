//! Columns in other units, as language servers count them.

ghost use Rattle.document_rules.specs.Outcomes.{Gives};
ghost use Rattle.document_rules.specs.Columns.{flat_column_in, flat_column_of};

use crate::model::Model;
use column_encodings::{Encoding, column_in, offset_of};
use document_rules::ModelError;
use text_lengths::Position;

impl Model {
    /// Returns how many bytes of UTF-8, UTF-16 units or code points precede a position in its line. A lone surrogate counts as U+FFFD.
    /// `Range` if the position is invalid.
    pub fn column_in(&self, encoding: Encoding, at: Position) -> Result<u64, ModelError>
        ensures { Gives result (flat_column_in self.now.document encoding at) }
    {
        let mut content = Vec::new(self.alloc);
        self.line(at.line, &mut content)?;
        let before = at.column.checked_sub(1).ok_or(ModelError::Range)?;
        column_in(encoding, &content, before).ok_or(ModelError::Range)
    }

    /// Converts a count of bytes, UTF-16 units or code points from the start of a line into a column, in units from 1. `Range` if the line
    /// is missing, or the place is inside a character or beyond the line's end.
    pub fn column_of(&self, encoding: Encoding, line: u64, before: u64) -> Result<u64, ModelError>
        ensures { Gives result (flat_column_of self.now.document encoding line before) }
    {
        let mut content = Vec::new(self.alloc);
        self.line(line, &mut content)?;
        let offset = offset_of(encoding, &content, before).ok_or(ModelError::Range)?;
        Ok(offset + 1)
    }
}
