//! Converts columns into another encoding. Columns are asked for from left to right, so each line is scanned once.

ghost use Rattle.std.specs.Prelude.{◌≡◌, ◌+◌, ◌<◌, ◌^◌, true, false, Ok, Err, IfOk, IfSome};
ghost use Rattle.document_rules.specs.Document.{FlatState, flat_line};
ghost use Rattle.document_rules.specs.Outcomes.{Gives};
ghost use Rattle.textmodel_c.specs.Columns.{Follow, HasRead, IsAtPlace, IsSameLine};
ghost use Rattle.textmodel_c.specs.Rules.{column_as, column_at, column_before, extent_of, is_utf16};

use crate::positions::{column_before, is_utf16};
use column_encodings::column_in;
use model_core::{Encoding, Model, ModelError, Position};
use std::alloc::Global;

/// The line that was read last, or 0 for none, and an offset in it: `before` in units, `column` in the encoding.
#[derive(Drop)]
pub struct Columns {
    pub alloc: Global,
    pub encoding: Encoding,
    pub line: u64,
    pub content: Vec<u16>,
    pub before: u64,
    pub column: u64,
}

impl Columns {
    /// Starts without a line.
    pub(crate) fn new(alloc: Global, encoding: Encoding) -> Columns
        ensures follows { (f : FlatState) → Follow result f }
        ensures encoding { result.encoding ≡ encoding }
    {
        Columns {
            alloc,
            encoding,
            line: 0,
            content: Vec::new(alloc),
            before: 0,
            column: 0,
        }
    }

    /// Converts a position's column from UTF-16 units into the encoding.
    pub(crate) fn column(&mut self, model: &Model, at: Position) -> Result<u64, ModelError>
        requires { Follow self.old model.now.document }
        ensures column { Gives result (column_as model.now.document self.old.encoding at) }
        ensures follows { Follow self.new model.now.document }
        ensures encoding { self.new.encoding ≡ self.old.encoding }
        ensures read { is_utf16 self.old.encoding ≡ false → IfOk result
            (λ x. flat_line model.now.document at.line ≡ Ok self.new.content.items) }
    {
        if is_utf16(self.encoding) {
            return Ok(at.column);
        }
        self.go_to(model, at.line)?;
        self.column_at(at.column).ok_or(ModelError::Range)
    }

    /// Converts a column and a length from UTF-16 units into the encoding.
    pub(crate) fn extent(
        &mut self,
        model: &Model,
        at: Position,
        units: u64,
    ) -> Result<(u64, u64), ModelError>
        requires { Follow self.old model.now.document }
        ensures extent { Gives result (extent_of model.now.document self.old.encoding at units) }
        ensures follows { Follow self.new model.now.document }
        ensures encoding { self.new.encoding ≡ self.old.encoding }
        ensures sure { is_utf16 self.old.encoding ≡ true → ¬ (result ≡ Err ModelError.Memory) }
    {
        if is_utf16(self.encoding) {
            return Ok((at.column, units));
        }
        let line = at.line;
        let start = self.column(model, at)?;
        let column = at.column.checked_add(units).ok_or(ModelError::Range)?;
        let end = self.column(model, Position { line, column })?;
        Ok((start, end.saturating_sub(start)))
    }

    // Converts a column from UTF-16 units into the encoding.
    fn column_at(&mut self, column: u64) -> Option<u64>
        requires { IsAtPlace self.old }
        ensures column { result ≡ column_at self.old.encoding column self.old.content.items }
        ensures place { IsAtPlace self.new }
        ensures same { IsSameLine self.old self.new }
    {
        let before = column.checked_sub(1)?;
        let stand = self.column_before(before)?;
        Some(stand + 1)
    }

    // Reads a line, unless it is the one read last.
    fn go_to(&mut self, model: &Model, line: u64) -> Result<(), ModelError>
        requires { Follow self.old model.now.document }
        ensures { HasRead result model.now.document line self.old self.new }
    {
        if line == self.line && line > 0 {
            return Ok(());
        }
        self.read(model, line)
    }

    // Reads a line. On an error everything is unchanged.
    fn read(&mut self, model: &Model, line: u64) -> Result<(), ModelError>
        ensures { HasRead result model.now.document line self.old self.new }
    {
        let mut content = Vec::new(self.alloc);
        model.line(line, &mut content)?;
        self.line = line;
        self.content = content;
        self.before = 0;
        self.column = 0;
        Ok(())
    }

    // Converts an offset in the line from units into the encoding.
    fn column_before(&mut self, before: u64) -> Option<u64>
        requires { IsAtPlace self.old }
        ensures column { result ≡ column_before self.old.encoding self.old.content.items before }
        ensures small { IfSome result (λ n. n + 1 < 2 ^ 64) }
        ensures place { IsAtPlace self.new }
        ensures same { IsSameLine self.old self.new }
    {
        if before < self.before || before > self.content.len() as u64 {
            return column_before(self.encoding, &self.content, before);
        }
        let (_, rest) = self.content.split_at(self.before as usize);
        let more = column_in(self.encoding, rest, before - self.before)?;
        self.before = before;
        self.column += more;
        Some(self.column)
    }
}
