//! Questions about a document.

ghost use Rattle.std.specs.Prelude.{◌≡◌, ◌-◌, ◌≤◌, ◌++◌, length, OnOk, OnErr};
ghost use Rattle.batch_rules.specs.Batches.{most_units};
ghost use Rattle.unit_text.specs.Kinds.{IsOfKind, is_place_in};
ghost use Rattle.text_buffer.specs.Costs.{WithinLookUps};
ghost use Rattle.document_rules.specs.Outcomes.{Appends};
ghost use Rattle.document_rules.specs.Document.{greatest_version, flat_line, flat_value, flat_position, flat_offset, flat_line_count};
ghost use Rattle.document_rules.specs.Stops.{flat_stops};

use crate::model::Model;
use document_rules::ModelError;
use std::alloc::AllocError;
use steps::Steps;
use stops::stops;
use text_lengths::{Position, Span};
use text_rules::is_bad_span;
use unit_text::{Flat, Kind};

impl Model {
    /// Returns the length of the text in units.
    pub fn len(&self) -> u64
        ensures { result ≡ length self.now.document.units }
    {
        self.page.text().len()
    }

    /// Returns the kind of line endings. The whole text has it.
    pub fn kind(&self) -> Kind
        ensures kind { result ≡ self.now.document.kind }
        ensures endings { IsOfKind result self.now.document.units }
    {
        self.page.text().kind()
    }

    /// Returns whether the offset is valid: not beyond the text's end, and not inside a surrogate pair or, with kind CR LF, inside a line
    /// ending.
    pub fn is_place(&self, offset: u64) -> bool
        ensures { result ≡ is_place_in self.now.document.kind self.now.document.units offset }
    {
        self.page.text().is_place(offset)
    }

    /// Returns the number of lines.
    pub fn line_count(&self) -> u64
        ensures { result ≡ flat_line_count self.now.document }
    {
        self.page.text().line_count()
    }

    /// Appends the content of a line, counted from 1. `Range` if there is no such line. On an error `out` is unchanged.
    pub fn line(&self, n: u64, out: &mut Vec<u16>) -> Result<(), ModelError>
        ensures { Appends result out.old.items out.new.items (flat_line self.now.document n) }
    {
        let text = self.page.text();
        if n == 0 || n > text.line_count() {
            return Err(ModelError::Range);
        }
        text.line(n, out).map_err(|_| ModelError::Memory)
    }

    /// Appends the columns of a line at which a cursor may stop, in units. Lines and columns count from 1. `Range` if there is no such
    /// line. On an error `out` is unchanged.
    pub fn stops(&self, n: u64, out: &mut Vec<u64>) -> Result<(), ModelError>
        ensures { Appends result out.old.items out.new.items (flat_stops self.now.document n) }
    {
        let mut content = Vec::new(self.alloc);
        self.line(n, &mut content)?;
        stops(self.alloc, content.as_slice(), out).map_err(|_| ModelError::Memory)
    }

    /// Appends the units of the span. `Range` if the span is invalid. On an error `out` is unchanged.
    pub fn value(&self, span: Span, out: &mut Vec<u16>) -> Result<(), ModelError>
        ensures { Appends result out.old.items out.new.items (flat_value self.now.document span) }
    {
        let text = self.page.text();
        if is_bad_span(text, span) {
            return Err(ModelError::Range);
        }
        text.value(span, out).map_err(|_| ModelError::Memory)
    }

    /// Appends the whole text. It is never longer than a text may be. On an error `out` is unchanged.
    pub fn text(&self, out: &mut Vec<u16>) -> Result<(), AllocError>
        ensures text { OnOk result
            (out.new.items ≡ out.old.items ++ self.now.document.units) }
        ensures err { OnErr result (out.new.items ≡ out.old.items) }
        ensures fits { length self.now.document.units ≤ most_units }
    {
        let text = self.page.text();
        text.copy(0, text.len(), out)
    }

    /// Like `offset_at`. Remembers the pieces for the next edit.
    pub fn locate(&mut self, p: Position) -> Option<u64>
        ensures offset { result ≡ flat_offset self.old.document p }
        ensures same { self.new ≡ self.old }
    {
        self.page.locate(p)
    }

    /// Converts an offset into a position; None if the offset is invalid. Each node that a search visits is a step.
    pub fn position_at<L>(&self, offset: u64, steps: &mut Steps<L>) -> Option<Position>
        ensures position { result ≡ flat_position self.now.document offset }
        ensures cost { WithinLookUps 3 self.now.pieces (steps.new - steps.old) }
    {
        self.page.text().position_at(offset, steps)
    }

    /// Converts a position into an offset; None if the position is invalid. Each node that a search visits is a step.
    pub fn offset_at<L>(&self, p: Position, steps: &mut Steps<L>) -> Option<u64>
        ensures offset { result ≡ flat_offset self.now.document p }
        ensures cost { WithinLookUps 4 self.now.pieces (steps.new - steps.old) }
    {
        self.page.text().offset_at(p, steps)
    }

    /// Returns the version, and the version at which the text was last the same as now.
    pub fn versions(&self) -> (u64, u64)
        ensures version { result.0 ≡ self.now.document.version }
        ensures alternative { result.1 ≡ self.now.document.alternative }
        ensures few { result.0 ≤ greatest_version }
    {
        (self.version, self.alternative)
    }
}
