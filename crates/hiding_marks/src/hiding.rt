//! Checked marks of comments and strings.

ghost use Rattle.std.specs.Prelude.{◌≡◌, ◌↔◌, ◌<◌, ◌≤◌, true, false, IfSome, IfOk};
ghost use Rattle.bracket_rules.specs.declared.TheConstants.{MOST_BRACKET_UNITS};
ghost use Rattle.hiding_rules.specs.Marks.{marks, no_marks, has_block, is_none, are_marks};
ghost use Rattle.hiding_rules.specs.declared.Within.TheVariants.{Comment};
ghost use Rattle.hiding_rules.specs.Hidden.{code, block, block_opening, block_closing, marked, hidden_in_code, hidden_in_block, hidden};
ghost use Rattle.hiding_marks.specs.Reacts.{may_start, may_react};

use crate::hidden::{hidden_in_string, marked, may_start, one_unit, quoted};
use crate::rules::{are_quotes, has_block_texts, has_line_text, is_one_of};
use arrayvec::ArrayVec;
use hiding_rules::{BACKSLASH, LineState, Stretch, Within};
use std::marker::Model;
use thiserror::Error;
use unit_text::Units;

/// The reason why marks are invalid.
#[derive(Clone, Copy, PartialEq, Eq, Debug, Error)]
pub enum HidingError {
    /// A text is empty, has more than 32 units or contains a line break; or there are more than 8 quotes, a quote is a
    /// line break, a backslash or a surrogate, or two quotes are equal.
    #[error("these are no marks of comments and strings")]
    BadMarks,
}

/// The marks of comments and strings: a text that begins a line comment, two texts that begin and end a block comment,
/// and units that begin and end a string.
#[derive(Drop)]
pub struct Hiding {
    line: Option<Units>,
    block: Option<(Units, Units)>,
    quotes: ArrayVec<u16, 8>,
}

impl Model for Hiding {
    ghost use Rattle.std.specs.Prelude.{IsTrue};
    ghost use Rattle.hiding_rules.specs.Marks.{Marks, marks, are_marks};

    ghost Value = { Marks };

    ghost view = { λ h. marks h.line h.block h.quotes.items };

    ghost invariant = { λ h. IsTrue (are_marks (marks h.line h.block h.quotes.items)) };
}

impl Hiding {
    /// Returns no marks, which hide nothing.
    pub fn none() -> Hiding
        ensures { result ≡ no_marks }
    {
        Hiding {
            line: None,
            block: None,
            quotes: ArrayVec::new(),
        }
    }

    /// Checks the marks and takes them over. Fails with `BadMarks` if they are invalid. Allocates no memory.
    pub fn new(
        line: Option<Units>,
        block: Option<(Units, Units)>,
        quotes: &[u16],
    ) -> Result<Hiding, HidingError>
        ensures ok { IfOk result (λ hiding. hiding ≡ marks line block quotes.now) }
        ensures bad { (result ≡ Err HidingError.BadMarks) ↔ (are_marks (marks line block quotes.now) ≡ false) }
    {
        if !has_line_text(&line) || !has_block_texts(&block) || !are_quotes(quotes) {
            return Err(HidingError::BadMarks);
        }
        let mut kept = ArrayVec::new();
        kept.try_extend_from_slice(quotes).unwrap();
        Ok(Hiding {
            line,
            block,
            quotes: kept,
        })
    }

    /// Returns whether there are no marks.
    pub fn is_none(&self) -> bool
        ensures { result ≡ is_none self.now }
    {
        self.line.is_none() && self.block.is_none() && self.quotes.is_empty()
    }

    /// Returns whether there are marks of a block comment. Without them each line begins in code.
    pub fn has_block(&self) -> bool
        ensures { result ≡ has_block self.now }
    {
        self.block.is_some()
    }

    /// Returns the stretch at the start of `units` that holds no bracket; `within` says what the start lies in. None if
    /// that is code and no mark begins there.
    pub fn hidden(&self, within: Within, units: &[u16]) -> Option<Stretch>
        ensures stretch { result ≡ hidden self.now within units.now }
        ensures some { IfSome result (λ s. 0 < s.units) }
        ensures few { IfSome result (λ s. s.units ≤ MOST_BRACKET_UNITS) }
        ensures marks { are_marks self.now ≡ true }
    {
        // The invariant shows that the marks are valid.
        let _quotes = &self.quotes;
        match within {
            Within::State(LineState::Code) => self.hidden_in_code(units),
            Within::State(LineState::Block) => Some(self.hidden_in_block(units)),
            Within::Comment => Some(one_unit(Within::Comment)),
            Within::String(quote) => Some(hidden_in_string(quote, units)),
        }
    }

    /// Returns whether something hidden may begin or end at this unit. If not, a scan may pass it: the context goes on.
    pub fn may_react(&self, within: Within, unit: u16) -> bool
        ensures { result ≡ may_react self.now within unit }
    {
        match within {
            Within::State(LineState::Code) => self.may_hide(unit),
            Within::State(LineState::Block) => self.may_end_block(unit),
            Within::Comment => false,
            Within::String(quote) => unit == BACKSLASH || unit == quote,
        }
    }

    fn may_hide(&self, unit: u16) -> bool
        ensures { result ≡ may_react self.now code unit }
    {
        self.may_begin_line(unit)
            || self.may_begin_block(unit)
            || is_one_of(self.quotes.as_slice(), unit)
    }

    fn may_begin_line(&self, unit: u16) -> bool
        ensures { result ≡ may_start self.now.line unit }
    {
        match &self.line {
            Some(text) => may_start(text, unit),
            None => false,
        }
    }

    fn may_begin_block(&self, unit: u16) -> bool
        ensures { result ≡ may_start (block_opening self.now) unit }
    {
        match &self.block {
            Some(texts) => may_start(&texts.0, unit),
            None => false,
        }
    }

    fn may_end_block(&self, unit: u16) -> bool
        ensures { result ≡ may_start (block_closing self.now) unit }
    {
        match &self.block {
            Some(texts) => may_start(&texts.1, unit),
            None => false,
        }
    }

    fn hidden_in_code(&self, units: &[u16]) -> Option<Stretch>
        ensures { result ≡ hidden_in_code self.now units.now }
    {
        if let Some(comment) = self.line_comment(units) {
            return Some(comment);
        }
        if let Some(comment) = self.block_comment(units) {
            return Some(comment);
        }
        quoted(self.quotes.as_slice(), units)
    }

    fn hidden_in_block(&self, units: &[u16]) -> Stretch
        ensures { result ≡ hidden_in_block self.now units.now }
    {
        match self.block_end(units) {
            Some(end) => end,
            None => one_unit(Within::State(LineState::Block)),
        }
    }

    fn line_comment(&self, units: &[u16]) -> Option<Stretch>
        ensures { result ≡ marked self.now.line Comment units.now }
    {
        match &self.line {
            Some(text) => marked(text, Within::Comment, units),
            None => None,
        }
    }

    fn block_comment(&self, units: &[u16]) -> Option<Stretch>
        ensures { result ≡ marked (block_opening self.now) block units.now }
    {
        match &self.block {
            Some(texts) => marked(&texts.0, Within::State(LineState::Block), units),
            None => None,
        }
    }

    fn block_end(&self, units: &[u16]) -> Option<Stretch>
        ensures { result ≡ marked (block_closing self.now) code units.now }
    {
        match &self.block {
            Some(texts) => marked(&texts.1, Within::State(LineState::Code), units),
            None => None,
        }
    }
}
