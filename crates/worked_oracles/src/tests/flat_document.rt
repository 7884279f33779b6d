//! A flat document: one list of units, which each edit copies and each search scans; each question about brackets
//! parses it whole.

ghost use Rattle.std.specs.Prelude.{◌≡◌, ◌<◌, false, length};
ghost use Rattle.text_rules.specs.Edits.{is_bad_span};

use super::bracket_replies::{push_brackets, push_level, push_partner};
use super::flat_lines::{
    CARRIAGE_RETURN, LINE_FEED, line_content, line_count, line_starts, with_breaks,
};
use super::whole_parse::whole_parse;
use bracket_nodes::Node;
use bracket_scan::{BracketTable, Hiding};
use script_lines::{
    Command, LineOps, Place, Refusal, Request, Short, long_begin, long_end, long_number, long_text,
    refusal, request_of,
};
use std::alloc::{AllocError, Global};
use std::mem::{replace, swap};
use text_lengths::{Position, Span};
use text_rules::is_bad_span;
use unit_text::{Flat, Kind, Units};

/// A document whose text is a single list. It keeps one step of undo.
#[derive(Drop)]
pub struct OneList {
    alloc: Global,
    text: Units,
    /// The kind of its line endings.
    kind: Kind,
    /// Its brackets, and the rules that hide some of them.
    table: BracketTable,
    hiding: Hiding,
    version: u64,
    /// The other side of the last step: the text before it or, once the step is undone, after it.
    other: Option<Other>,
    is_undone: bool,
    /// Whether the next edit joins the last step.
    is_open: bool,
    was_refused: bool,
}

/// The text to which a step leads, and the kind of its line endings.
#[derive(Drop)]
struct Other {
    text: Units,
    kind: Kind,
}

impl OneList {
    pub fn new(alloc: Global) -> OneList {
        OneList {
            alloc,
            text: Units::from_vec(Vec::new(alloc)),
            kind: Kind::Mixed,
            table: BracketTable::standard(),
            hiding: Hiding::none(),
            version: 1,
            other: None,
            is_undone: false,
            is_open: false,
            was_refused: false,
        }
    }

    pub fn len(&self) -> u64 {
        self.text.len()
    }

    pub fn line_count(&self) -> u64 {
        line_count(self.text.as_slice())
    }

    pub fn was_refused(&self) -> bool {
        self.was_refused
    }

    /// Carries out the line's command, which addresses document 0, and appends its reply.
    pub fn answer(&mut self, line: &[u8], out: &mut Vec<u8>) -> Result<(), AllocError> {
        match request_of(self.alloc, line) {
            Ok(Request::One { doc: 0, command }) => self.carry_out(command, out),
            _ => self.refuse(Refusal::Syntax, out),
        }
    }

    fn carry_out(&mut self, command: Command, out: &mut Vec<u8>) -> Result<(), AllocError> {
        match command {
            Command::Open {
                text,
                brackets,
                marks,
                kind,
            } => {
                self.text = of_kind(self.alloc, text.as_slice(), kind)?;
                self.kind = kind;
                self.table = brackets.unwrap_or(BracketTable::standard());
                self.hiding = marks.unwrap_or(Hiding::none());
                self.version = 1;
                self.show_change(out)
            }
            Command::Edit { ops } => self.edit(ops, out),
            Command::Replace { sought, text } => {
                self.replace_all(sought.as_slice(), text.as_slice(), out)
            }
            Command::Eol { kind } => self.change_kind(kind, out),
            Command::Undo => self.step(true, out),
            Command::Redo => self.step(false, out),
            query => self.tell(query, out),
        }
    }

    fn tell(&mut self, query: Command, out: &mut Vec<u8>) -> Result<(), AllocError> {
        match query {
            Command::Line { n } => self.line(n, out),
            Command::Value { at } => self.value(at, out),
            Command::Position { offset } => self.position(offset, out),
            Command::Offset { p } => self.offset(p, out),
            Command::Find { sought } => self.find(sought.as_slice(), out),
            Command::Size => self.numbers(&[self.len(), self.line_count()], out),
            Command::Brackets { from, to } => self.brackets(from, to, out),
            Command::Match { p } => self.partner(p, out),
            Command::Level { p } => self.level(p, out),
            _ => self.refuse(Refusal::Syntax, out),
        }
    }

    /// Carries out the ops, which are in text order and do not overlap.
    fn edit(&mut self, ops: LineOps, out: &mut Vec<u8>) -> Result<(), AllocError> {
        let mut text = Units::copy_of(self.alloc, self.text.as_slice())?;
        for op in ops.into_vec().iter().rev() {
            let Place::At(span) = op.place else {
                return self.refuse(Refusal::Syntax, out);
            };
            if self.is_bad(span) {
                return self.refuse(Refusal::Range, out);
            }
            let new = of_kind(self.alloc, op.text.as_slice(), self.kind)?;
            text = edited(self.alloc, text.as_slice(), span, new.as_slice())?;
        }
        let before = replace(&mut self.text, text);
        if !self.is_open {
            self.other = Some(Other {
                text: before,
                kind: self.kind,
            });
            self.is_undone = false;
        }
        self.is_open = true;
        self.after_change(out)
    }

    /// Replaces each match of `sought` by `new`, as a step of its own.
    fn replace_all(
        &mut self,
        sought: &[u16],
        new: &[u16],
        out: &mut Vec<u8>,
    ) -> Result<(), AllocError>
        requires { 0 < length sought.now }
    {
        let spans = self.spans_of(sought)?;
        if spans.is_empty() {
            return out.extend_from_slice(Short::none().as_slice());
        }
        let new = of_kind(self.alloc, new, self.kind)?;
        let mut text = Units::copy_of(self.alloc, self.text.as_slice())?;
        for span in spans.iter().rev() {
            text = edited(self.alloc, text.as_slice(), *span, new.as_slice())?;
        }
        self.go_on_alone(text, self.kind, out)
    }

    /// Changes all line endings to the kind, as a step of its own.
    fn change_kind(&mut self, kind: Kind, out: &mut Vec<u8>) -> Result<(), AllocError> {
        if kind == self.kind {
            return out.extend_from_slice(Short::none().as_slice());
        }
        let text = of_kind(self.alloc, self.text.as_slice(), kind)?;
        self.go_on_alone(text, kind, out)
    }

    /// Replaces the text and its kind of line endings by a step that no edit joins.
    fn go_on_alone(
        &mut self,
        text: Units,
        kind: Kind,
        out: &mut Vec<u8>,
    ) -> Result<(), AllocError> {
        self.other = Some(Other {
            text: replace(&mut self.text, text),
            kind: replace(&mut self.kind, kind),
        });
        self.is_undone = false;
        self.is_open = false;
        self.after_change(out)
    }

    /// Undoes or redoes the last step.
    fn step(&mut self, is_undo: bool, out: &mut Vec<u8>) -> Result<(), AllocError> {
        match &mut self.other {
            Some(other) if self.is_undone != is_undo => {
                swap(&mut self.text, &mut other.text);
                swap(&mut self.kind, &mut other.kind);
                self.is_undone = is_undo;
                self.is_open = false;
                self.after_change(out)
            }
            _ => out.extend_from_slice(Short::none().as_slice()),
        }
    }

    fn after_change(&mut self, out: &mut Vec<u8>) -> Result<(), AllocError> {
        self.version = self.version.saturating_add(1);
        self.show_change(out)
    }

    fn show_change(&self, out: &mut Vec<u8>) -> Result<(), AllocError> {
        self.numbers(&[self.version, self.len(), self.line_count()], out)
    }

    fn numbers(&self, numbers: &[u64], out: &mut Vec<u8>) -> Result<(), AllocError> {
        long_begin(out)?;
        for number in numbers {
            long_number(*number, out)?;
        }
        long_end(out)
    }

    fn text_of(&self, units: &[u16], out: &mut Vec<u8>) -> Result<(), AllocError> {
        long_begin(out)?;
        long_text(units, out)?;
        long_end(out)
    }

    fn line(&mut self, number: u64, out: &mut Vec<u8>) -> Result<(), AllocError> {
        match line_content(self.text.as_slice(), number) {
            None => self.refuse(Refusal::Range, out),
            Some(content) => self.text_of(content, out),
        }
    }

    fn value(&mut self, span: Span, out: &mut Vec<u8>) -> Result<(), AllocError> {
        if self.is_bad(span) {
            return self.refuse(Refusal::Range, out);
        }
        let units = &self.text.as_slice()[span.start as usize..span.end as usize];
        self.text_of(units, out)
    }

    fn position(&mut self, offset: u64, out: &mut Vec<u8>) -> Result<(), AllocError> {
        if !self.text.is_place(offset) || self.is_in_break(offset) {
            return self.refuse(Refusal::Range, out);
        }
        let (mut line, mut start) = (1_u64, 0);
        for next in line_starts(self.alloc, self.text.as_slice())?
            .iter()
            .copied()
        {
            if next <= offset {
                line = line.saturating_add(1);
                start = next;
            }
        }
        let column = offset.saturating_sub(start).saturating_add(1);
        self.numbers(&[line, column], out)
    }

    fn offset(&mut self, position: Position, out: &mut Vec<u8>) -> Result<(), AllocError> {
        match self.offset_of(position)? {
            None => self.refuse(Refusal::Range, out),
            Some(offset) => self.numbers(&[offset], out),
        }
    }

    fn find(&mut self, sought: &[u16], out: &mut Vec<u8>) -> Result<(), AllocError>
        requires { 0 < length sought.now }
    {
        let spans = self.spans_of(sought)?;
        long_begin(out)?;
        for span in spans.iter() {
            long_number(span.start, out)?;
            long_number(span.end, out)?;
        }
        long_end(out)
    }

    /// Returns the spans of the matches of `sought` that are valid spans, from left to right and without overlap.
    fn spans_of(&self, sought: &[u16]) -> Result<Vec<Span>, AllocError>
        requires { 0 < length sought.now }
    {
        let mut spans = Vec::new(self.alloc);
        let mut free = 0;
        for (at, units) in self.text.as_slice().windows(sought.len()).enumerate() {
            let start = at as u64;
            let end = start.saturating_add(sought.len() as u64);
            let span = Span { start, end };
            if free <= start && units == sought && !self.is_bad(span) {
                spans.push(span)?;
                free = end;
            }
        }
        Ok(spans)
    }

    /// Whether the span is invalid in the text.
    fn is_bad(&self, span: Span) -> bool
        ensures { result ≡ false → is_bad_span Kind.Mixed self.now.text span ≡ false }
    {
        is_bad_span(&self.text, span) || self.is_in_break(span.start) || self.is_in_break(span.end)
    }

    /// Whether the place is inside a break of a CR LF text, where every LF ends a break.
    fn is_in_break(&self, place: u64) -> bool {
        self.kind == Kind::Crlf && self.text.as_slice().get(place as usize) == Some(&LINE_FEED)
    }

    /// Returns the offset of the position; None if the position is invalid.
    fn offset_of(&self, position: Position) -> Result<Option<u64>, AllocError> {
        let starts = line_starts(self.alloc, self.text.as_slice())?;
        let Some(content) = line_content(self.text.as_slice(), position.line) else {
            return Ok(None);
        };
        let line = position.line.saturating_sub(2) as usize;
        let start = if position.line < 2 {
            0
        } else {
            starts.get(line).copied().unwrap_or(0)
        };
        let offset = start.saturating_add(position.column).saturating_sub(1);
        let is_column = position.column > 0 && position.column - 1 <= content.len() as u64;
        let is_place = is_column && self.text.is_place(offset);
        Ok(is_place.then_some(offset))
    }

    fn brackets(&mut self, from: u64, to: u64, out: &mut Vec<u8>) -> Result<(), AllocError> {
        if from == 0 || to < from || self.line_count() < to {
            return self.refuse(Refusal::Range, out);
        }
        push_brackets(self.alloc, &self.parse()?, from, to, out)
    }

    fn partner(&mut self, position: Position, out: &mut Vec<u8>) -> Result<(), AllocError> {
        match self.offset_of(position)? {
            None => self.refuse(Refusal::Range, out),
            Some(_) => push_partner(&self.parse()?, position, out),
        }
    }

    fn level(&mut self, position: Position, out: &mut Vec<u8>) -> Result<(), AllocError> {
        match self.offset_of(position)? {
            None => self.refuse(Refusal::Range, out),
            Some(_) => push_level(&self.parse()?, position, out),
        }
    }

    fn parse(&self) -> Result<Node, AllocError> {
        whole_parse(self.alloc, &self.table, &self.hiding, self.text.as_slice())
    }

    fn refuse(&mut self, reason: Refusal, out: &mut Vec<u8>) -> Result<(), AllocError> {
        self.was_refused = true;
        out.extend_from_slice(refusal(reason).as_slice())
    }
}

/// Returns the text with the line endings of the kind.
fn of_kind(alloc: Global, units: &[u16], kind: Kind) -> Result<Units, AllocError> {
    match kind {
        Kind::Mixed => Units::copy_of(alloc, units),
        Kind::Lf => with_breaks(alloc, units, &[LINE_FEED]),
        Kind::Crlf => with_breaks(alloc, units, &[CARRIAGE_RETURN, LINE_FEED]),
    }
}

/// Returns the text with the span replaced by `new`.
fn edited(alloc: Global, units: &[u16], span: Span, new: &[u16]) -> Result<Units, AllocError> {
    let mut text = Vec::new(alloc);
    for unit in units.iter().take(span.start as usize) {
        text.push(*unit)?;
    }
    text.extend_from_slice(new)?;
    for unit in units.iter().skip(span.end as usize) {
        text.push(*unit)?;
    }
    Ok(Units::from_vec(text))
}
