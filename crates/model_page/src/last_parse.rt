//! The last parse, and for each line of the present text its mark: a line of that parse, or new.

ghost use Rattle.std.specs.Prelude.{◌≡◌, ◌+◌, ◌-◌, ◌<◌, ◌≤◌, ◌^◌, ◌∷◌, [], None, Some, false, true, length, is_some, replicate, IfOk, OnOk, ◌*◌};
ghost use Rattle.std.specs.Option.{option_copied};
ghost use Rattle.batch_rules.specs.Batches.{most_units};
ghost use Rattle.unit_text.specs.Kinds.{IsOfKind};
ghost use Rattle.text_rules.specs.Lines.{lines_of};
ghost use Rattle.text_buffer.specs.Room.{part_count};
ghost use Rattle.bracket_tree_rules.specs.Tree.{IsTree};
ghost use Rattle.mark_rules.specs.declared.Mark.TheVariants.{New};
ghost use Rattle.mark_rules.specs.Marks.{clean_marks, edited_marks};
ghost use Rattle.document_rules.specs.Brackets.{line_contents};
ghost use Rattle.hiding_rules.specs.declared.LineState.TheVariants.{Code};
ghost use Rattle.hiding_rules.specs.Hidden.{scanner};
ghost use Rattle.line_states.specs.Settling.{borders};
ghost use Rattle.model_page.specs.Asked.{told_parse};
ghost use Rattle.model_page.specs.Staying.{fresh_tree, AreSettled, ReadsToSettle, StaysWith};

use crate::text_lines::TextLines;
use bracket_nodes::Node;
use bracket_scan::{BracketTable, Hiding};
use line_states::{LineStates, Settled, States};
use node_reuse::{OldReader, Parsed};
use std::alloc::{AllocError, Global};
use std::marker::Model;
use steps::Trail;
use text_buffer::TextBuffer;
use text_lengths::Dirty;
use unit_text::Kind;

/// A parse, and the lines of the text that it read.
#[derive(Drop)]
pub(crate) struct ReadParse {
    pub parsed: Parsed,
    pub read: Trail,
}

impl Model for ReadParse {
    ghost use Rattle.model_page.specs.Asked.{ReadTree, read_tree_code};

    ghost Value = { ReadTree };

    ghost coded = { read_tree_code };

    ghost view = { λ p. record { parsed = p.parsed; read = p.read.numbers } };
}

/// The last parse, if any, and a mark for each line of the present text.
#[derive(Drop)]
pub(crate) struct LastParse {
    last: Option<ReadParse>,
    states: States,
}

impl Model for LastParse {
    ghost use Rattle.std.specs.Coded.{codes};
    ghost use Rattle.bracket_tree_rules.specs.TreeCode.{tree_code};
    ghost use Rattle.model_page.specs.Asked.{parsed_tree, read_tree_code};
    ghost use Rattle.model_page.specs.Staying.{ParseState};

    ghost Value = { ParseState };

    ghost coded = { Prim.hlevel (codes, tree_code, read_tree_code) };

    ghost view = { λ p. record {
      parsed = p.last;
      tree = parsed_tree p.last;
      marks = p.states.marks;
      states = p.states.last;
      spare = p.states.spare;
    } };
}

impl LastParse {
    /// No parse, for a text of one line.
    pub(crate) fn none(alloc: Global) -> LastParse
        ensures parsed { result.parsed ≡ None }
        ensures tree { result.tree ≡ None }
        ensures marks { result.marks ≡ New ∷ [] }
        ensures states { result.states ≡ borders [] Code }
    {
        LastParse {
            last: None,
            states: States::new(alloc),
        }
    }

    /// No parse, for a text of this many lines.
    pub(crate) fn of_new_lines(alloc: Global, lines: u64) -> LastParse
        requires some { 1 ≤ lines }
        requires fits { lines < 2 ^ 62 }
        ensures parsed { result.parsed ≡ None }
        ensures tree { result.tree ≡ None }
        ensures marks { result.marks ≡ replicate lines New }
        ensures states { result.states ≡ borders [] Code }
    {
        LastParse {
            last: None,
            states: States::all_new(alloc, lines),
        }
    }

    /// Reserves room for this many edits. Never reduces it. On an error the parse and the marks are unchanged.
    pub(crate) fn reserve(&mut self, edits: u64) -> Result<(), AllocError>
        ensures room { OnOk result (edits ≤ self.new.spare) }
        ensures kept { self.old.spare ≤ self.new.spare }
        ensures parsed { self.new.parsed ≡ self.old.parsed }
        ensures tree { self.new.tree ≡ self.old.tree }
        ensures marks { self.new.marks ≡ self.old.marks }
        ensures states { self.new.states ≡ self.old.states }
    {
        self.states.reserve(edits)
    }

    /// Marks the lines that an edit touched. Room for it is reserved.
    pub(crate) fn mark(&mut self, dirty: Dirty)
        requires room { 0 < self.old.spare }
        requires first { 1 ≤ dirty.first }
        requires some { 1 ≤ dirty.old }
        requires within { dirty.first - 1 + dirty.old ≤ length self.old.marks }
        requires new { 1 ≤ dirty.new }
        requires fits { length self.old.marks - dirty.old + dirty.new < 2 ^ 62 }
        ensures marks { self.new.marks
            ≡ edited_marks dirty.first dirty.old dirty.new self.old.marks }
        ensures room { self.old.spare ≤ self.new.spare + 1 }
        ensures parsed { self.new.parsed ≡ self.old.parsed }
        ensures tree { self.new.tree ≡ self.old.tree }
        ensures states { self.new.states ≡ self.old.states }
    {
        self.states.edit(dirty.first, dirty.old, dirty.new);
    }

    /// Returns the tree if it is of the present text.
    pub(crate) fn fresh(&self) -> Option<&Node>
        ensures { option_copied result ≡ fresh_tree self.now.tree self.now.marks }
    {
        if self.states.hunks().is_clean() {
            self.tree()
        } else {
            None
        }
    }

    /// Returns the last parse, if any.
    pub(crate) fn parsed(&self) -> Option<&Parsed>
        ensures { option_copied result ≡ told_parse self.now.parsed }
    {
        match &self.last {
            Some(last) => Some(&last.parsed),
            None => None,
        }
    }

    /// Settles the lines of the present text for a parse. Without block comments all lines begin in code: no line is read and nothing is
    /// allocated.
    pub(crate) fn settle<'s>(
        &'s self,
        alloc: Global,
        table: &BracketTable,
        hiding: &Hiding,
        lines: &mut TextLines<'_>,
    ) -> Result<Settled<'s>, AllocError>
        requires stays { StaysWith self.now.tree self.now.marks self.now.states
            (scanner table.now hiding.now) lines.old.lines }
        ensures settled { IfOk result (AreSettled (scanner table.now hiding.now) lines.old.lines
            self.now.states self.now.marks) }
        ensures contents { line_contents lines.new.lines ≡ line_contents lines.old.lines }
        ensures read { OnOk result (ReadsToSettle self.now (scanner table.now hiding.now)
            lines.old.lines lines.old.asked.numbers lines.new.asked.numbers) }
    {
        if !hiding.has_block() {
            return Ok(self.states.in_code());
        }
        self.states.settle(alloc, table, hiding, lines)
    }

    /// Returns a reader of the tree under the marks of the settled lines.
    pub(crate) fn old<'s>(&'s self, alloc: Global, settled: &'s Settled<'s>) -> OldReader<'s>
        ensures tree { result.tree ≡ self.now.tree }
        ensures marks { result.marks ≡ settled.now.marks }
    {
        OldReader::new(alloc, self.tree(), settled)
    }

    fn tree(&self) -> Option<&Node>
        ensures { option_copied result ≡ self.now.tree }
    {
        match &self.last {
            Some(last) => Some(last.parsed.tree()),
            None => None,
        }
    }

    /// Stores the parse of the present text and the states of its lines.
    pub(crate) fn put(&mut self, parse: ReadParse, states: LineStates)
        requires { length states.begins ≡ length self.old.marks }
        ensures parsed { self.new.parsed ≡ Some parse }
        ensures tree { self.new.tree ≡ Some parse.parsed.tree }
        ensures marks { self.new.marks ≡ clean_marks (length self.old.marks) }
        ensures states { self.new.states ≡ states }
        ensures fresh { fresh_tree self.new.tree self.new.marks ≡ Some parse.parsed.tree }
        ensures rules { IsTree parse.parsed.tree }
        ensures room { self.old.spare ≤ self.new.spare }
    {
        // For the proof: the tree meets the rules of nodes.
        let _length = parse.parsed.tree().length();
        self.states.adopt(states);
        self.last = Some(parse);
    }
}

/// Makes a text of these units and this kind, without a parse.
pub(crate) fn unparsed(
    alloc: Global,
    units: &[u16],
    kind: Kind,
) -> Result<(TextBuffer, LastParse), AllocError>
    requires fits { length units.now ≤ most_units }
    requires endings { IsOfKind kind units.now }
    ensures units { IfOk result (λ made. made.0.units ≡ units.now) }
    ensures kind { IfOk result (λ made. made.0.kind ≡ kind) }
    ensures spans { IfOk result (λ made. length made.0.spans < 2 * part_count units.now) }
    ensures parsed { IfOk result (λ made. made.1.parsed ≡ None) }
    ensures tree { IfOk result (λ made. made.1.tree ≡ None) }
    ensures marks { IfOk result (λ made.
        made.1.marks ≡ replicate (length (lines_of units.now)) New) }
    ensures states { IfOk result (λ made. made.1.states ≡ borders [] Code) }
{
    let text = TextBuffer::of_units(alloc, units, kind)?;
    let last = LastParse::of_new_lines(alloc, text.line_count());
    Ok((text, last))
}
