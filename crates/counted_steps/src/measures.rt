//! Counts the queries that a reparse makes of the old text.

ghost use Rattle.std.specs.Prelude.{◌≡◌, ◌+◌, ◌*◌, ◌<◌, ◌≤◌, length, IfOk, OnOk, IfSome, IfNone};
ghost use Rattle.hiding_rules.specs.Hidden.{plain_scanner};
ghost use Rattle.hiding_rules.specs.Rows.{hidden_rows};
ghost use Rattle.mark_rules.specs.Marks.{clean_marks};
ghost use Rattle.bracket_tree_rules.specs.Told.{IsTreeOf};
ghost use Rattle.bracket_tree_rules.specs.Tree.{nesting, highest};
ghost use Rattle.node_reuse.specs.Paying.{most_steps};
ghost use Rattle.node_reuse.specs.Texts.{IsTight};
ghost use Rattle.counted_steps.specs.Edited.{IsMarkedEdit};

use crate::counting::Counting;
use crate::shapes::{Shape, line_of};
use crate::text_lines::TextLines;
use bracket_nodes::Node;
use bracket_rules::MOST_OPEN;
use bracket_scan::{BracketTable, Hiding};
use line_states::States;
use node_reuse::{OldReader, Parsed, reparse};
use std::alloc::{AllocError, Global};
use steps::Steps;
use unit_text::Units;

/// The cost of a reparse, and the numbers from which its bound is computed.
#[derive(Clone, Copy)]
pub(crate) struct Measured {
    pub nesting: u64,
    /// The greatest height of a list.
    pub highest: u64,
    /// The number of tokens of the new line.
    pub tokens: u64,
    pub calls: u64,
    ghost low: { highest ≤ 64 },
}

impl Measured {
    /// Returns the measures of a reparse by this tree that made `calls` calls for a new line of `tokens` tokens.
    fn new(tree: &Node, tokens: u64, calls: u64) -> Measured
        ensures nesting { result.nesting ≡ nesting tree.now }
        ensures highest { result.highest ≡ highest tree.now }
        ensures tokens { result.tokens ≡ tokens }
        ensures calls { result.calls ≡ calls }
    {
        // The weight of all leaves fits 64 bits, so no list is higher than 64.
        let _length = tree.length();
        Measured {
            nesting: tree.nesting(),
            highest: tree.highest(),
            tokens,
            calls,
        }
    }

    /// Returns the bound on the calls; None if twice the nesting and the tokens together exceed `MOST_OPEN`, the
    /// premise of the bound. In the texts of these shapes every bracket is one of a pair.
    pub(crate) fn bound(self) -> Option<u64>
        ensures some { IfSome result (λ bound.
            bound ≡ most_steps self.nesting self.highest self.tokens) }
        ensures premise { IfSome result (λ _. 2 * self.nesting + self.tokens ≤ MOST_OPEN) }
        ensures none { IfNone result (MOST_OPEN < 2 * self.nesting + self.tokens) }
    {
        let brackets = self.nesting.saturating_mul(2).saturating_add(self.tokens);
        if brackets > MOST_OPEN {
            return None;
        }
        Some(self.tokens + 16 * ((self.nesting + 1) * (self.highest + 1)))
    }
}

/// Measures the reparse of a text of this shape whose middle line is replaced by this one.
pub(crate) fn measure(
    alloc: Global,
    shape: Shape,
    brackets: u64,
    line: &str,
) -> Result<Measured, AllocError> {
    let text = shape.text(alloc, brackets)?;
    let line = line_of(alloc, line)?;
    measure_in(alloc, text, line)
}

#[tactic(auto, using(crate::proofs::Edits::laws))]
fn measure_in(alloc: Global, mut text: TextLines, line: Units) -> Result<Measured, AllocError> {
    let table = BracketTable::standard();
    let mut steps = Steps::new();
    let mut tokens = Vec::new(alloc);
    table.scan(line.as_slice(), &mut tokens)?;
    let (parsed, mut states) = first_parse(alloc, &table, &mut text, &mut steps)?;
    // Establishes that the tree meets the rules of nodes.
    let _length = parsed.tree().length();
    edit_middle(&mut text, &mut states, line)?;
    let settled = states.in_code();
    let mut calls = 0;
    let old = Counting {
        old: OldReader::new(alloc, Some(parsed.tree()), &settled),
        calls: &mut calls,
    };
    let hiding = Hiding::none();
    reparse(alloc, old, &settled, &table, &hiding, &mut text, &mut steps)?;
    Ok(Measured::new(parsed.tree(), tokens.len() as u64, calls))
}

/// Parses a text that was not parsed before. Returns the parse and the states of the lines.
#[tactic(auto, using(crate::proofs::Edits::laws))]
fn first_parse<L>(
    alloc: Global,
    table: &BracketTable,
    text: &mut TextLines,
    steps: &mut Steps<L>,
) -> Result<(Parsed, States), AllocError>
    ensures tree { IfOk result (λ first.
        IsTreeOf (hidden_rows (plain_scanner table.now) text.old.lines.items) first.0.tree) }
    ensures tight { IfOk result (λ first. IsTight first.0.tree) }
    ensures marks { IfOk result (λ first.
        first.1.marks ≡ clean_marks (length text.old.lines.items)) }
    ensures lines { text.new.lines.items ≡ text.old.lines.items }
{
    let mut states = States::all_new(alloc, text.count());
    let settled = states.in_code();
    let old = OldReader::new(alloc, None, &settled);
    let parsed = reparse(alloc, old, &settled, table, &Hiding::none(), text, steps)?;
    let left = settled.into_states();
    states.adopt(left);
    Ok((parsed, states))
}

/// Replaces the middle line of the text, which was parsed, and marks it.
#[tactic(auto, using(crate::proofs::Edits::length_clean))]
fn edit_middle(text: &mut TextLines, states: &mut States, line: Units) -> Result<(), AllocError>
    requires { states.old.marks ≡ clean_marks (length text.old.lines.items) }
    ensures { OnOk result
        (IsMarkedEdit text.old.lines.items text.new.lines.items states.new.marks) }
{
    let middle = text.count() / 2 + 1;
    states.reserve(1)?;
    states.edit(middle, 1, 1);
    text.put(middle, line)
}
