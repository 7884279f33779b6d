//! The parse of a text of which some lines changed.

ghost use Rattle.std.specs.Prelude.{◌≡◌, ◌<◌, ◌++◌, true, length, IfOk, OnOk, OnErr};
ghost use Rattle.bracket_rules.specs.Table.{is_table};
ghost use Rattle.hiding_rules.specs.Hidden.{scanner};
ghost use Rattle.hiding_rules.specs.Rows.{hidden_rows};
ghost use Rattle.hiding_rules.specs.States.{line_states};
ghost use Rattle.bracket_tree_rules.specs.Told.{IsTreeOf};
ghost use Rattle.bracket_tree_rules.specs.Weights.{tree_weights, AreCovered};
ghost use Rattle.node_reuse.specs.Paying.{TakesFewSteps};
ghost use Rattle.node_reuse.specs.Reading.{AgreesIfThere};
ghost use Rattle.line_states.specs.Lines.{text_weights, new_lines, AsksFront};
ghost use Rattle.node_reuse.specs.Texts.{IsTight};

use crate::line::{LineRules, first_line};
use crate::old::Old;
use crate::reader::Reader;
use bracket_nodes::{Node, parse};
use bracket_scan::{BracketTable, Hiding};
use line_states::{Lines, Settled};
use std::alloc::{AllocError, Global};
use std::marker::Model;
use steps::Steps;
use text_lengths::Length;

/// The tree of a text, and the number of its lines that the parse asked for.
#[derive(Drop)]
pub struct Parsed {
    tree: Node,
    asked: u64,
}

impl Model for Parsed {
    ghost use Rattle.node_reuse.specs.ParsedTree.{ParsedTree, parsed_tree_code};

    ghost Value = { ParsedTree };

    ghost coded = { parsed_tree_code };

    ghost view = { λ p. record { tree = p.tree; asked = p.asked } };
}

impl Parsed {
    /// Returns the tree. It starts at the start of the text.
    pub fn tree(&self) -> &Node
        ensures { result.now ≡ self.now.tree }
    {
        &self.tree
    }

    /// Returns the number of lines of the text that were asked for.
    pub fn asked(&self) -> u64
        ensures { result ≡ self.now.asked }
    {
        self.asked
    }
}

/// Parses the current text, whose lines were settled, by the table and what hides brackets, and reuses what it may of
/// an old text that agrees with it under the marks. Each new or restarted line is asked for once, in order; no other
/// line is. Each query of the old text is one step. In each line the tree's leaves weigh at most the line's units and
/// one for its break.
///
/// The only error is lack of memory: then some of those lines were asked for, and nothing else changed.
pub fn reparse<O: Old + Drop, Q: Lines, L>(
    alloc: Global,
    mut old: O,
    settled: &Settled<'_>,
    table: &BracketTable,
    hiding: &Hiding,
    lines: &mut Q,
    steps: &mut Steps<L>,
) -> Result<Parsed, AllocError>
    requires some { 0 < length (Q.state lines.old).contents }
    requires marks { (O.text old).marks ≡ settled.now.marks }
    requires count { length settled.now.marks ≡ length (Q.state lines.old).contents }
    requires states { settled.now.states.begins
        ≡ line_states (scanner table.now hiding.now) (Q.state lines.old).contents }
    requires agrees { AgreesIfThere (O.text old).tree settled.now.marks
        (hidden_rows (scanner table.now hiding.now) (Q.state lines.old).contents) }
    ensures tree { IfOk result (λ parsed.
        IsTreeOf (hidden_rows (scanner table.now hiding.now) (Q.state lines.old).contents) parsed.tree) }
    ensures tight { IfOk result (λ parsed. IsTight parsed.tree) }
    ensures light { IfOk result (λ parsed.
        AreCovered (tree_weights parsed.tree) (text_weights (Q.state lines.old).contents)) }
    ensures table { OnOk result (is_table table.now ≡ true) }
    ensures asked { OnOk result
        ((Q.state lines.new).asked ≡ (Q.state lines.old).asked ++ new_lines settled.now.marks) }
    ensures count { IfOk result (λ parsed. parsed.asked ≡ length (new_lines settled.now.marks)) }
    ensures front { OnErr result (AsksFront (new_lines settled.now.marks)
        (Q.state lines.old).asked (Q.state lines.new).asked) }
    ensures contents { (Q.state lines.new).contents ≡ (Q.state lines.old).contents }
    ensures steps { TakesFewSteps (O.text old) (scanner table.now hiding.now) (Q.state lines.old).contents
        (new_lines settled.now.marks) steps.old steps.new }
{
    let mut line = first_line(alloc, table)?;
    let place = Length {
        lines: 0,
        columns: 0,
    };
    let mut reader = Reader {
        text: &mut old,
        rules: LineRules {
            table,
            hiding,
            settled,
        },
        lines,
        steps,
        place,
        new_to: 0,
        line: &mut line,
    };
    let tree = parse(alloc, &mut reader)?;
    Ok(Parsed {
        tree,
        asked: line.asked,
    })
}
