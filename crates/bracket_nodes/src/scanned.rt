// A whole text as a source, from the scans of its lines.
ghost use Rattle.std.specs.Prelude.{◌≡◌, ◌<◌, ◌^◌, [], length, sum, IfOk};
ghost use Rattle.bracket_tree_rules.specs.Told.{IsTreeOf};
ghost use Rattle.bracket_tree_rules.specs.Weights.{tree_weights, AreCovered};
ghost use Rattle.bracket_nodes.specs.ScannedLines.{AreLines, scanned_rows, scanned_weights};

use crate::kept::wide;
use crate::kinds::Kinds;
use crate::leaf::LINE_BREAK;
use crate::makers::text_node;
use crate::node::Node;
use crate::parser::{Next, Source, parse};
use bracket_rules::Token;
use std::alloc::{AllocError, Global};
use std::marker::Model;
use text_lengths::Length;

/// A line of a text: its brackets in order, and its number of columns.
#[derive(Drop, Debug)]
pub struct ScannedLine {
    pub tokens: Vec<Token>,
    pub columns: u64,
}

// The rest of a text.
#[derive(Drop)]
struct ScannedText<'a> {
    // The brackets left in the current line, and the column reached in it.
    tokens: &'a [Token],
    column: u64,
    columns: u64,
    // The lines after it.
    lines: &'a [ScannedLine],
}

impl<'a> Model for ScannedText<'a> {
    ghost use Rattle.bracket_nodes.specs.Source.{Ahead};

    ghost Value = { Ahead };

    ghost use Rattle.bracket_rules.specs.Table.{AreInLine};
    ghost use Rattle.bracket_nodes.specs.ScannedLines.{AreLines, ahead_of};

    ghost view = { λ s. ahead_of s.column s.tokens.now s.columns s.lines.now };

    ghost invariant = { λ s. AreInLine s.column s.columns s.tokens.now × AreLines s.lines.now };
}

impl<'a> Source for ScannedText<'a> {
    ghost use Rattle.std.specs.Prelude.{⊤};
    ghost use Rattle.bracket_nodes.specs.Source.{Ahead};
    ghost use Rattle.bracket_nodes.specs.Paying.{nothing_known};

    ghost ahead = { λ s. s };

    ghost paying = { λ _. nothing_known };

    ghost stands = { λ _. ⊤ };

    fn next(&mut self, alloc: Global, _opened: Kinds, _level: u64) -> Result<Next, AllocError> {
        if let [token, rest @ ..] = self.tokens {
            if self.column < token.at {
                let node = text_node(alloc, wide(token.at - self.column))?;
                self.column = token.at;
                return Ok(Next::Ready(node));
            }
            self.tokens = rest;
            self.column += token.len;
            return Ok(Next::Bracket(token.kind, token.len, token.opening));
        }
        if let [line, rest @ ..] = self.lines {
            let node = text_node(alloc, LINE_BREAK)?;
            self.tokens = &line.tokens;
            self.column = 0;
            self.columns = line.columns;
            self.lines = rest;
            return Ok(Next::Ready(node));
        }
        if self.column < self.columns {
            let node = text_node(alloc, wide(self.columns - self.column))?;
            self.column = self.columns;
            return Ok(Next::Ready(node));
        }
        Ok(Next::End)
    }
}

/// Returns the tree of a text of these lines, at least one. In each line its leaves weigh at most one unit for each
/// column and one for the break.
pub fn parse_lines(alloc: Global, lines: &[ScannedLine]) -> Result<Node, AllocError>
    requires some { 0 < length lines.now }
    requires lines { AreLines lines.now }
    requires fits { sum (scanned_weights lines.now) < 2 ^ 64 }
    ensures tree { IfOk result (IsTreeOf (scanned_rows lines.now)) }
    ensures light { IfOk result (λ tree.
        AreCovered (tree_weights tree) (scanned_weights lines.now)) }
{
    let first = &lines[0];
    let mut text = ScannedText {
        tokens: &first.tokens,
        column: 0,
        columns: first.columns,
        lines: &lines[1..],
    };
    parse(alloc, &mut text)
}
