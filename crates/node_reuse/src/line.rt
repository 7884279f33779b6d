// The line being read.
ghost use Rattle.std.specs.Prelude.{◌≡◌, ◌+◌, ◌^◌, ◌<◌, ◌≤◌, ◌++◌, ◌∷◌, [], drop, true, false, length, IfOk, OnOk, IfSome, IfNone};
ghost use Rattle.bracket_rules.specs.Table.{is_table};
ghost use Rattle.hiding_rules.specs.Hidden.{scanner};
ghost use Rattle.hiding_rules.specs.States.{line_states};
ghost use Rattle.line_states.specs.Lines.{content_at};
ghost use Rattle.node_reuse.specs.Texts.{line_tokens};
ghost use Rattle.node_reuse.specs.Reader.{asked_if, tokens_left};

use bracket_rules::Token;
use bracket_scan::{BracketTable, Hiding};
use line_states::{Lines, Settled};
use std::alloc::{AllocError, Global};

// What a reader knows of the line that it reads. All lines are read into the same buffers.
#[derive(Drop)]
pub(crate) struct Line {
    // The number of lines asked for, including this one if it was.
    pub asked: u64,
    // Whether the line was asked for and scanned: if not, nothing is known of it.
    pub scanned: bool,
    pub content: Vec<u16>,
    // The line's brackets, and the number of them already taken.
    pub tokens: Vec<Token>,
    pub next: usize,
    pub columns: u64,
}

impl Line {
    // Returns the next of the line's brackets.
    pub fn token(&self) -> Option<Token>
        ensures some { IfSome result (λ token. tokens_left self.now
            ≡ token ∷ drop (self.now.next + 1) self.now.tokens.items) }
        ensures none { IfNone result (tokens_left self.now ≡ []) }
    {
        let tokens = self.tokens.as_slice();
        if self.next < tokens.len() {
            Some(tokens[self.next])
        } else {
            None
        }
    }
}

// Returns the state before the first line: no line was asked for, and none is scanned. It scans an empty line, which
// takes no memory; that proves that the table is valid.
pub(crate) fn first_line(alloc: Global, table: &BracketTable) -> Result<Line, AllocError>
    ensures asked { IfOk result (λ line. line.asked ≡ 0) }
    ensures scanned { IfOk result (λ line. line.scanned ≡ false) }
    ensures table { is_table table.now ≡ true }
{
    let content = Vec::new(alloc);
    let mut tokens = Vec::new(alloc);
    table.scan(&content, &mut tokens)?;
    Ok(Line {
        asked: 0,
        scanned: false,
        content,
        tokens,
        next: 0,
        columns: 0,
    })
}

// The rules for scanning the lines of a text: the table, what hides brackets, and the state in which each line begins.
#[derive(Clone, Copy)]
pub(crate) struct LineRules<'a> {
    pub table: &'a BracketTable,
    pub hiding: &'a Hiding,
    pub settled: &'a Settled<'a>,
}

// Asks for line `n`, from 1, once, and scans it. After an error the line is scanned if it was asked for, but nothing
// is known of it.
pub(crate) fn scan<Q: Lines>(
    rules: LineRules<'_>,
    lines: &mut Q,
    n: u64,
    line: &mut Line,
) -> Result<(), AllocError>
    requires first { 1 ≤ n }
    requires there { n ≤ length (Q.state lines.old).contents }
    requires states { rules.settled.now.states.begins
        ≡ line_states (scanner rules.table.now rules.hiding.now) (Q.state lines.old).contents }
    requires count { line.old.asked + 1 < 2 ^ 64 }
    requires unscanned { line.old.scanned ≡ false }
    ensures tokens { OnOk result (tokens_left line.new
        ≡ line_tokens (scanner rules.entry.table.now rules.entry.hiding.now)
        (Q.state lines.old).contents n) }
    ensures columns { OnOk result
        (line.new.columns ≡ length (content_at n (Q.state lines.old).contents)) }
    ensures scanned { OnOk result (line.new.scanned ≡ true) }
    ensures count { line.new.asked
        ≡ line.old.asked + length (asked_if line.new.scanned n) }
    ensures asked { (Q.state lines.new).asked
        ≡ (Q.state lines.old).asked ++ asked_if line.new.scanned n }
    ensures contents { (Q.state lines.new).contents ≡ (Q.state lines.old).contents }
{
    line.content.clear();
    lines.line(n, &mut line.content)?;
    line.scanned = true;
    line.asked += 1;
    line.columns = line.content.len() as u64;
    line.next = 0;
    line.tokens.clear();
    let state = rules.settled.state(n);
    rules
        .table
        .scan_from(rules.hiding, state, &line.content, &mut line.tokens)?;
    Ok(())
}
