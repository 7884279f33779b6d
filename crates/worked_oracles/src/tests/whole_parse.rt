//! The document's first parse: each line of the text is scanned, and nothing is reused.
ghost use Rattle.std.specs.Prelude.{◌≡◌, ◌<◌, ◌^◌, length, sum, IfOk};
ghost use Rattle.bracket_rules.specs.Table.{AreInLine};
ghost use Rattle.bracket_nodes.specs.ScannedLines.{AreLines, scanned_weights};

use super::flat_lines::first_line;
use bracket_nodes::{Node, ScannedLine, parse_lines};
use bracket_scan::{BracketTable, Hiding, LineState};
use std::alloc::{AllocError, Global};

/// Returns the bracket tree of the text. Comments and strings hide some of its brackets.
pub fn whole_parse(
    alloc: Global,
    table: &BracketTable,
    hiding: &Hiding,
    text: &[u16],
) -> Result<Node, AllocError> {
    let scans = scans(alloc, table, hiding, text)?;
    parse_lines(alloc, scans.as_slice())
}

/// Returns the scans of the lines. Each line begins in the state in which the one before it ended.
#[tactic(auto, using(crate::proofs::ScannedLines::one_more))]
fn scans(
    alloc: Global,
    table: &BracketTable,
    hiding: &Hiding,
    text: &[u16],
) -> Result<Vec<ScannedLine>, AllocError>
    ensures some { IfOk result (λ scans. 0 < length scans.items) }
    ensures lines { IfOk result (λ scans. AreLines scans.items) }
    ensures fits { IfOk result (λ scans. sum (scanned_weights scans.items) < 2 ^ 64) }
{
    let mut scans = Vec::new(alloc);
    let mut state = LineState::Code;
    let mut rest = text;
    while let (content, Some(after)) = first_line(rest) {
        scans.push(scan(alloc, table, hiding, &mut state, content)?)?;
        rest = after;
    }
    scans.push(scan(alloc, table, hiding, &mut state, rest)?)?;
    Ok(scans)
}

/// Scans a line that begins in `state`, and updates `state` to the one in which the line ends.
#[tactic(auto, using(crate::proofs::ScannedLines::scan_in_line))]
fn scan(
    alloc: Global,
    table: &BracketTable,
    hiding: &Hiding,
    state: &mut LineState,
    content: &[u16],
) -> Result<ScannedLine, AllocError>
    ensures columns { IfOk result (λ scan. scan.columns ≡ length content.now) }
    ensures in_line { IfOk result (λ scan. AreInLine 0 scan.columns scan.tokens.items) }
{
    let mut tokens = Vec::new(alloc);
    *state = table.scan_from(hiding, *state, content, &mut tokens)?;
    Ok(ScannedLine {
        tokens,
        columns: content.len() as u64,
    })
}
