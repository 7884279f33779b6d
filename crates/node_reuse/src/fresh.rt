// Reads a new line.
ghost use Rattle.std.specs.Prelude.{◌≡◌, ◌-◌, ◌^◌, ◌<◌, ◌≤◌, true, IfOk, OnErr};
ghost use Rattle.bracket_rules.specs.Table.{AreInLine};
ghost use Rattle.bracket_tree_rules.specs.Tree.{text, wide};
ghost use Rattle.node_reuse.specs.Calls.{ReadsNewLine, PaysForNewLine};
ghost use Rattle.node_reuse.specs.Reader.{tokens_left};

use crate::line::Line;
use bracket_nodes::{Next, text_node};
use std::alloc::{AllocError, Global};
use text_lengths::Length;

const LINE_BREAK: Length = Length {
    lines: 1,
    columns: 0,
};

// Returns the next item of a line that was scanned: a bracket, the columns before it, the break, or, in the last
// line, the end of the text. An error leaves the reader where it was.
pub(crate) fn next_of_line(
    alloc: Global,
    last: bool,
    place: &mut Length,
    line: &mut Line,
) -> Result<Next, AllocError>
    requires scanned { line.old.scanned ≡ true }
    requires in_line { AreInLine place.old.columns line.old.columns (tokens_left line.old) }
    requires fits { place.old.lines < 2 ^ 62 }
    ensures reads { ReadsNewLine last place.old line.old place.new line.new result }
    ensures pays { PaysForNewLine place.old line.old place.new line.new result }
    ensures forward { place.old.lines ≤ place.new.lines }
    ensures in_line { line.new.scanned ≡ true → place.new.lines ≡ place.old.lines }
    ensures same_place { OnErr result (place.new ≡ place.old) }
    ensures same_line { OnErr result (line.new ≡ line.old) }
{
    let columns = line.columns;
    if let Some(token) = line.token() {
        if place.columns < token.at {
            return gap(alloc, place, token.at);
        }
        line.next += 1;
        place.columns += token.len;
        return Ok(Next::Bracket(token.kind, token.len, token.opening));
    }
    if !last {
        let node = text_node(alloc, LINE_BREAK)?;
        line.scanned = false;
        place.lines += 1;
        place.columns = 0;
        return Ok(Next::Ready(node));
    }
    if place.columns < columns {
        return gap(alloc, place, columns);
    }
    Ok(Next::End)
}

// Returns the columns of a line up to `column`, and moves on to it.
fn gap(alloc: Global, place: &mut Length, column: u64) -> Result<Next, AllocError>
    requires { place.old.columns < column }
    ensures gap { IfOk result (λ next. next ≡ Next.Ready (text (wide (column - place.old.columns)))) }
    ensures lines { place.new.lines ≡ place.old.lines }
    ensures column { IfOk result (λ _. place.new.columns ≡ column) }
    ensures same_place { OnErr result (place.new ≡ place.old) }
{
    let node = text_node(
        alloc,
        Length {
            lines: 0,
            columns: column - place.columns,
        },
    )?;
    place.columns = column;
    Ok(Next::Ready(node))
}
