// Reads a kept line.
ghost use Rattle.std.specs.Prelude.{◌≡◌, ◌+◌, ◌<◌, ◌≤◌, length, OnErr};
ghost use Rattle.node_reuse.specs.Calls.{ReadsKeptLine, PaysForKeptLine};

use crate::old::Old;
use bracket_nodes::{Kinds, Next};
use bracket_rules::MOST_OPEN;
use std::alloc::AllocError;
use steps::Steps;
use text_lengths::Length;

// Returns the next item of a kept line, where `level` brackets are open, of the kinds `opened`: the longest old node
// that may be taken there, else the old bracket, else the end of the text. An error leaves the reader where it was.
pub(crate) fn next_of_old<O: Old, L>(
    old: &mut O,
    place: &mut Length,
    opened: Kinds,
    level: u64,
    steps: &mut Steps<L>,
) -> Result<Next, AllocError>
    requires level { level ≤ MOST_OPEN }
    requires there { place.old.lines < length (O.text old.old).marks }
    ensures reads { ReadsKeptLine (O.text old.old) place.old place.new opened level result }
    ensures pays { PaysForKeptLine (O.text old.old)
        place.old steps.old place.new steps.new level result }
    ensures steps { steps.new ≤ steps.old + 2 }
    ensures forward { place.old.lines ≤ place.new.lines }
    ensures same_text { O.text old.new ≡ O.text old.old }
    ensures same_place { OnErr result (place.new ≡ place.old) }
{
    if let Some(node) = old.longest_at(*place, opened, level, steps) {
        let length = node.length();
        let node = node.share()?;
        *place = place.plus(&length);
        return Ok(Next::Ready(node));
    }
    if let Some(token) = old.token_at(*place, steps) {
        place.columns += token.len;
        return Ok(Next::Bracket(token.kind, token.len, token.opening));
    }
    Ok(Next::End)
}
