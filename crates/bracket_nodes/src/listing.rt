// Lists the entries of a range of lines: walks down to the parts that reach these lines.
ghost use Rattle.std.specs.Prelude.{◌≡◌, ℕ, ◌+◌, ◌*◌, ◌<◌, ◌≤◌, ◌++◌, length, take, true, All, OnOk, OnErr};
ghost use Rattle.bracket_rules.specs.Parse.{bracket, Spot, is_between, entries_between, entries_of, judged_opening};
ghost use Rattle.bracket_tree_rules.specs.Tree.{tree_story, closing_entries, closing_spot};
ghost use Rattle.bracket_nodes.specs.Shapes.{tree_size};
ghost use Rattle.bracket_nodes.specs.Listing.{all_steps, HasRoomLeft, LeavesFirst, ListsFirst};
ghost use Rattle.bracket_nodes.specs.Parts.{entries_at};
ghost use Rattle.bracket_nodes.specs.Seen.{seen_tree};
ghost use Rattle.bracket_nodes.specs.Walks.{HasRoom, chosen, entry_if};

use crate::kept::wide;
use crate::link::Shown;
use crate::node::Node;
use crate::placed::Placed;
use bracket_rules::{Entry, Status};
use std::alloc::AllocError;
use text_lengths::Length;

// The lines `from` to `to`, both counted from 0 and both included.
#[derive(Clone, Copy)]
struct LineRange {
    from: u64,
    to: u64,
}

impl LineRange {
    // Whether the entry starts in one of these lines.
    fn has(self, entry: &Entry) -> bool
        ensures { result ≡ is_between self.from self.to entry.now }
    {
        self.from <= entry.place.lines && entry.place.lines <= self.to
    }
}

impl Node {
    /// Appends the entries that start in the lines `from` to `to` of the tree, both counted from 0 and both included,
    /// in text order. If memory runs out, `out` is unchanged.
    pub fn entries(&self, from: u64, to: u64, out: &mut Vec<Entry>) -> Result<(), AllocError>
        ensures ok { OnOk result (out.new.items
            ≡ out.old.items ++ entries_between from to (entries_of (tree_story self.now))) }
        ensures err { OnErr result (out.new.items ≡ out.old.items) }
    {
        let count = out.len();
        let pushed = push_entries(Placed::whole(self.link.seen()), LineRange { from, to }, out);
        if pushed.is_err() {
            out.truncate(count);
        }
        pushed
    }
}

// Work left for a listing: a part of the tree with its level, or one entry.
#[derive(Clone, Copy)]
enum Left<'a> {
    Part(Placed<'a>, u64),
    One(Entry),
}

// Appends the entries of a whole tree that start in these lines; if memory runs out, only some of them.
fn push_entries(whole: Placed<'_>, lines: LineRange, out: &mut Vec<Entry>) -> Result<(), AllocError>
    requires { HasRoom whole.start 0 (seen_tree whole.node) }
    ensures ok { OnOk result (out.new.items
        ≡ out.old.items ++ chosen lines.from lines.to (entries_at whole.entry 0)) }
    ensures err { OnErr result (take (length out.old.items) out.new.items ≡ out.old.items) }
{
    // A stack: the last element is listed next.
    let mut left = Vec::new(*out.allocator());
    left.push(Left::Part(whole, 0))?;
    while let Some(next) = left.pop() {
        match next {
            Left::Part(here, level) => push_first(here, level, lines, &mut left, out)?,
            Left::One(entry) => push_if(lines, entry, out)?,
        }
    }
    Ok(())
}

#[tactic(auto, using(crate::proofs::EntryWalk::entry_steps))]
// Appends the part's own first entry, if it starts in these lines, and pushes the rest of the part to `left`. A part
// outside these lines is skipped.
fn push_first<'a>(
    here: Placed<'a>,
    level: u64,
    lines: LineRange,
    left: &mut Vec<Left<'a>>,
    out: &mut Vec<Entry>,
) -> Result<(), AllocError>
    requires { HasRoom here.start level (seen_tree here.node) }
    ensures listed { OnOk result (ListsFirst lines (entries_at here.entry level)
        out.old.items left.old.items out.new.items left.new.items) }
    ensures room { OnOk result (All HasRoomLeft left.old.items → All HasRoomLeft left.new.items) }
    ensures fewer { OnOk result (all_steps left.new.items
        < all_steps left.old.items + 2 * tree_size (seen_tree here.entry.node)) }
    ensures front { take (length out.old.items) out.new.items ≡ out.old.items }
{
    let node = here.node;
    let end = node.end(&here.start);
    if end.lines < lines.from || lines.to < here.start.lines {
        return Ok(());
    }
    match node.shown() {
        Shown::Pair(kind, opening, inside, closing) => {
            let start = here.start.plus(&wide(opening));
            push_if(
                lines,
                opening_entry(here.start, opening, kind, level, closing),
                out,
            )?;
            leave_closing(left, inside.end(&start), kind, level, closing)?;
            let inside = Placed {
                start,
                node: inside,
            };
            leave(left, inside, level + 1)?;
        }
        Shown::Stray(kind, width) => {
            let entry = entry(here.start, width, kind, Status::Unexpected, level);
            push_if(lines, entry, out)?;
        }
        Shown::Two(a, b) => {
            let first = here.first(a);
            leave(left, first.next(b), level)?;
            leave(left, first, level)?;
        }
        Shown::Three(a, b, c) => {
            let first = here.first(a);
            let second = first.next(b);
            leave(left, second.next(c), level)?;
            leave(left, second, level)?;
            leave(left, first, level)?;
        }
        _ => {}
    }
    Ok(())
}

#[tactic(auto, using(crate::proofs::ListedEntries::pushes))]
// Pushes a part to `left`, to be listed next.
fn leave<'a>(left: &mut Vec<Left<'a>>, here: Placed<'a>, level: u64) -> Result<(), AllocError>
    requires { HasRoom here.start level (seen_tree here.node) }
    ensures entries { OnOk result
        (LeavesFirst (entries_at here.entry level) left.old.items left.new.items) }
    ensures room { OnOk result (All HasRoomLeft left.old.items → All HasRoomLeft left.new.items) }
    ensures steps { OnOk result (all_steps left.new.items
        ≡ 2 * tree_size (seen_tree here.entry.node) + all_steps left.old.items) }
{
    left.push(Left::Part(here, level))?;
    Ok(())
}

#[tactic(auto, using(crate::proofs::ListedEntries::pushes))]
// Pushes the closing bracket of a pair to `left`, if there is one.
fn leave_closing(
    left: &mut Vec<Left<'_>>,
    place: Length,
    kind: u64,
    level: u64,
    closing: Option<u64>,
) -> Result<(), AllocError>
    ensures entries { (opener : Spot) → OnOk result (LeavesFirst
        (closing_entries place kind level closing opener) left.old.items left.new.items) }
    ensures room { OnOk result (All HasRoomLeft left.old.items → All HasRoomLeft left.new.items) }
    ensures steps { OnOk result (all_steps left.new.items ≤ 1 + all_steps left.old.items) }
{
    let Some(len) = closing else {
        return Ok(());
    };
    left.push(Left::One(entry(place, len, kind, Status::PairedClosing, level)))?;
    Ok(())
}

fn opening_entry(place: Length, len: u64, kind: u64, level: u64, closing: Option<u64>) -> Entry
    ensures { (closer : Length) → result
        ≡ (judged_opening (bracket place len kind true) level (closing_spot closer closing)).entry }
{
    let status = if closing.is_some() {
        Status::PairedOpening
    } else {
        Status::Unclosed
    };
    entry(place, len, kind, status, level)
}

fn entry(place: Length, len: u64, kind: u64, status: Status, level: u64) -> Entry
    ensures { result
        ≡ record { place = place; len = len; kind = kind; status = status; level = level } }
{
    Entry {
        place,
        len,
        kind,
        status,
        level,
    }
}

fn push_if(lines: LineRange, entry: Entry, out: &mut Vec<Entry>) -> Result<(), AllocError>
    ensures ok { OnOk result (out.new.items
        ≡ out.old.items ++ entry_if (is_between lines.from lines.to entry) entry) }
    ensures err { OnErr result (take (length out.old.items) out.new.items ≡ out.old.items) }
{
    if lines.has(&entry) {
        out.push(entry)?;
    }
    Ok(())
}
