// The parser: makes a tree from a source.
ghost use Rattle.std.specs.Prelude.{◌≡◌, ◌+◌, ◌<◌, ◌≤◌, ◌^◌, [], false, IfOk, OnOk};
ghost use Rattle.bracket_rules.specs.TextRows.{HasRow};
ghost use Rattle.bracket_tree_rules.specs.Told.{IsTreeOf};
ghost use Rattle.bracket_tree_rules.specs.Tree.{capped, IsLone, is_missing, weight};
ghost use Rattle.bracket_nodes.specs.Joining.{joined_weight, IsFinished};
ghost use Rattle.bracket_tree_rules.specs.Weights.{tree_weights, AreCovered};
ghost use Rattle.bracket_nodes.specs.Source.{AsksOn, Comes, Listed, Takes, HasWidth, weights_ahead, weight_ahead, stop_width, closing_taken, pair_taken};
ghost use Rattle.bracket_nodes.specs.Paying.{HasRoom, Spends, PaysFor, PaysUpTo, PaysTaken};

use crate::joiner::Joiner;
use crate::kept::wide;
use crate::kinds::Kinds;
use crate::makers::{capped_node, pair_node, stray_node};
use crate::node::Node;
use bracket_rules::MOST_OPEN;
use std::alloc::{AllocError, Global};

/// The next item of a source.
#[derive(Drop)]
pub enum Next {
    /// The end of the text.
    End,
    /// A node that may be used at this place as it is.
    Ready(Node),
    /// A bracket: its kind, its width, and whether it opens.
    Bracket(u64, u64, bool),
}

/// A text as brackets and ready nodes, from its start to its end. The source may have to ask for some of its lines.
pub trait Source {
    ghost use Rattle.bracket_nodes.specs.Source.{Ahead, Comes, AsksOn};
    ghost use Rattle.bracket_nodes.specs.Paying.{Paying, HasRoom, Spends, PaysFor};

    ghost ahead: { Self → Ahead };

    ghost paying: { Self → Paying };

    // A condition that the source keeps as long as none of its calls fails.
    ghost stands: { Self → Type 0 };

    /// Takes the next item from the source, at a place where `level` brackets are open, of the kinds `opened`. After
    /// an error nothing more may be taken.
    fn next(&mut self, alloc: Global, opened: Kinds, level: u64) -> Result<Next, AllocError>
        requires level { level ≤ MOST_OPEN }
        requires stands { stands self.old }
        ensures comes { IfOk result (Comes (ahead self.old) (ahead self.new) opened level) }
        ensures stands { OnOk result (stands self.new) }
        ensures asks { AsksOn (ahead self.old).asking (ahead self.new).asking }
        ensures pays { HasRoom (paying self.old) level
            → IfOk result (PaysFor (paying self.old) (paying self.new)) }
        ensures spends { HasRoom (paying self.old) level
            → Spends (paying self.old) (paying self.new) };
}

// The reason why a list ended.
#[derive(Clone, Copy)]
pub(crate) enum Stop {
    AtEnd,
    // A closing bracket of a kind that is open: its kind and its width.
    AtClosing(u64, u64),
}

// The result of parsing one item.
#[derive(Drop)]
pub(crate) enum Taken {
    One(Node),
    // A node after which the list ends too.
    Last(Node, Stop),
    Nothing(Stop),
}

#[derive(Drop)]
pub(crate) struct Part {
    pub list: Node,
    pub stop: Stop,
}

/// Returns the tree of the text that the source has ahead. In each line its leaves weigh at most what the source has
/// there. On success every line left to ask for was asked for; after an error, some of them.
pub fn parse<S: Source>(alloc: Global, source: &mut S) -> Result<Node, AllocError>
    requires stands { S.stands source.old }
    requires some { HasRow (S.ahead source.old).rows }
    requires fits { weight_ahead (S.ahead source.old) < 2 ^ 64 }
    ensures tree { IfOk result (IsTreeOf (S.ahead source.old).rows) }
    ensures light { IfOk result (λ tree.
        AreCovered (tree_weights tree) (weights_ahead (S.ahead source.old))) }
    ensures stands { OnOk result (S.stands source.new) }
    ensures asks { AsksOn (S.ahead source.old).asking (S.ahead source.new).asking }
    ensures whole { OnOk result ((S.ahead source.new).asking.left ≡ []) }
    ensures spends { HasRoom (S.paying source.old) 0
        → Spends (S.paying source.old) (S.paying source.new) }
{
    let part = parse_list(alloc, source, Kinds::none(), 0)?;
    Ok(part.list)
}

// Parses the list up to the end, or up to a closing bracket of an open kind.
#[cycle(parser)]
fn parse_list<S: Source>(
    alloc: Global,
    source: &mut S,
    opened: Kinds,
    level: u64,
) -> Result<Part, AllocError>
    requires level { level ≤ MOST_OPEN }
    requires stands { S.stands source.old }
    requires some { HasRow (S.ahead source.old).rows }
    requires fits { weight_ahead (S.ahead source.old) < 2 ^ 64 }
    ensures listed { IfOk result (λ part.
        Listed (S.ahead source.old) (S.ahead source.new) opened level part.list part.stop) }
    ensures stands { OnOk result (S.stands source.new) }
    ensures asks { AsksOn (S.ahead source.old).asking (S.ahead source.new).asking }
    ensures pays { HasRoom (S.paying source.old) level
        → IfOk result (λ part. PaysUpTo (S.paying source.old) (S.paying source.new) part.stop) }
    ensures spends { HasRoom (S.paying source.old) level
        → Spends (S.paying source.old) (S.paying source.new) }
{
    let mut joiner = Joiner::new(alloc);
    loop {
        match take(alloc, source, opened, level)? {
            Taken::One(node) => joiner.push(alloc, node)?,
            Taken::Last(node, stop) => {
                joiner.push(alloc, node)?;
                return finished(alloc, joiner, stop);
            }
            Taken::Nothing(stop) => return finished(alloc, joiner, stop),
        }
    }
}

#[cycle(parser)]
fn take<S: Source>(
    alloc: Global,
    source: &mut S,
    opened: Kinds,
    level: u64,
) -> Result<Taken, AllocError>
    requires level { level ≤ MOST_OPEN }
    requires stands { S.stands source.old }
    requires some { HasRow (S.ahead source.old).rows }
    requires fits { weight_ahead (S.ahead source.old) < 2 ^ 64 }
    ensures takes { IfOk result (Takes (S.ahead source.old) (S.ahead source.new) opened level) }
    ensures stands { OnOk result (S.stands source.new) }
    ensures asks { AsksOn (S.ahead source.old).asking (S.ahead source.new).asking }
    ensures pays { HasRoom (S.paying source.old) level
        → IfOk result (PaysTaken (S.paying source.old) (S.paying source.new)) }
    ensures spends { HasRoom (S.paying source.old) level
        → Spends (S.paying source.old) (S.paying source.new) }
{
    let (kind, width, opening) = match next_of(alloc, source, opened, level)? {
        Next::End => return Ok(Taken::Nothing(Stop::AtEnd)),
        Next::Ready(node) => return Ok(Taken::One(node)),
        Next::Bracket(kind, width, opening) => (kind, width, opening),
    };
    if !opening {
        return closing(alloc, opened, kind, width);
    }
    if level == MOST_OPEN {
        return too_deep(alloc, kind, width);
    }
    let part = parse_list(alloc, source, opened.with(kind), level + 1)?;
    paired(alloc, kind, width, part)
}

// Takes the next item from the source. Not inlined, like the calls that make nodes: this keeps the stack frame of a
// list, of which there is one for each open bracket, small.
#[inline(never)]
fn next_of<S: Source>(
    alloc: Global,
    source: &mut S,
    opened: Kinds,
    level: u64,
) -> Result<Next, AllocError>
    requires level { level ≤ MOST_OPEN }
    requires stands { S.stands source.old }
    ensures comes { IfOk result (Comes (S.ahead source.old) (S.ahead source.new) opened level) }
    ensures stands { OnOk result (S.stands source.new) }
    ensures asks { AsksOn (S.ahead source.old).asking (S.ahead source.new).asking }
    ensures pays { HasRoom (S.paying source.old) level
        → IfOk result (PaysFor (S.paying source.old) (S.paying source.new)) }
    ensures spends { HasRoom (S.paying source.old) level
        → Spends (S.paying source.old) (S.paying source.new) }
{
    source.next(alloc, opened, level)
}

// Ends the list if the closing bracket's kind is open; else makes an unexpected closing bracket.
#[inline(never)]
fn closing(alloc: Global, opened: Kinds, kind: u64, width: u64) -> Result<Taken, AllocError>
    requires { IsLone kind width }
    ensures { IfOk result (λ taken. taken ≡ closing_taken opened kind width) }
{
    if opened.has(kind) {
        return Ok(Taken::Nothing(Stop::AtClosing(kind, width)));
    }
    Ok(Taken::One(stray_node(alloc, kind, wide(width))?))
}

// Makes an opening bracket beyond the limit on open brackets.
#[inline(never)]
fn too_deep(alloc: Global, kind: u64, width: u64) -> Result<Taken, AllocError>
    requires { IsLone kind width }
    ensures { IfOk result (λ taken. taken ≡ Taken.One (capped kind width)) }
{
    Ok(Taken::One(capped_node(alloc, kind, wide(width))?))
}

// Returns the list of the nodes read, with the reason why it ended.
#[inline(never)]
fn finished(alloc: Global, joiner: Joiner, stop: Stop) -> Result<Part, AllocError>
    requires { joined_weight joiner < 2 ^ 64 }
    ensures { IfOk result (IsFinished joiner stop) }
{
    let list = joiner.finish(alloc)?;
    Ok(Part { list, stop })
}

// Makes the pair of an opening bracket and the list after it. Unless a bracket of its kind ended that list, the pair
// is unclosed and the outer list ends too.
#[inline(never)]
fn paired(alloc: Global, kind: u64, width: u64, part: Part) -> Result<Taken, AllocError>
    requires opening { IsLone kind width }
    requires not_missing { is_missing kind part.list ≡ false }
    requires stop { HasWidth part.stop }
    requires fits { width + (weight part.list + stop_width part.stop) < 2 ^ 64 }
    ensures { IfOk result (λ taken. taken ≡ pair_taken kind width part.list part.stop) }
{
    let opening = wide(width);
    match part.stop {
        Stop::AtClosing(other, closing) if other == kind => {
            let closing = Some(wide(closing));
            Ok(Taken::One(pair_node(alloc, kind, opening, part.list, closing)?))
        }
        stop => Ok(Taken::Last(pair_node(alloc, kind, opening, part.list, None)?, stop)),
    }
}
