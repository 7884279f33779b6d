// Queries of a reader on a node of an old tree: whether it may be taken at a place, and which bracket of its own
// starts there.
ghost use Rattle.std.specs.Prelude.{◌≡◌, ◌≢◌, ◌+◌, ◌<◌, ◌≤◌, ◌^◌, ◌⊎◌, ◌↔◌, Some, None, IsTrue, IfOk, IfSome, IfNone};
ghost use Rattle.bracket_tree_rules.specs.Tree.{tree_length, IsTree};
ghost use Rattle.bracket_tree_rules.specs.Places.{touched, MayBeTaken};
ghost use Rattle.bracket_tree_rules.specs.Found.{token_at, IsTakenHere, IsTokenAt};
ghost use Rattle.bracket_tree_rules.specs.Parts.{NoOwnBracketAt};
ghost use Rattle.bracket_nodes.specs.Borrowed.{node_of};
ghost use Rattle.bracket_nodes.specs.Parts.{reach};
ghost use Rattle.bracket_nodes.specs.Forms.{IsSound};
ghost use Rattle.bracket_nodes.specs.Seen.{seen_tree};

use crate::kept::wide;
use crate::kinds::Kinds;
use crate::link::{Seen, Shown};
use crate::node::Node;
use crate::placed::Placed;
use bracket_rules::{MOST_OPEN, Token};
use std::alloc::AllocError;
use text_lengths::Length;

/// A node of a tree, borrowed.
#[derive(Drop)]
pub struct NodeRef<'a> {
    pub(crate) seen: Seen<'a>,
}

impl<'a> NodeRef<'a> {
    /// Returns the same tree, shared.
    pub fn share(&self) -> Result<Node, AllocError>
        ensures { IfOk result (λ node. node ≡ node_of self.now) }
    {
        let link = self.seen.share_checked()?;
        Ok(Node { link })
    }

    /// Returns the node's length.
    pub fn length(&self) -> Length
        ensures { result ≡ tree_length (node_of self.now) }
    {
        self.seen.length()
    }
}

// The conditions at a place: the number of lines left, the kinds of the open brackets, and the number of open brackets.
#[derive(Clone, Copy)]
pub(crate) struct Room {
    pub lines: u64,
    pub opened: Kinds,
    pub level: u64,
}

// Whether the node starts at the place and may be taken there.
pub(crate) fn is_taken_here(here: &Placed, place: &Length, room: &Room) -> bool
    requires { IsSound (seen_tree here.now.node) }
    ensures { IsTrue result ↔ IsTakenHere here.now.start (seen_tree here.now.node) place.now
        room.now.lines room.now.opened room.now.level }
{
    here.start == *place && may_be_taken(&here.node, room)
}

fn may_be_taken(node: &Seen, room: &Room) -> bool
    requires { IsSound (seen_tree node.now) }
    ensures { IsTrue result
        ↔ MayBeTaken room.now.lines room.now.opened room.now.level (seen_tree node.now) }
{
    if node.is_nothing() {
        return false;
    }
    let kept = node.kept();
    kept.closed
        && !kept.capped
        && is_within(&kept.length, room.lines)
        && has_room(room.level, kept.nesting)
        && kept.missing.is_apart_from(room.opened)
}

// Whether a text of this length touches at most `lines` lines.
fn is_within(length: &Length, lines: u64) -> bool
    ensures { IsTrue result ↔ (touched length.now ≤ lines) }
{
    if length.columns == 0 {
        length.lines <= lines
    } else {
        length.lines < lines
    }
}

// Whether brackets nested `nesting` deep may open at `level`: together at most `MOST_OPEN`.
fn has_room(level: u64, nesting: u64) -> bool
    ensures { IsTrue result ↔ (level + nesting ≤ MOST_OPEN) }
{
    level <= MOST_OPEN && nesting <= MOST_OPEN - level
}

#[tactic(auto, using(bracket_tree_rules::proofs::BracketAt::own_brackets))]
// Returns the bracket at the place that belongs to the node itself and not to a part of it; None if there is none.
pub(crate) fn bracket_here(here: &Placed, place: &Length) -> Option<Token>
    requires tree { IsTree (seen_tree here.now.node) }
    requires fits { reach here.now < 2 ^ 64 }
    ensures some { IfSome result (IsTokenAt here.now.start (seen_tree here.now.node) place.now) }
    ensures none { IfNone result (NoOwnBracketAt here.now.start (seen_tree here.now.node) place.now) }
{
    let node = here.node;
    match node.shown() {
        Shown::Pair(kind, opening, inside, closing) => {
            if here.start == *place {
                return Some(token_at(place, opening, kind, true));
            }
            let ends = inside.end(&here.start.plus(&wide(opening)));
            let width = closing_at(closing, &ends, place)?;
            Some(token_at(place, width, kind, false))
        }
        Shown::Stray(kind, width) if here.start == *place => {
            Some(token_at(place, width, kind, false))
        }
        Shown::Capped(kind, width) if here.start == *place => {
            Some(token_at(place, width, kind, true))
        }
        _ => None,
    }
}

// Returns the width of the closing bracket if there is one and it starts at the place, which is when `ends` is the
// place.
fn closing_at(closing: Option<u64>, ends: &Length, place: &Length) -> Option<u64>
    ensures some { IfSome result (λ width. (closing ≡ Some width) × (ends.now ≡ place.now)) }
    ensures none { IfNone result ((closing ≡ None) ⊎ (ends.now ≢ place.now)) }
{
    closing.filter(|_| ends == place)
}

// Returns the token, in its line, of a bracket at this place.
fn token_at(place: &Length, len: u64, kind: u64, opening: bool) -> Token
    ensures { result ≡ token_at place.now len kind opening }
{
    Token {
        at: place.columns,
        len,
        kind,
        opening,
    }
}
