//! A reader of a tree that resumes from its last place.
ghost use Rattle.std.specs.Prelude.{◌≡◌, ◌<◌, ◌^◌, IfSome, IfNone};
ghost use Rattle.text_lengths.specs.Length.{no_length};
ghost use Rattle.bracket_tree_rules.specs.Tree.{tree_length, weight, IsTree};
ghost use Rattle.bracket_tree_rules.specs.Places.{IsLongest, NoneMayBeTaken};
ghost use Rattle.bracket_tree_rules.specs.Found.{IsTokenAt, NoBracketAt};
ghost use Rattle.bracket_tree_rules.specs.Parts.{ShowsNodes, ShowsBrackets};
ghost use Rattle.bracket_nodes.specs.Borrowed.{node_of};
ghost use Rattle.bracket_nodes.specs.Paths.{IsOnPath};
ghost use Rattle.bracket_nodes.specs.Seen.{seen_tree};

use crate::find::{NodeRef, Room, bracket_here, is_taken_here};
use crate::kinds::Kinds;
use crate::link::Seen;
use crate::node::Node;
use crate::placed::Placed;
use bracket_rules::Token;
use std::alloc::Global;
use std::marker::Model;
use text_lengths::Length;

/// A reader of a tree that starts at the start of a text: places are counted from there. Any place may be queried; at
/// ascending places it resumes from the last one. No call fails for lack of memory.
#[derive(Drop)]
pub struct NodeReader<'a> {
    root: Seen<'a>,
    // Nodes on the way to the last place, each inside the one before. They only shorten walks: any may be missing.
    path: Vec<Placed<'a>>,
}

impl<'a> Model for NodeReader<'a> {
    ghost use Rattle.std.specs.Prelude.{All};
    ghost use Rattle.bracket_tree_rules.specs.Tree.{Tree};
    ghost use Rattle.bracket_tree_rules.specs.TreeCode.{tree_code};
    ghost use Rattle.bracket_nodes.specs.Forms.{IsSound};
    ghost use Rattle.bracket_nodes.specs.Paths.{IsOnPath};
    ghost use Rattle.bracket_nodes.specs.Seen.{seen_tree};

    ghost Value = { Tree };

    ghost coded = { tree_code };

    ghost view = { λ r. seen_tree r.root };

    ghost invariant = { λ r. IsSound (seen_tree r.root)
        × All (IsOnPath (seen_tree r.root)) r.path.items };
}

impl<'a> NodeReader<'a> {
    pub fn new(alloc: Global, tree: &'a Node) -> NodeReader<'a>
        ensures { result ≡ tree.now }
    {
        NodeReader {
            root: tree.link.seen(),
            path: Vec::new(alloc),
        }
    }

    /// Returns the tree's length. Every tree meets the rules of nodes, and the weight of all its leaves is below 2^64.
    pub fn length(&self) -> Length
        ensures length { result ≡ tree_length self.now }
        ensures tree { IsTree self.now }
        ensures light { weight self.now < 2 ^ 64 }
    {
        self.root.kept().length
    }

    /// Finds the longest node at this place that may be taken where `lines` lines are left and `level` brackets are
    /// open, of the kinds `opened`; None if there is none.
    pub fn longest_at(
        &mut self,
        place: Length,
        lines: u64,
        opened: Kinds,
        level: u64,
    ) -> Option<NodeRef<'a>>
        ensures some { IfSome result (λ node.
            IsLongest no_length self.old place lines opened level (node_of node)) }
        ensures none { IfNone result (NoneMayBeTaken no_length self.old place lines opened level) }
        ensures same { self.new ≡ self.old }
    {
        let room = Room {
            lines,
            opened,
            level,
        };
        let mut here = self.back_before(&place);
        loop {
            if is_taken_here(&here, &place, &room) {
                return Some(NodeRef { seen: here.node });
            }
            here = here.part_at(&place)?;
            self.keep(here);
        }
    }

    /// Returns the bracket that starts at this place, as a token of its line; None if none starts there.
    pub fn bracket_at(&mut self, place: Length) -> Option<Token>
        ensures some { IfSome result (IsTokenAt no_length self.old place) }
        ensures none { IfNone result (NoBracketAt no_length self.old place) }
        ensures same { self.new ≡ self.old }
    {
        let mut here = self.back_to(&place);
        loop {
            if let Some(token) = bracket_here(&here, &place) {
                return Some(token);
            }
            here = here.part_at(&place)?;
            self.keep(here);
        }
    }

    // Returns the last node of the path that starts before the place and ends after it, or the whole tree. Nodes
    // after it are removed from the path.
    fn back_before(&mut self, place: &Length) -> Placed<'a>
        ensures shown { IsOnPath self.old result }
        ensures nodes { ShowsNodes self.old result.start (seen_tree result.node) place.now }
        ensures same { self.new ≡ self.old }
    {
        while let Some(&last) = self.path.last() {
            if last.start.before(place) && last.holds(place) {
                return last;
            }
            self.path.pop();
        }
        Placed::whole(self.root)
    }

    // Returns the last node of the path that holds the place, or the whole tree. Nodes after it are removed from the
    // path.
    fn back_to(&mut self, place: &Length) -> Placed<'a>
        ensures shown { IsOnPath self.old result }
        ensures brackets { ShowsBrackets self.old result.start (seen_tree result.node) place.now }
        ensures same { self.new ≡ self.old }
    {
        while let Some(&last) = self.path.last() {
            if last.holds(place) {
                return last;
            }
            self.path.pop();
        }
        Placed::whole(self.root)
    }

    // Appends a node to the path, if there is memory for it.
    fn keep(&mut self, here: Placed<'a>)
        requires { IsOnPath self.old here }
        ensures { self.new ≡ self.old }
    {
        let _ = self.path.push(here);
    }
}
