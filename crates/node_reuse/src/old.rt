//! An old text as a reader sees it.

ghost use Rattle.std.specs.Prelude.{◌≡◌, ◌+◌, ◌^◌, ◌<◌, drop, length, IfSome, IfNone};
ghost use Rattle.std.specs.Option.{option_copied};
ghost use Rattle.text_lengths.specs.Length.{length_plus};
ghost use Rattle.bracket_tree_rules.specs.Tree.{tree_length};
ghost use Rattle.mark_rules.specs.Marks.{kept_run};
ghost use Rattle.bracket_nodes.specs.Borrowed.{node_of};
ghost use Rattle.node_reuse.specs.OldText.{IsOldPlace, IsNewLine, Fits64, IsLongestReusable, NoneReusable, IsOldToken, NoOldBracket};

use crate::marks::LineMarks;
use bracket_nodes::{Kinds, Node, NodeReader, NodeRef};
use bracket_rules::Token;
use line_states::Settled;
use mark_rules::Mark;
use std::alloc::Global;
use std::marker::Model;
use steps::Steps;
use text_lengths::Length;

/// An old text, queried at places of the current text. Lines are counted from 0. Each call takes one step and leaves
/// the text unchanged; none fails for lack of memory.
pub trait Old {
    ghost use Rattle.std.specs.Borrow.{sem};
    ghost use Rattle.std.specs.Io.BufRead.{Rests};
    ghost use Rattle.mark_rules.specs.Marks.{new_run};
    ghost use Rattle.node_reuse.specs.OldText.{OldText, Fits64, IsLongestReusable, NoneReusable, IsOldToken, NoOldBracket};

    ghost text: { Self → OldText };

    /// Finds the longest node of the old tree that may be used at this place of the current text, where `level`
    /// brackets are open, of the kinds `opened`; None if there is none.
    fn longest_at<L>(
        &mut self,
        place: Length,
        opened: Kinds,
        level: u64,
        steps: &mut Steps<L>,
    ) -> Option<NodeRef<'_>>
        requires { place.lines < length (text self.old).marks }
        ensures some { IfSome result (λ node.
            IsLongestReusable (text self.old) place opened level (node_of node)) }
        ensures none { IfNone result (NoneReusable (text self.old) place opened level) }
        ensures fits { IfSome result (λ node.
            Fits64 (length_plus place (tree_length (node_of node)))) }
        ensures step { steps.new ≡ steps.old + 1 }
        ensures* same { sem 𝓛 (Rests Self.row self.entry (λ after. text after ≡ text self.old)) };

    /// Returns the length of the run of new lines from this one on; 0 if this line is kept: then it corresponds to an
    /// old line with the same brackets.
    fn new_from<L>(&mut self, line: u64, steps: &mut Steps<L>) -> u64
        requires { line < length (text self.old).marks }
        ensures run { result ≡ new_run (drop line (text self.old).marks) }
        ensures step { steps.new ≡ steps.old + 1 }
        ensures same { text self.new ≡ text self.old };

    /// Returns the old bracket at this place of the current text, as a token of its line; None if none starts there
    /// or the line is new.
    fn token_at<L>(&mut self, place: Length, steps: &mut Steps<L>) -> Option<Token>
        requires { place.lines < length (text self.old).marks }
        ensures some { IfSome result (IsOldToken (text self.old) place) }
        ensures none { IfNone result (NoOldBracket (text self.old) place) }
        ensures fits { IfSome result (λ token. place.columns + token.len < 2 ^ 64) }
        ensures step { steps.new ≡ steps.old + 1 }
        ensures same { text self.new ≡ text self.old };
}

// A place of an old text, and the length of the run of kept lines from its line on.
#[derive(Clone, Copy)]
pub(crate) struct OldPlace {
    pub place: Length,
    pub lines: u64,
}

/// The tree of an old text, if there is one, and how each line of the current text relates to it.
#[derive(Drop)]
pub struct OldReader<'a> {
    tree: Option<NodeReader<'a>>,
    marks: LineMarks<'a>,
}

impl<'a> Model for OldReader<'a> {
    ghost use Rattle.node_reuse.specs.OldText.{OldText, old_text_code};

    ghost Value = { OldText };

    ghost coded = { old_text_code };

    ghost view = { λ r. record { tree = r.tree; marks = r.marks } };
}

impl<'a> OldReader<'a> {
    /// Makes the reader of this tree, with the marks of settled lines.
    pub fn new(alloc: Global, tree: Option<&'a Node>, settled: &'a Settled<'a>) -> OldReader<'a>
        ensures tree { result.tree ≡ option_copied tree.entry }
        ensures marks { result.marks ≡ settled.now.marks }
    {
        let tree = match tree {
            Some(tree) => Some(NodeReader::new(alloc, tree)),
            None => None,
        };
        let marks = LineMarks::new(settled.hunks());
        OldReader { tree, marks }
    }

    // Returns the place of the old text from which this place is kept.
    fn old_place(&mut self, place: Length) -> Option<OldPlace>
        requires { place.lines < length self.old.marks }
        ensures fits { length self.old.marks < 2 ^ 62 }
        ensures some { IfSome result (λ old. IsOldPlace self.old.marks place old.place) }
        ensures run { IfSome result (λ old.
            old.lines ≡ kept_run (drop place.lines self.old.marks)) }
        ensures none { IfNone result (IsNewLine self.old.marks place) }
        ensures same { self.new ≡ self.old }
    {
        let (mark, lines) = self.marks.at(place.lines);
        let Mark::Kept(number) = mark else {
            return None;
        };
        let place = Length {
            lines: number - 1,
            columns: place.columns,
        };
        Some(OldPlace { place, lines })
    }

    #[tactic(auto, using(crate::proofs::OldPlaces::node_laws))]
    fn node_at(&mut self, place: Length, opened: Kinds, level: u64) -> Option<NodeRef<'a>>
        requires { place.lines < length self.old.marks }
        ensures some { IfSome result (λ node.
            IsLongestReusable self.old place opened level (node_of node)) }
        ensures none { IfNone result (NoneReusable self.old place opened level) }
        ensures fits { IfSome result (λ node.
            Fits64 (length_plus place (tree_length (node_of node)))) }
        ensures same { self.new ≡ self.old }
    {
        let old = self.old_place(place)?;
        let tree = self.tree.as_mut()?;
        // Establishes that the tree's length fits 64 bits.
        let _length = tree.length();
        tree.longest_at(old.place, old.lines, opened, level)
    }

    #[tactic(auto, using(crate::proofs::OldPlaces::bracket_laws))]
    fn bracket_at(&mut self, place: Length) -> Option<Token>
        requires { place.lines < length self.old.marks }
        ensures some { IfSome result (IsOldToken self.old place) }
        ensures none { IfNone result (NoOldBracket self.old place) }
        ensures fits { IfSome result (λ token. place.columns + token.len < 2 ^ 64) }
        ensures same { self.new ≡ self.old }
    {
        let old = self.old_place(place)?;
        let tree = self.tree.as_mut()?;
        let _length = tree.length();
        tree.bracket_at(old.place)
    }

    // Shortens the lifetime of the node to the borrow of the reader.
    fn lent<'b>(&'b self, found: Option<NodeRef<'a>>) -> Option<NodeRef<'b>>
        ensures { result ≡ found.entry }
    {
        found
    }
}

impl Old for OldReader<'_> {
    ghost text = { λ old. old };

    fn longest_at<L>(
        &mut self,
        place: Length,
        opened: Kinds,
        level: u64,
        steps: &mut Steps<L>,
    ) -> Option<NodeRef<'_>> {
        steps.tick();
        let found = self.node_at(place, opened, level);
        self.lent(found)
    }

    fn new_from<L>(&mut self, line: u64, steps: &mut Steps<L>) -> u64 {
        steps.tick();
        self.marks.new_from(line)
    }

    fn token_at<L>(&mut self, place: Length, steps: &mut Steps<L>) -> Option<Token> {
        steps.tick();
        self.bracket_at(place)
    }
}
