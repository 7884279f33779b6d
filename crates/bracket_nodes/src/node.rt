// The nodes of a bracket tree.
ghost use Rattle.std.specs.Prelude.{◌≡◌, ◌+◌, ◌<◌, ◌≤◌, ◌^◌, ℕ, false, IfOk};
ghost use Rattle.bracket_tree_rules.specs.Told.{has_kind};
ghost use Rattle.bracket_tree_rules.specs.Tree.{tree_length, is_missing, is_closed, is_capped, nesting, height, highest, weight, is_nothing, IsTree};
ghost use Rattle.bracket_nodes.specs.Kept.{Keeps};
ghost use Rattle.bracket_nodes.specs.Shapes.{link_tree, tree_size};
ghost use Rattle.bracket_nodes.specs.Bounds.{IsBounded};

use crate::kept::Kept;
use crate::kinds::Kinds;
use crate::leaf::Leaf;
use std::alloc::AllocError;
use std::marker::Model;
use std::rc::Rc;
use text_lengths::Length;

/// A node of a bracket tree. It is immutable, and its parts may belong to other trees too.
#[derive(Drop)]
pub struct Node {
    pub(crate) link: Link,
}

impl Model for Node {
    ghost use Rattle.bracket_tree_rules.specs.Tree.{Tree};
    ghost use Rattle.bracket_tree_rules.specs.TreeCode.{tree_code};

    ghost Value = { Tree };

    ghost coded = { tree_code };

    ghost use Rattle.bracket_nodes.specs.Shapes.{link_tree};

    ghost view = { λ node. link_tree node.link };
}

impl Node {
    /// Returns the same tree, shared.
    pub fn share(&self) -> Result<Node, AllocError>
        ensures { IfOk result (λ node. node ≡ self.now) }
    {
        let link = self.link.seen().share()?;
        Ok(Node { link })
    }

    /// Returns the tree's length. Every tree meets the rules of nodes, and the weight of all its leaves is below 2^64.
    pub fn length(&self) -> Length
        ensures length { result ≡ tree_length self.now }
        ensures tree { IsTree self.now }
        ensures light { weight self.now < 2 ^ 64 }
    {
        self.link.kept().length
    }

    /// Returns the kinds of the unexpected closing brackets.
    pub fn missing(&self) -> Kinds
        ensures { (k : ℕ) → has_kind result k ≡ is_missing k self.now }
    {
        self.link.kept().missing
    }

    /// Whether every pair has its closing bracket.
    pub fn closed(&self) -> bool
        ensures { result ≡ is_closed self.now }
    {
        self.link.kept().closed
    }

    /// Whether the tree has a bracket beyond the limit on open brackets.
    pub fn capped(&self) -> bool
        ensures { result ≡ is_capped self.now }
    {
        self.link.kept().capped
    }

    /// Returns the greatest depth to which pairs are nested.
    pub fn nesting(&self) -> u64
        ensures { result ≡ nesting self.now }
    {
        self.link.kept().nesting
    }

    /// Returns the height of a list of several nodes, else 0.
    pub fn height(&self) -> u64
        ensures { result ≡ height self.now }
    {
        u64::from(self.link.kept().height)
    }

    /// Returns the greatest height of a list in the tree, including the tree itself and the lists inside pairs.
    pub fn highest(&self) -> u64
        ensures highest { result ≡ highest self.now }
        ensures low { 2 ^ result ≤ weight self.now + 1 }
    {
        u64::from(self.link.kept().highest)
    }
}

// A link to a node: the node itself, if it takes no memory of its own.
#[cycle(inner)]
#[derive(Drop)]
pub(crate) enum Link {
    Here(Leaf),
    Shared(Rc<Inner>),
}

// A node with what it keeps of its subtree.
#[cycle(inner)]
pub(crate) struct Inner {
    pub shape: Shape,
    pub kept: Kept,
}

// The form of a node with memory of its own.
#[cycle(inner)]
#[derive(Drop)]
pub(crate) enum Shape {
    Text(Length),
    // The kind, the width of the opening bracket, the content, and the width of the closing bracket, if there is one.
    Pair(u64, u64, Link, Option<u64>),
    Stray(u64, u64),
    Capped(u64, u64),
    Two(Link, Link),
    Three(Link, Link, Link),
}

impl Model for Inner {
    ghost use Rattle.bracket_tree_rules.specs.Tree.{Tree};
    ghost use Rattle.bracket_tree_rules.specs.TreeCode.{tree_code};

    ghost Value = { Tree };

    ghost coded = { tree_code };

    ghost use Rattle.bracket_nodes.specs.Shapes.{tree_of, tree_size};
    ghost use Rattle.bracket_nodes.specs.Kept.{Keeps};

    ghost view = { λ inner. tree_of inner.shape };

    ghost invariant = { λ inner. Keeps (tree_of inner.shape) inner.kept };

    ghost size = { tree_size };

    ghost use Rattle.bracket_nodes.specs.Falls.{depth_le-size};

    ghost size_decreases = { λ inner h. depth_le-size inner.shape };
}

impl Inner {
    /// Returns what the node keeps of its subtree. The node is not the empty list, which takes no memory.
    #[inline(always)]
    pub fn kept(&self) -> Kept
        ensures keeps { Keeps self.now result }
        ensures bounded { IsBounded (weight self.now) result }
        ensures some { is_nothing self.now ≡ false }
    {
        self.kept
    }
}

// The loop continues with the longest part that takes memory. So a nested call drops a part of at most half the lines
// or, within a line, at most half the columns. The depth of the calls is at most the number of binary digits of
// these, however deep the tree is.
impl Drop for Inner {
    fn drop(mut self) {
        loop {
            let Inner { shape, kept: _ } = self;
            let longest = match shape {
                Shape::Pair(_, _, inside, _) => inside,
                Shape::Two(a, b) => longer_first(a, b).0,
                Shape::Three(a, b, c) => {
                    let (first, _shorter) = longer_first(a, b);
                    longer_first(first, c).0
                }
                _ => return,
            };
            let Link::Shared(longest) = longest else {
                return;
            };
            match Rc::into_inner(longest) {
                Some(inner) => self = inner,
                None => return,
            }
        }
    }
}

// Returns the two links, the longer node first; a node with memory of its own comes before one without.
fn longer_first(a: Link, b: Link) -> (Link, Link)
    ensures { tree_size (link_tree result.0) + tree_size (link_tree result.1)
        ≡ tree_size (link_tree a) + tree_size (link_tree b) }
{
    if a.is_leaf() || !b.is_leaf() && a.length().before(&b.length()) {
        (b, a)
    } else {
        (a, b)
    }
}
