// Links to nodes, and borrowed nodes.
ghost use Rattle.std.specs.Prelude.{◌≡◌, ◌+◌, ◌<◌, ◌≤◌, ◌^◌, IfOk};
ghost use Rattle.text_lengths.specs.Length.{length_plus};
ghost use Rattle.bracket_tree_rules.specs.Tree.{tree_length, height, is_nothing, weight, IsTree};
ghost use Rattle.bracket_nodes.specs.Bounds.{IsBounded};
ghost use Rattle.bracket_nodes.specs.Forms.{form_tree, breaks, IsSound};
ghost use Rattle.bracket_nodes.specs.Kept.{Keeps};
ghost use Rattle.bracket_nodes.specs.Shapes.{link_tree};
ghost use Rattle.bracket_nodes.specs.Seen.{seen_tree, shown_tree};

use crate::kept::{Kept, wide};
use crate::leaf::{Form, HIGHEST_BREAKS, LINE_BREAK, Leaf};
use crate::node::{Inner, Link, Shape};
use std::alloc::AllocError;
use std::rc::Rc;
use text_lengths::Length;

impl Link {
    /// Returns the same node, borrowed.
    #[inline(always)]
    pub fn seen(&self) -> Seen<'_>
        ensures same { seen_tree result ≡ link_tree self.now }
        ensures sound { IsSound (link_tree self.now) }
    {
        match self {
            Link::Here(leaf) => Seen::Here(leaf.form()),
            Link::Shared(inner) => {
                let _kept = inner.kept();
                Seen::Shared(inner)
            }
        }
    }

    /// Whether the node takes no memory of its own.
    pub fn is_leaf(&self) -> bool {
        matches!(self, Link::Here(_))
    }

    /// Returns what is kept of the node.
    pub fn kept(&self) -> Kept
        ensures keeps { Keeps (link_tree self.now) result }
        ensures bounded { IsBounded (weight (link_tree self.now)) result }
    {
        self.seen().kept()
    }

    /// Returns the node's length.
    pub fn length(&self) -> Length
        ensures { result ≡ tree_length (link_tree self.now) }
    {
        self.seen().length()
    }

    /// Returns the end of the node if it starts at `start`.
    pub fn end(&self, start: &Length) -> Length
        requires { start.now.lines + start.now.columns + weight (link_tree self.now) < 2 ^ 64 }
        ensures end { result ≡ length_plus start.now (tree_length (link_tree self.now)) }
        ensures fits { result.lines + result.columns
            ≤ start.now.lines + start.now.columns + weight (link_tree self.now) }
    {
        self.seen().end(start)
    }

    /// Returns the height of a list of several nodes, else 0.
    pub fn height(&self) -> u8
        ensures { result ≡ height (link_tree self.now) }
    {
        self.seen().height()
    }

    pub fn is_nothing(&self) -> bool
        ensures { result ≡ is_nothing (link_tree self.now) }
    {
        self.seen().is_nothing()
    }
}

/// A node borrowed from a tree: a reference to a node with memory of its own, or a copy of one without.
#[derive(Clone, Copy)]
pub(crate) enum Seen<'a> {
    Here(Form),
    Shared(&'a Rc<Inner>),
}

/// The form of a node, with its parts.
#[derive(Clone, Copy)]
pub(crate) enum Shown<'a> {
    Text(Length),
    // The kind, the width of the opening bracket, the content, and the width of the closing bracket, if there is one.
    Pair(u64, u64, Seen<'a>, Option<u64>),
    Stray(u64, u64),
    Capped(u64, u64),
    Nothing,
    Two(Seen<'a>, Seen<'a>),
    Three(Seen<'a>, Seen<'a>, Seen<'a>),
}

impl<'a> Seen<'a> {
    /// Returns the same node, shared.
    pub fn share(&self) -> Result<Link, AllocError>
        requires { IsSound (seen_tree self.now) }
        ensures { IfOk result (λ link. link_tree link ≡ seen_tree self.now) }
    {
        match *self {
            Seen::Here(form) => Ok(Link::Here(Leaf::new(form))),
            Seen::Shared(inner) => Ok(Link::Shared(inner.clone()?)),
        }
    }

    /// Returns the same node, shared, without a precondition: a copied leaf is checked. Every node in use is sound,
    /// so the only error is lack of memory, as in `share`.
    pub fn share_checked(&self) -> Result<Link, AllocError>
        ensures { IfOk result (λ link. link_tree link ≡ seen_tree self.now) }
    {
        match *self {
            Seen::Here(form) if form.is_sound() => Ok(Link::Here(Leaf::new(form))),
            Seen::Here(_) => Err(AllocError),
            Seen::Shared(inner) => Ok(Link::Shared(inner.clone()?)),
        }
    }

    #[tactic(auto, using(bracket_tree_rules::proofs::Weights::length_within))]
    /// Returns the node's length.
    pub fn length(&self) -> Length
        ensures length { result ≡ tree_length (seen_tree self.now) }
        ensures within { result.lines + result.columns ≤ weight (seen_tree self.now) }
    {
        match *self {
            Seen::Here(form) => form.length(),
            Seen::Shared(inner) => inner.kept().length,
        }
    }

    /// Returns what is kept of the node.
    pub fn kept(&self) -> Kept
        requires { IsSound (seen_tree self.now) }
        ensures keeps { Keeps (seen_tree self.now) result }
        ensures bounded { IsBounded (weight (seen_tree self.now)) result }
    {
        match *self {
            Seen::Here(form) => form.kept(),
            Seen::Shared(inner) => inner.kept(),
        }
    }

    /// Returns the height of a list of several nodes, else 0.
    pub fn height(&self) -> u8
        ensures { result ≡ height (seen_tree self.now) }
    {
        match *self {
            Seen::Here(form) => form.height(),
            Seen::Shared(inner) => inner.kept().height,
        }
    }

    pub fn is_nothing(&self) -> bool
        ensures { result ≡ is_nothing (seen_tree self.now) }
    {
        match *self {
            Seen::Here(form) => form.is_nothing(),
            Seen::Shared(inner) => {
                // The empty list never has a block of its own.
                let _kept = inner.kept();
                false
            }
        }
    }

    /// Returns the end of the node if it starts at `start`.
    pub fn end(&self, start: &Length) -> Length
        requires tree { IsTree (seen_tree self.now) }
        requires fits { start.now.lines + start.now.columns + weight (seen_tree self.now) < 2 ^ 64 }
        ensures end { result ≡ length_plus start.now (tree_length (seen_tree self.now)) }
        ensures fits { result.lines + result.columns
            ≤ start.now.lines + start.now.columns + weight (seen_tree self.now) }
    {
        start.plus(&self.length())
    }

    /// Returns the form of the node, with its parts. Inlined, so that it need not be built: each caller takes it
    /// apart at once.
    #[inline(always)]
    pub fn shown(&self) -> Shown<'a>
        ensures { shown_tree result ≡ seen_tree self.now }
    {
        match *self {
            Seen::Here(form) => shown_form(form),
            Seen::Shared(inner) => shown_inner(inner),
        }
    }
}

#[inline(always)]
fn shown_form<'a>(form: Form) -> Shown<'a>
    ensures { shown_tree result ≡ form_tree form }
{
    match form {
        Form::Nothing => Shown::Nothing,
        Form::Text(columns) => Shown::Text(wide(columns as u64)),
        Form::Breaks(height) => shown_breaks(height.min(HIGHEST_BREAKS)),
        Form::Stray(kind, width) => Shown::Stray(kind as u64, width as u64),
        Form::Capped(kind, width) => Shown::Capped(kind as u64, width as u64),
        Form::Pair(pair) => Shown::Pair(
            pair.kind as u64,
            pair.opening as u64,
            Seen::Here(pair.inside()),
            pair.closing(),
        ),
    }
}

fn shown_breaks<'a>(height: u8) -> Shown<'a>
    requires { height ≤ HIGHEST_BREAKS }
    ensures { shown_tree result ≡ breaks height }
{
    if height == 0 {
        return Shown::Text(LINE_BREAK);
    }
    let first = seen_breaks(height - 1);
    let second = seen_breaks(height - 1);
    Shown::Two(first, second)
}

pub(crate) fn seen_breaks<'a>(height: u8) -> Seen<'a>
    requires { height ≤ HIGHEST_BREAKS }
    ensures { seen_tree result ≡ breaks height }
{
    Seen::Here(Form::Breaks(height))
}

#[inline(always)]
fn shown_inner(inner: &Rc<Inner>) -> Shown<'_>
    ensures { shown_tree result ≡ inner.now.value }
{
    let inner: &Inner = inner;
    match &inner.shape {
        Shape::Text(length) => Shown::Text(*length),
        Shape::Pair(kind, opening, inside, closing) => {
            Shown::Pair(*kind, *opening, inside.seen(), *closing)
        }
        Shape::Stray(kind, width) => Shown::Stray(*kind, *width),
        Shape::Capped(kind, width) => Shown::Capped(*kind, *width),
        Shape::Two(a, b) => Shown::Two(a.seen(), b.seen()),
        Shape::Three(a, b, c) => Shown::Three(a.seen(), b.seen(), c.seen()),
    }
}
