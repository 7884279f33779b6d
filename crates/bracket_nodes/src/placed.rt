// A node of a tree at its place, and the search for the part of it that holds a place.
ghost use Rattle.std.specs.Prelude.{◌+◌, ◌<◌, ◌≤◌, ◌^◌, ◌↔◌, ◌≡◌, false, IsTrue, IfSome, IfNone};
ghost use Rattle.text_lengths.specs.Length.{no_length, length_plus, is_before};
ghost use Rattle.bracket_tree_rules.specs.Tree.{tree_length, wide, weight, nesting, IsTree};
ghost use Rattle.bracket_tree_rules.specs.Parts.{Holds, IsPart, NoPartHolds};
ghost use Rattle.bracket_nodes.specs.Parts.{reach};
ghost use Rattle.bracket_nodes.specs.Forms.{form_tree, breaks, IsSound};
ghost use Rattle.bracket_nodes.specs.Shapes.{link_tree};
ghost use Rattle.bracket_nodes.specs.Seen.{seen_tree};

use crate::kept::wide;
use crate::leaf::{Form, HIGHEST_BREAKS};
use crate::link::{Seen, seen_breaks};
use crate::node::{Inner, Link, Shape};
use std::rc::Rc;
use text_lengths::Length;

// A node and its start.
#[derive(Clone, Copy)]
pub(crate) struct Placed<'a> {
    pub start: Length,
    pub node: Seen<'a>,
}

impl<'a> Placed<'a> {
    /// Returns the whole tree, at the start of a text.
    pub fn whole(node: Seen<'a>) -> Placed<'a>
        requires { IsSound (seen_tree node) }
        ensures start { result.start ≡ no_length }
        ensures node { seen_tree result.node ≡ seen_tree node.entry }
        ensures tree { IsTree (seen_tree node.entry) }
        ensures light { weight (seen_tree node.entry) < 2 ^ 64 }
        ensures levels { nesting (seen_tree node.entry) < 2 ^ 64 }
    {
        let _kept = node.kept();
        Placed {
            start: Length {
                lines: 0,
                columns: 0,
            },
            node,
        }
    }

    #[tactic(auto, using(bracket_tree_rules::proofs::Parts::part_held))]
    /// Returns the part of the node that holds the place; None if no part does.
    pub fn part_at(&self, place: &Length) -> Option<Placed<'a>>
        requires tree { IsTree (seen_tree self.now.node) }
        requires fits { reach self.now < 2 ^ 64 }
        ensures part { IfSome result (λ part.
            IsPart self.now.start (seen_tree self.now.node) part.start (seen_tree part.node)) }
        ensures holds { IfSome result (λ part.
            Holds part.start (seen_tree part.node) place.now) }
        ensures none { IfNone result (NoPartHolds self.now.start (seen_tree self.now.node) place.now) }
    {
        if place.before(&self.start) {
            return None;
        }
        match self.node {
            Seen::Here(form) => self.part_of_leaf(form, place),
            Seen::Shared(inner) => self.part_of_inner(inner, place),
        }
    }

    // The same for a node without memory of its own, if it does not start after the place.
    fn part_of_leaf(&self, form: Form, place: &Length) -> Option<Placed<'a>>
        requires node { form_tree form ≡ seen_tree self.now.node }
        requires tree { IsTree (seen_tree self.now.node) }
        requires fits { reach self.now < 2 ^ 64 }
        requires from { is_before place.now self.now.start ≡ false }
        ensures part { IfSome result (λ part.
            IsPart self.now.start (seen_tree self.now.node) part.start (seen_tree part.node)) }
        ensures holds { IfSome result (λ part.
            Holds part.start (seen_tree part.node) place.now) }
        ensures none { IfNone result (NoPartHolds self.now.start (seen_tree self.now.node) place.now) }
    {
        match form {
            Form::Pair(pair) => {
                let inside = Seen::Here(pair.inside());
                self.inside(pair.opening as u64, inside).holding(place)
            }
            Form::Breaks(height) => self.half_at(height.min(HIGHEST_BREAKS), place),
            Form::Nothing | Form::Text(_) | Form::Stray(_, _) | Form::Capped(_, _) => None,
        }
    }

    #[tactic(auto, using(crate::proofs::Runs::breaks_halved))]
    // The same for a list of line breaks.
    fn half_at(&self, height: u8, place: &Length) -> Option<Placed<'a>>
        requires low { height ≤ HIGHEST_BREAKS }
        requires node { breaks height ≡ seen_tree self.now.node }
        requires tree { IsTree (seen_tree self.now.node) }
        requires fits { reach self.now < 2 ^ 64 }
        requires from { is_before place.now self.now.start ≡ false }
        ensures part { IfSome result (λ part.
            IsPart self.now.start (seen_tree self.now.node) part.start (seen_tree part.node)) }
        ensures holds { IfSome result (λ part.
            Holds part.start (seen_tree part.node) place.now) }
        ensures none { IfNone result (NoPartHolds self.now.start (seen_tree self.now.node) place.now) }
    {
        if height == 0 {
            return None;
        }
        let half = seen_breaks(height - 1);
        let first = self.first(half);
        let second = first.next(half);
        if place.before(&second.start) {
            return Some(first);
        }
        second.holding(place)
    }

    // The same for a node with memory of its own: parts that do not lead to the place are not copied.
    fn part_of_inner(&self, inner: &'a Rc<Inner>, place: &Length) -> Option<Placed<'a>>
        requires node { inner.now.value ≡ seen_tree self.now.node }
        requires tree { IsTree (seen_tree self.now.node) }
        requires fits { reach self.now < 2 ^ 64 }
        requires from { is_before place.now self.now.start ≡ false }
        ensures part { IfSome result (λ part.
            IsPart self.now.start (seen_tree self.now.node) part.start (seen_tree part.node)) }
        ensures holds { IfSome result (λ part.
            Holds part.start (seen_tree part.node) place.now) }
        ensures none { IfNone result (NoPartHolds self.now.start (seen_tree self.now.node) place.now) }
    {
        let inner: &Inner = inner;
        match &inner.shape {
            Shape::Pair(_, opening, inside, _) => {
                self.inside(*opening, inside.seen()).holding(place)
            }
            Shape::Two(a, b) => {
                let second = a.end(&self.start);
                if place.before(&second) {
                    return Some(self.first(a.seen()));
                }
                linked(second, b).holding(place)
            }
            Shape::Three(a, b, c) => {
                let second = a.end(&self.start);
                if place.before(&second) {
                    return Some(self.first(a.seen()));
                }
                let third = b.end(&second);
                if place.before(&third) {
                    return Some(linked(second, b));
                }
                linked(third, c).holding(place)
            }
            Shape::Text(_) | Shape::Stray(_, _) | Shape::Capped(_, _) => None,
        }
    }

    /// Returns `node` at the start of this one.
    pub fn first(&self, node: Seen<'a>) -> Placed<'a>
        ensures start { result.start ≡ self.now.start }
        ensures node { seen_tree result.node ≡ seen_tree node.entry }
    {
        Placed {
            start: self.start,
            node,
        }
    }

    /// Returns `node` after an opening bracket of width `opening` at the start of this one.
    pub fn inside(&self, opening: u64, node: Seen<'a>) -> Placed<'a>
        requires { self.now.start.lines + self.now.start.columns + opening < 2 ^ 64 }
        ensures start { result.start ≡ length_plus self.now.start (wide opening) }
        ensures node { seen_tree result.node ≡ seen_tree node.entry }
    {
        Placed {
            start: self.start.plus(&wide(opening)),
            node,
        }
    }

    /// Returns `node` at the end of this one.
    pub fn next(&self, node: Seen<'a>) -> Placed<'a>
        requires tree { IsTree (seen_tree self.now.node) }
        requires fits { reach self.now < 2 ^ 64 }
        ensures start { result.start ≡ length_plus self.now.start (tree_length (seen_tree self.now.node)) }
        ensures fits { result.start.lines + result.start.columns
            ≤ reach self.now }
        ensures node { seen_tree result.node ≡ seen_tree node.entry }
    {
        Placed {
            start: self.node.end(&self.start),
            node,
        }
    }

    // Returns the node, if it holds the place.
    fn holding(&self, place: &Length) -> Option<Placed<'a>>
        requires tree { IsTree (seen_tree self.now.node) }
        requires fits { reach self.now < 2 ^ 64 }
        ensures start { IfSome result (λ same. same.start ≡ self.now.start) }
        ensures node { IfSome result (λ same. (seen_tree same.node) ≡ (seen_tree self.now.node)) }
        ensures some { IfSome result (λ _. Holds self.now.start (seen_tree self.now.node) place.now) }
        ensures none { IfNone result (Holds self.now.start (seen_tree self.now.node) place.now → ⊥) }
    {
        if self.holds(place) { Some(*self) } else { None }
    }

    /// Whether the node starts at or before the place and ends after it.
    pub fn holds(&self, place: &Length) -> bool
        requires tree { IsTree (seen_tree self.now.node) }
        requires fits { reach self.now < 2 ^ 64 }
        ensures { IsTrue result ↔ Holds self.now.start (seen_tree self.now.node) place.now }
    {
        !place.before(&self.start) && place.before(&self.node.end(&self.start))
    }
}

// Returns the node of a link, starting at `start`.
fn linked(start: Length, link: &Link) -> Placed<'_>
    ensures start { result.start ≡ start }
    ensures node { seen_tree result.node ≡ link_tree link.now }
{
    Placed {
        start,
        node: link.seen(),
    }
}
