// Lists as (2,3)-trees, and how to join two of them.
ghost use Rattle.std.specs.Prelude.{◌≡◌, ◌+◌, ◌<◌, ◌≤◌, ◌^◌, ◌++◌, false, IfOk, IsTrue, suc};
ghost use Rattle.bracket_tree_rules.specs.Tree.{two, three, height, weight, is_nothing, IsEven, IsTree, items};
ghost use Rattle.bracket_nodes.specs.Shapes.{link_tree};
ghost use Rattle.bracket_nodes.specs.Seen.{seen_tree};
ghost use Rattle.bracket_nodes.specs.Lists.{AreListsOf, sibling_height, sibling_items, sibling_weight, Joins, JoinsThree};

use crate::kept::both;
use crate::link::{Seen, Shown};
use crate::node::{Inner, Link, Shape};
use std::alloc::{AllocError, Global};
use std::rc::Rc;

// One list, or two neighbours of the same height.
#[derive(Drop)]
pub(crate) enum Siblings {
    One(Link),
    Two(Link, Link),
}

pub(crate) fn two_of(alloc: Global, a: Link, b: Link) -> Result<Link, AllocError>
    requires even { IsEven (link_tree a) (link_tree b) }
    requires fits { weight (link_tree a) + weight (link_tree b) < 2 ^ 64 }
    ensures { IfOk result (λ list. (link_tree list) ≡ two (link_tree a) (link_tree b)) }
{
    if let (Link::Here(first), Link::Here(second)) = (&a, &b) {
        if let Some(leaf) = first.two(*second) {
            return Ok(Link::Here(leaf));
        }
    }
    let first = a.kept();
    let second = b.kept();
    let kept = both(first, second, first.height + 1);
    let shape = Shape::Two(a, b);
    Ok(Link::Shared(Rc::new(alloc, Inner { shape, kept })?))
}

pub(crate) fn three_of(alloc: Global, a: Link, b: Link, c: Link) -> Result<Link, AllocError>
    requires first { IsEven (link_tree a) (link_tree b) }
    requires second { IsEven (link_tree b) (link_tree c) }
    requires fits { weight (link_tree a) + (weight (link_tree b) + weight (link_tree c)) < 2 ^ 64 }
    ensures { IfOk result (λ list. (link_tree list) ≡ three (link_tree a) (link_tree b) (link_tree c)) }
{
    let first = a.kept();
    let rest = both(b.kept(), c.kept(), first.height);
    let kept = both(first, rest, first.height + 1);
    let shape = Shape::Three(a, b, c);
    Ok(Link::Shared(Rc::new(alloc, Inner { shape, kept })?))
}

// Groups the lists of both, in order, as the parts of one or two lists one level higher.
fn grouped(alloc: Global, first: Siblings, second: Siblings) -> Result<Siblings, AllocError>
    requires first { AreListsOf (sibling_height first) first }
    requires second { AreListsOf (sibling_height first) second }
    requires fits { sibling_weight first + sibling_weight second < 2 ^ 64 }
    ensures level { IfOk result (AreListsOf (suc (sibling_height first))) }
    ensures in_order { IfOk result (λ lists.
        sibling_items lists ≡ sibling_items first ++ sibling_items second) }
    ensures weighs { IfOk result (λ lists.
        sibling_weight lists ≡ sibling_weight first + sibling_weight second) }
{
    match (first, second) {
        (Siblings::One(a), Siblings::One(b)) => Ok(Siblings::One(two_of(alloc, a, b)?)),
        (Siblings::One(a), Siblings::Two(b, c)) | (Siblings::Two(a, b), Siblings::One(c)) => {
            Ok(Siblings::One(three_of(alloc, a, b, c)?))
        }
        (Siblings::Two(a, b), Siblings::Two(c, d)) => {
            let first = two_of(alloc, a, b)?;
            let second = two_of(alloc, c, d)?;
            Ok(Siblings::Two(first, second))
        }
    }
}

// Returns `list` with the nodes of `last` appended, as one or two lists of its height. `last` is at most as high.
fn append(alloc: Global, list: &Seen, last: Link) -> Result<Siblings, AllocError>
    requires lower { height (link_tree last) ≤ height (seen_tree list.now) }
    requires tree { IsTree (seen_tree list.now) }
    requires some { is_nothing (seen_tree list.now) ≡ false }
    requires last_some { is_nothing (link_tree last) ≡ false }
    requires fits { weight (seen_tree list.now) + weight (link_tree last) < 2 ^ 64 }
    ensures level { IfOk result (AreListsOf (height (seen_tree list.now))) }
    ensures in_order { IfOk result (λ lists.
        sibling_items lists ≡ items (seen_tree list.now) ++ items (link_tree last)) }
    ensures weighs { IfOk result (λ lists.
        sibling_weight lists ≡ weight (seen_tree list.now) + weight (link_tree last)) }
{
    if list.height() == last.height() {
        return Ok(Siblings::Two(list.share()?, last));
    }
    match list.shown() {
        Shown::Two(a, b) => {
            let grown = append(alloc, &b, last)?;
            grouped(alloc, Siblings::One(a.share()?), grown)
        }
        Shown::Three(a, b, c) => {
            let grown = append(alloc, &c, last)?;
            grouped(alloc, Siblings::Two(a.share()?, b.share()?), grown)
        }
        _ => unreachable!(),
    }
}

// Returns `list` with the nodes of `first` prepended, as one or two lists of its height. `first` is at most as high.
fn prepend(alloc: Global, first: Link, list: &Seen) -> Result<Siblings, AllocError>
    requires lower { height (link_tree first) ≤ height (seen_tree list.now) }
    requires first_some { is_nothing (link_tree first) ≡ false }
    requires tree { IsTree (seen_tree list.now) }
    requires some { is_nothing (seen_tree list.now) ≡ false }
    requires fits { weight (link_tree first) + weight (seen_tree list.now) < 2 ^ 64 }
    ensures level { IfOk result (AreListsOf (height (seen_tree list.now))) }
    ensures in_order { IfOk result (λ lists.
        sibling_items lists ≡ items (link_tree first) ++ items (seen_tree list.now)) }
    ensures weighs { IfOk result (λ lists.
        sibling_weight lists ≡ weight (link_tree first) + weight (seen_tree list.now)) }
{
    if list.height() == first.height() {
        return Ok(Siblings::Two(first, list.share()?));
    }
    match list.shown() {
        Shown::Two(a, b) => {
            let grown = prepend(alloc, first, &a)?;
            grouped(alloc, grown, Siblings::One(b.share()?))
        }
        Shown::Three(a, b, c) => {
            let grown = prepend(alloc, first, &a)?;
            grouped(alloc, grown, Siblings::Two(b.share()?, c.share()?))
        }
        _ => unreachable!(),
    }
}

/// Returns the list of the nodes of both, in order.
pub(crate) fn join(alloc: Global, first: Link, second: Link) -> Result<Link, AllocError>
    requires fits { weight (link_tree first) + weight (link_tree second) < 2 ^ 64 }
    ensures { IfOk result (λ list. Joins (link_tree first) (link_tree second) (link_tree list)) }
{
    if first.is_nothing() {
        return Ok(second);
    }
    if second.is_nothing() {
        return Ok(first);
    }
    let grown = if second.height() <= first.height() {
        append(alloc, &first.seen(), second)?
    } else {
        prepend(alloc, first, &second.seen())?
    };
    match grown {
        Siblings::One(list) => Ok(list),
        Siblings::Two(a, b) => two_of(alloc, a, b),
    }
}

/// Returns the list of the nodes of all three, in order.
pub(crate) fn join_three(
    alloc: Global,
    first: Link,
    second: Link,
    third: Link,
) -> Result<Link, AllocError>
    requires fits { weight (link_tree first)
        + (weight (link_tree second) + weight (link_tree third)) < 2 ^ 64 }
    ensures { IfOk result (λ list.
        JoinsThree (link_tree first) (link_tree second) (link_tree third) (link_tree list)) }
{
    if are_even(&first, &second) && are_even(&second, &third) {
        return three_of(alloc, first, second, third);
    }
    let rest = join(alloc, second, third)?;
    join(alloc, first, rest)
}

// Whether the two may be parts of one list: equally high, and neither empty.
fn are_even(a: &Link, b: &Link) -> bool
    ensures { IsTrue result → IsEven (link_tree a.now) (link_tree b.now) }
{
    a.height() == b.height() && !a.is_nothing() && !b.is_nothing()
}

/// Whether both are line breaks of the same height whose list takes no memory of its own.
pub(crate) fn are_breaks(a: &Link, b: &Link) -> bool {
    match (a, b) {
        (Link::Here(first), Link::Here(second)) => first.goes_with(*second),
        _ => false,
    }
}
