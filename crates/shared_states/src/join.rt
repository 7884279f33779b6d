//! Joins two trees. If both are balanced, so is the result: the heights of the two halves of a node differ by at most
//! 1.

ghost use Rattle.std.specs.Prelude.{◌≡◌, ◌+◌, ◌<◌, ◌^◌, ◌++◌, length, IfOk};
ghost use Rattle.shared_states.specs.Shapes.{link_states};

use crate::node::{Inner, Link, two};
use std::alloc::{AllocError, Global};

/// Returns the lines of `left` followed by those of `right`; neither is empty. Takes time linear in the difference of
/// their heights; if one is a run, in the height of the other.
pub(crate) fn concat(alloc: Global, left: Link, right: Link) -> Result<Link, AllocError>
    requires left { 0 < length (link_states left) }
    requires right { 0 < length (link_states right) }
    requires fits { length (link_states left) + length (link_states right) < 2 ^ 64 }
    ensures { IfOk result (λ both. link_states both ≡ link_states left ++ link_states right) }
{
    if let Link::Shared(inner) = &left {
        if right.is_run() || right.height() + 1 < left.height() {
            let (first, second) = inner.halves();
            let grown = concat(alloc, second.share()?, right)?;
            return balanced(alloc, first.share()?, grown);
        }
    }
    if let Link::Shared(inner) = &right {
        if left.is_run() || left.height() + 1 < right.height() {
            let (first, second) = inner.halves();
            let grown = concat(alloc, left, first.share()?)?;
            return balanced(alloc, grown, second.share()?);
        }
    }
    side_by_side(alloc, left, right)
}

/// Returns `left` followed by `right`. Two runs of one state become one run.
fn side_by_side(alloc: Global, left: Link, right: Link) -> Result<Link, AllocError>
    requires left { 0 < length (link_states left) }
    requires right { 0 < length (link_states right) }
    requires fits { length (link_states left) + length (link_states right) < 2 ^ 64 }
    ensures { IfOk result (λ both. link_states both ≡ link_states left ++ link_states right) }
{
    match (&left, &right) {
        (Link::Run(state, lines), Link::Run(other, more)) if *state == *other => {
            Ok(Link::Run(*state, *lines + *more))
        }
        _ => two(alloc, left, right),
    }
}

/// Returns `left` followed by `right`; one of them may be higher by 2.
fn balanced(alloc: Global, left: Link, right: Link) -> Result<Link, AllocError>
    requires left { 0 < length (link_states left) }
    requires right { 0 < length (link_states right) }
    requires fits { length (link_states left) + length (link_states right) < 2 ^ 64 }
    ensures { IfOk result (λ both. link_states both ≡ link_states left ++ link_states right) }
{
    if let Link::Shared(inner) = &left {
        if right.height() + 1 < left.height() {
            return with_high_left(alloc, inner, right);
        }
    }
    if let Link::Shared(inner) = &right {
        if left.height() + 1 < right.height() {
            return with_high_right(alloc, left, inner);
        }
    }
    two(alloc, left, right)
}

/// Like `balanced`, with `left` higher by 2.
fn with_high_left(alloc: Global, left: &Inner, right: Link) -> Result<Link, AllocError>
    requires right { 0 < length (link_states right) }
    requires fits { length left.now + length (link_states right) < 2 ^ 64 }
    ensures { IfOk result (λ both. link_states both ≡ left.now ++ link_states right) }
{
    let (far, near) = left.halves();
    match near {
        Link::Shared(middle) if far.height() < near.height() => {
            let (first, second) = middle.halves();
            let lower = two(alloc, far.share()?, first.share()?)?;
            let upper = two(alloc, second.share()?, right)?;
            two(alloc, lower, upper)
        }
        _ => {
            let upper = two(alloc, near.share()?, right)?;
            two(alloc, far.share()?, upper)
        }
    }
}

/// Like `balanced`, with `right` higher by 2.
fn with_high_right(alloc: Global, left: Link, right: &Inner) -> Result<Link, AllocError>
    requires left { 0 < length (link_states left) }
    requires fits { length (link_states left) + length right.now < 2 ^ 64 }
    ensures { IfOk result (λ both. link_states both ≡ link_states left ++ right.now) }
{
    let (near, far) = right.halves();
    match near {
        Link::Shared(middle) if far.height() < near.height() => {
            let (first, second) = middle.halves();
            let lower = two(alloc, left, first.share()?)?;
            let upper = two(alloc, second.share()?, far.share()?)?;
            two(alloc, lower, upper)
        }
        _ => {
            let lower = two(alloc, left, near.share()?)?;
            two(alloc, lower, far.share()?)
        }
    }
}
