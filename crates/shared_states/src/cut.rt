//! Cuts parts out of a tree, and joins whole lists.

ghost use Rattle.std.specs.Prelude.{◌≡◌, ◌+◌, ◌<◌, ◌≤◌, ◌^◌, ◌++◌, length, take, drop, IfOk};
ghost use Rattle.shared_states.specs.Shapes.{link_states};

use crate::join::concat;
use crate::node::Link;
use std::alloc::{AllocError, Global};

/// Returns the first `lines` lines.
pub(crate) fn first_lines(alloc: Global, link: &Link, lines: u64) -> Result<Link, AllocError>
    requires { lines ≤ length (link_states link.now) }
    ensures { IfOk result (λ part. link_states part ≡ take lines (link_states link.now)) }
{
    let inner = match link {
        Link::Run(state, _) => return Ok(Link::Run(*state, lines)),
        Link::Shared(inner) => inner,
    };
    if lines == link.len() {
        return link.share();
    }
    let (left, right) = inner.halves();
    let before = left.len();
    if lines <= before {
        return first_lines(alloc, left, lines);
    }
    let rest = first_lines(alloc, right, lines - before)?;
    concat(alloc, left.share()?, rest)
}

/// Returns the lines after the first `lines` lines.
pub(crate) fn lines_behind(alloc: Global, link: &Link, lines: u64) -> Result<Link, AllocError>
    requires { lines ≤ length (link_states link.now) }
    ensures { IfOk result (λ part. link_states part ≡ drop lines (link_states link.now)) }
{
    let inner = match link {
        Link::Run(state, all) => return Ok(Link::Run(*state, *all - lines)),
        Link::Shared(inner) => inner,
    };
    if lines == 0 {
        return link.share();
    }
    let (left, right) = inner.halves();
    let before = left.len();
    if before <= lines {
        return lines_behind(alloc, right, lines - before);
    }
    let rest = lines_behind(alloc, left, lines)?;
    concat(alloc, rest, right.share()?)
}

/// Returns the lines of `left` followed by those of `right`. If `left` ends in the state in which `right` begins, the
/// two runs there become one.
pub(crate) fn join(alloc: Global, left: Link, right: Link) -> Result<Link, AllocError>
    requires { length (link_states left) + length (link_states right) < 2 ^ 64 }
    ensures { IfOk result (λ both. link_states both ≡ link_states left ++ link_states right) }
{
    if left.len() == 0 {
        return Ok(right);
    }
    if right.len() == 0 {
        return Ok(left);
    }
    if left.at(left.len() - 1) != right.at(0) {
        return concat(alloc, left, right);
    }
    let lines = right.first_run();
    let run = first_lines(alloc, &right, lines)?;
    let rest = lines_behind(alloc, &right, lines)?;
    put_behind(alloc, put_behind(alloc, left, run)?, rest)
}

/// Returns the lines of `left` followed by those of `right`, which may be empty.
fn put_behind(alloc: Global, left: Link, right: Link) -> Result<Link, AllocError>
    requires some { 0 < length (link_states left) }
    requires fits { length (link_states left) + length (link_states right) < 2 ^ 64 }
    ensures { IfOk result (λ both. link_states both ≡ link_states left ++ link_states right) }
{
    if right.len() == 0 {
        return Ok(left);
    }
    concat(alloc, left, right)
}
