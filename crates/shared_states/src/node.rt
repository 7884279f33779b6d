//! A tree of runs.

ghost use Rattle.std.specs.Prelude.{◌≡◌, ◌+◌, ◌<◌, ◌≤◌, ◌^◌, ◌++◌, length, slice_index_or, IfOk};
ghost use Rattle.hiding_rules.specs.declared.LineState.TheVariants.{Code};
ghost use Rattle.shared_states.specs.Shapes.{link_states};

use hiding_rules::LineState;
use std::alloc::{AllocError, Global};
use std::marker::Model;
use std::rc::Rc;

/// A subtree: a run of lines in one state, or a node with two halves.
#[cycle(inner)]
#[derive(Drop)]
pub(crate) enum Link {
    Run(LineState, u64),
    Shared(Rc<Inner>),
}

/// A node with two halves, neither of which is empty.
#[cycle(inner)]
#[derive(Drop)]
pub(crate) struct Inner {
    left: Link,
    right: Link,
    lines: u64,
    /// One more than the height of the higher half; the height of a run is 0.
    height: u64,
}

impl Model for Inner {
    ghost use Rattle.std.specs.Prelude.{List, length};
    ghost use Rattle.hiding_rules.specs.declared.LineState.{LineState};

    ghost Value = { List LineState };

    ghost use Rattle.shared_states.specs.Shapes.{joined, IsJoined};

    ghost view = { λ inner. joined inner.left inner.right };

    ghost invariant = { λ inner. IsJoined inner.left inner.right inner.lines inner.height };

    ghost size = { length };

    ghost use Rattle.shared_states.specs.Falls.{depth_le-length};

    ghost size_decreases = { λ inner h. depth_le-length inner.left inner.right h.left h.right };
}

impl Inner {
    /// Returns the two halves.
    pub fn halves(&self) -> (&Link, &Link)
        ensures whole { self.now ≡ link_states result.0.now ++ link_states result.1.now }
        ensures left { 0 < length (link_states result.0.now) }
        ensures right { 0 < length (link_states result.1.now) }
        ensures fits { length self.now < 2 ^ 64 }
    {
        (&self.left, &self.right)
    }

    pub fn len(&self) -> u64
        ensures { result ≡ length self.now }
    {
        self.lines
    }

    pub fn height(&self) -> u64
        ensures { result ≤ length self.now }
    {
        self.height
    }
}

impl Link {
    /// Returns the number of lines.
    pub fn len(&self) -> u64
        ensures { result ≡ length (link_states self.now) }
    {
        match self {
            Link::Run(_, lines) => *lines,
            Link::Shared(inner) => inner.len(),
        }
    }

    /// Returns the height of the subtree; 0 for a run.
    pub fn height(&self) -> u64
        ensures { result ≤ length (link_states self.now) }
    {
        match self {
            Link::Run(..) => 0,
            Link::Shared(inner) => inner.height(),
        }
    }

    pub fn is_run(&self) -> bool {
        matches!(self, Link::Run(..))
    }

    /// Returns the same lines; a node is shared, not copied.
    pub fn share(&self) -> Result<Link, AllocError>
        ensures { IfOk result (λ link. link_states link ≡ link_states self.now) }
    {
        match self {
            Link::Run(state, lines) => Ok(Link::Run(*state, *lines)),
            Link::Shared(inner) => Ok(Link::Shared(inner.clone()?)),
        }
    }

    /// Returns the state of the line with index `line`, counted from 0.
    pub fn at(&self, line: u64) -> LineState
        requires { line < length (link_states self.now) }
        ensures { result ≡ slice_index_or (link_states self.now) line Code }
    {
        match self {
            Link::Run(state, _) => *state,
            Link::Shared(inner) => {
                let (left, right) = inner.halves();
                let before = left.len();
                if line < before {
                    left.at(line)
                } else {
                    right.at(line - before)
                }
            }
        }
    }

    /// Returns the number of lines of the first run.
    pub fn first_run(&self) -> u64
        ensures { result ≤ length (link_states self.now) }
    {
        match self {
            Link::Run(_, lines) => *lines,
            Link::Shared(inner) => inner.halves().0.first_run(),
        }
    }
}

/// Returns a node with the halves `left` and `right`, neither of which is empty.
pub(crate) fn two(alloc: Global, left: Link, right: Link) -> Result<Link, AllocError>
    requires left { 0 < length (link_states left) }
    requires right { 0 < length (link_states right) }
    requires fits { length (link_states left) + length (link_states right) < 2 ^ 64 }
    ensures { IfOk result (λ both. link_states both ≡ link_states left ++ link_states right) }
{
    let lines = left.len() + right.len();
    let height = 1 + left.height().max(right.height());
    let inner = Inner {
        left,
        right,
        lines,
        height,
    };
    Ok(Link::Shared(Rc::new(alloc, inner)?))
}
