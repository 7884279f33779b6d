// What a node keeps of its subtree.
ghost use Rattle.std.specs.Prelude.{◌≡◌, ◌+◌, ◌<◌, ◌^◌};
ghost use Rattle.bracket_tree_rules.specs.Tree.{wide};
ghost use Rattle.bracket_nodes.specs.Kept.{later, both_of, leaf_kept};

use crate::kinds::Kinds;
use text_lengths::Length;

#[derive(Clone, Copy)]
pub(crate) struct Kept {
    pub length: Length,
    pub missing: Kinds,
    pub closed: bool,
    pub capped: bool,
    // Each level of a list at least doubles its leaves, so no list whose leaves fit 64 bits is higher than 64.
    pub height: u8,
    pub highest: u8,
    pub nesting: u64,
    // The level after the last entry, relative to the level of the node; None without entries.
    pub last_level: Option<u64>,
}

// Returns what is kept of a leaf; `last_level` is the level after its last entry.
pub(crate) fn leaf_kept(length: Length, missing: Kinds, last_level: Option<u64>) -> Kept
    ensures { result ≡ leaf_kept length missing last_level }
{
    Kept {
        length,
        missing,
        closed: true,
        capped: false,
        height: 0,
        highest: 0,
        nesting: 0,
        last_level,
    }
}

// Returns what is kept of a list of height `height` with the parts `a` and `b`.
pub(crate) fn both(a: Kept, b: Kept, height: u8) -> Kept
    requires { a.length.lines + a.length.columns + (b.length.lines + b.length.columns) < 2 ^ 64 }
    ensures { result ≡ both_of a b height }
{
    Kept {
        length: a.length.plus(&b.length),
        missing: a.missing.union(b.missing),
        closed: a.closed && b.closed,
        capped: a.capped || b.capped,
        height,
        highest: height.max(a.highest.max(b.highest)),
        nesting: a.nesting.max(b.nesting),
        last_level: later(a.last_level, b.last_level),
    }
}

fn later(first: Option<u64>, second: Option<u64>) -> Option<u64>
    ensures { result ≡ later first second }
{
    second.or(first)
}

/// Returns the length of `columns` columns within a line.
pub(crate) fn wide(columns: u64) -> Length
    ensures { result ≡ wide columns }
{
    Length { lines: 0, columns }
}
