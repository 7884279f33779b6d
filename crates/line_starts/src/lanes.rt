//! Finds breaks with SIMD lanes, several units at a time.

ghost use Rattle.std.specs.Prelude.{◌≡◌, ◌+◌, ◌*◌, ◌<◌, ◌≤◌, ◌∷◌, [], length};
ghost use Rattle.std.specs.Simd.Lanes.{chunk, zip2, mask_l};
ghost use Rattle.line_starts.specs.Starts.{breaks_from, at_four};
ghost use Rattle.text_rules.specs.Breaks.{ends_break};

use std::simd::prelude::*;
use unit_text::{CARRIAGE_RETURN, LINE_FEED};

/// The number of units in a block.
pub(crate) const LANES: usize = 32;

/// Returns a mask of the `LANES` units from `at` on: a bit is set if a break ends with that unit, and the lowest bit is for the first unit.
/// A break ends with an LF, or with a CR that no LF follows. At least one unit must follow the block.
#[inline(always)]
pub(crate) fn ends_in_block(units: &[u16], at: usize) -> u64
    requires { at + 32 < length units.now }
    ensures { result ≡ mask_l (zip2 (λ unit next. ends_break unit (next ∷ []))
        (chunk at 32 units.now) (chunk (at + 1) 32 units.now)) }
{
    let block = u16x32::from_slice(&units[at..]);
    let after = u16x32::from_slice(&units[at + 1..]);
    let feeds = block.simd_eq(u16x32::splat(LINE_FEED));
    let returns = block.simd_eq(u16x32::splat(CARRIAGE_RETURN));
    let no_feed_after = after.simd_ne(u16x32::splat(LINE_FEED));
    (feeds | (returns & no_feed_after)).to_bitmask()
}

/// Counts the breaks that end with one of the `LANES` units from `at` on. At least one unit must follow them.
#[inline(always)]
pub(crate) fn breaks_in_block(units: &[u16], at: usize) -> u32
    requires { at + 32 < length units.now }
    ensures { result + breaks_from units.now (at + 32) ≡ breaks_from units.now at }
{
    ends_in_block(units, at).count_ones()
}

/// Counts the breaks that end with one of the first `many` of the `LANES` units from `at` on.
#[inline(always)]
pub(crate) fn breaks_in_front(units: &[u16], at: usize, many: usize) -> u32
    requires within { at + 32 < length units.now }
    requires few { many ≤ 32 }
    ensures { result + breaks_from units.now (at + many) ≡ breaks_from units.now at }
{
    (ends_in_block(units, at) % (1 << many)).count_ones()
}

/// Counts the breaks that end in four blocks of `LANES` units. The first block starts at `at`, and each starts `apart` units after the one
/// before.
#[inline(always)]
pub(crate) fn breaks_in_blocks(units: &[u16], at: usize, apart: usize) -> u64
    requires { apart * 3 + at + 32 < length units.now }
    ensures { result + at_four (λ place. breaks_from units.now (place + 32)) at apart
        ≡ at_four (breaks_from units.now) at apart }
{
    u64::from(breaks_in_block(units, at))
        + u64::from(breaks_in_block(units, apart + at))
        + u64::from(breaks_in_block(units, apart * 2 + at))
        + u64::from(breaks_in_block(units, apart * 3 + at))
}
