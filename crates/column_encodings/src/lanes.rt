//! Counts leading ASCII units with SIMD lanes: several units are compared at once.
#![tactic(auto)]

ghost use Rattle.std.specs.Prelude.{◌≡◌, ◌+◌, ◌≤◌, nat_le, length, drop, map};
ghost use Rattle.std.specs.Char.{is_ascii};
ghost use Rattle.std.specs.List.{prefix_len};
ghost use Rattle.std.specs.Simd.Lanes.{chunk, mask_l};

use std::simd::prelude::*;

/// The number of units that are compared at once.
const LANES: usize = 32;

/// The smallest unit that is not ASCII.
const BEYOND_ASCII: u16 = 0x80;

/// Returns the number of ASCII units before the first unit that is not ASCII.
pub(crate) fn ascii_in_front(units: &[u16]) -> usize
    ensures ascii { result ≡ prefix_len is_ascii units.now }
    ensures within { result ≤ length units.now }
{
    let mut at = 0;
    while at + LANES <= units.len() {
        let ascii = ascii_in_block(units, at);
        if ascii < LANES {
            return at + ascii;
        }
        at += LANES;
    }
    at + ascii_one_by_one(units, at)
}

// Returns the number of leading ASCII units among the `LANES` units from `at` on.
#[inline(always)]
fn ascii_in_block(units: &[u16], at: usize) -> usize
    requires { at + 32 ≤ length units.now }
    ensures ascii { result ≡ prefix_len is_ascii (chunk at 32 units.now) }
    ensures within { result ≤ 32 }
{
    let others = others_in_block(units, at);
    if others == 0 {
        LANES
    } else {
        others.trailing_zeros() as usize
    }
}

// Returns a mask of the non-ASCII units among the `LANES` units from `at` on: one bit for each unit, the lowest bit for
// the first unit.
#[inline(always)]
fn others_in_block(units: &[u16], at: usize) -> u64
    requires { at + 32 ≤ length units.now }
    ensures { result ≡ mask_l (map (λ unit. nat_le 0x80 unit) (chunk at 32 units.now)) }
{
    let block = u16x32::from_slice(&units[at..]);
    block.simd_ge(u16x32::splat(BEYOND_ASCII)).to_bitmask()
}

// Returns the number of leading ASCII units from index `from` on, found one by one.
fn ascii_one_by_one(units: &[u16], from: usize) -> usize
    requires { from ≤ length units.now }
    ensures ascii { result ≡ prefix_len is_ascii (drop from units.now) }
    ensures within { from + result ≤ length units.now }
{
    let mut at = from;
    while at < units.len() && units[at] < BEYOND_ASCII {
        at += 1;
    }
    at - from
}
