//! A SIMD test of several offsets at once for the beginning of a sought text.

ghost use Rattle.std.specs.Prelude.{◌≡◌, ◌+◌, ◌-◌, ◌<◌, ◌≤◌, ◌==◌, ◌&&◌, length, slice_index};
ghost use Rattle.std.specs.Simd.Lanes.{chunk, zip2, mask_l};

use std::simd::prelude::*;

/// The number of offsets that are tested at once.
pub(crate) const LANES: usize = 32;

/// Tests `LANES` offsets from `at` on: bit k of the result says whether the run has `unit` at `at + k` and `other` at `at + k + apart`.
#[inline(always)]
pub(crate) fn both_in_block(run: &[u16], at: usize, unit: u16, apart: usize, other: u16) -> u64
    requires { at + apart + 32 ≤ length run.now }
    ensures { result ≡ mask_l (zip2 (λ u v. u == unit && v == other)
        (chunk at 32 run.now) (chunk (at + apart) 32 run.now)) }
{
    let block = u16x32::from_slice(&run[at..]);
    let behind = u16x32::from_slice(&run[at + apart..]);
    let units = block.simd_eq(u16x32::splat(unit));
    let others = behind.simd_eq(u16x32::splat(other));
    (units & others).to_bitmask()
}
