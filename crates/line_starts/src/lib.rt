//! Where the lines of a text start.
#![tactic(auto)]

mod lanes;

ghost use Rattle.std.specs.Prelude.{◌≡◌, ℕ, ◌+◌, ◌-◌, ◌*◌, ◌<◌, ◌≤◌, ◌^◌, ◌++◌, true, false, List, length, drop, get_or, OnOk, OnErr, IsOk, vec_len, vec_capacity, take};
ghost use Rattle.line_starts.specs.Starts.{starts_of, break_count, break_ends_at, breaks_from};
ghost use Rattle.text_lengths.specs.Length.{length_plus};
ghost use Rattle.text_rules.specs.Breaks.{break_ends, count_to, ends_break, joins_pair};
ghost use Rattle.text_rules.specs.Lines.{text_length};

use crate::lanes::{LANES, breaks_in_block, breaks_in_blocks, breaks_in_front, ends_in_block};
use std::alloc::AllocError;
use text_lengths::Length;
use unit_text::{CARRIAGE_RETURN, LINE_FEED};

/// Appends the start of each line: 0, then the offset after each break. On an error `out` is unchanged.
pub fn find_starts(units: &[u16], out: &mut Vec<u64>) -> Result<(), AllocError>
    ensures ok { OnOk result (out.new.items ≡ out.old.items ++ starts_of units.now) }
    ensures err { OnErr result (out.new.items ≡ out.old.items) }
    ensures with_room { vec_len out.old + (break_count units.now + 1) ≤ vec_capacity out.old
        → IsOk result }
    ensures capacity { vec_capacity out.old ≤ vec_capacity out.new }
{
    let before = out.len();
    out.push(0)?;
    let appended = push_break_ends(units, 0, out);
    if appended.is_err() {
        out.truncate(before);
    }
    appended
}

/// Appends `start` plus the offset after each break. On an error `out` is unchanged.
pub fn find_break_ends(units: &[u16], start: u64, out: &mut Vec<u64>) -> Result<(), AllocError>
    requires { start + length units.now < 2 ^ 64 }
    ensures ok { OnOk result (out.new.items ≡ out.old.items ++ break_ends_at start units.now) }
    ensures err { OnErr result (out.new.items ≡ out.old.items) }
    ensures with_room { vec_len out.old + break_count units.now ≤ vec_capacity out.old → IsOk result }
    ensures capacity { vec_capacity out.old ≤ vec_capacity out.new }
{
    let before = out.len();
    let appended = push_break_ends(units, start, out);
    if appended.is_err() {
        out.truncate(before);
    }
    appended
}

// Does the same, but on an error `out` may keep some of the appended places.
fn push_break_ends(units: &[u16], start: u64, out: &mut Vec<u64>) -> Result<(), AllocError>
    requires { start + length units.now < 2 ^ 64 }
    ensures ok { OnOk result (out.new.items ≡ out.old.items ++ break_ends_at start units.now) }
    ensures before { take (vec_len out.old) out.new.items ≡ out.old.items }
    ensures with_room { vec_len out.old + break_count units.now ≤ vec_capacity out.old → IsOk result }
    ensures capacity { vec_capacity out.old ≤ vec_capacity out.new }
{
    let mut at = 0;
    while at + LANES < units.len() {
        push_block(units, at, start + at as u64, out)?;
        at += LANES;
    }
    push_rest(units, at, start, out)
}

// Appends the place after each break that ends with one of the `LANES` units from `at` on; the place of the first of them is `start`.
fn push_block(units: &[u16], at: usize, start: u64, out: &mut Vec<u64>) -> Result<(), AllocError>
    requires within { at + 32 < length units.now }
    requires short { start + 32 < 2 ^ 64 }
    ensures ok { OnOk result (out.new.items ++ break_ends (start + 32) (drop (at + 32) units.now)
        ≡ out.old.items ++ break_ends start (drop at units.now)) }
    ensures before { take (vec_len out.old) out.new.items ≡ out.old.items }
    ensures grown { vec_len out.old ≤ vec_len out.new }
    ensures with_room { vec_len out.old + length (break_ends start (drop at units.now))
        ≤ vec_capacity out.old → IsOk result }
    ensures capacity { vec_capacity out.old ≤ vec_capacity out.new }
{
    let mut left = ends_in_block(units, at);
    let mut place = start;
    while left != 0 {
        let steps = left.trailing_zeros() + 1;
        place += u64::from(steps);
        out.push(place)?;
        left >>= steps;
    }
    Ok(())
}

// Appends the place after each break that ends at or after index `from`; the place of the first unit of all is `start`.
fn push_rest(units: &[u16], from: usize, start: u64, out: &mut Vec<u64>) -> Result<(), AllocError>
    requires within { from ≤ length units.now }
    requires short { start + length units.now < 2 ^ 64 }
    ensures ok { OnOk result (out.new.items
        ≡ out.old.items ++ break_ends (start + from) (drop from units.now)) }
    ensures before { take (vec_len out.old) out.new.items ≡ out.old.items }
    ensures with_room { vec_len out.old + length (break_ends (start + from) (drop from units.now))
        ≤ vec_capacity out.old → IsOk result }
    ensures capacity { vec_capacity out.old ≤ vec_capacity out.new }
{
    for at in from..units.len() {
        if is_break_end(units, at) {
            out.push(start + at as u64 + 1)?;
        }
    }
    Ok(())
}

/// Returns the number of line breaks.
pub fn count_breaks(units: &[u16]) -> u64
    ensures breaks { result ≡ break_count units.now }
    ensures few { result < 2 ^ 63 }
{
    let quarter = apart(units);
    let mut breaks = 0;
    let mut at = 0;
    while at + LANES < quarter {
        breaks += breaks_in_blocks(units, at, quarter);
        at += LANES;
    }
    breaks
        + breaks_between(units, at, quarter)
        + breaks_between(units, quarter + at, quarter * 2)
        + breaks_between(units, quarter * 2 + at, quarter * 3)
        + breaks_between(units, quarter * 3 + at, units.len())
}

/// From this length on a text is read at four places in turn, which memory serves faster than one sequence.
const LONG: usize = 65_536;

// Returns the distance between these four places; 0 for a text that is read in one sequence.
fn apart(units: &[u16]) -> usize
    ensures { result * 4 ≤ length units.now }
{
    if units.len() < LONG {
        0
    } else {
        units.len() / 4
    }
}

/// Counts the breaks that end with one of the units in `from..to`.
pub fn breaks_between(units: &[u16], from: usize, to: usize) -> u64
    requires { (from ≤ to) × (to ≤ length units.now) }
    ensures { result + breaks_from units.now to ≡ breaks_from units.now from }
{
    let mut breaks = 0;
    let mut at = from;
    while at + LANES < to {
        breaks += u64::from(breaks_in_block(units, at));
        at += LANES;
    }
    breaks + breaks_in_rest(units, at, to)
}

// Counts the breaks that end with one of the units in `from..to`, a range of at most `LANES` units.
fn breaks_in_rest(units: &[u16], from: usize, to: usize) -> u64
    requires between { (from ≤ to) × (to ≤ length units.now) }
    requires near { to ≤ from + 32 }
    ensures { result + breaks_from units.now to ≡ breaks_from units.now from }
{
    if from + LANES < units.len() {
        return u64::from(breaks_in_front(units, from, to - from));
    }
    breaks_one_by_one(units, from, to)
}

fn breaks_one_by_one(units: &[u16], from: usize, to: usize) -> u64
    requires { (from ≤ to) × (to ≤ length units.now) }
    ensures { result + breaks_from units.now to ≡ breaks_from units.now from }
{
    let mut breaks = 0;
    for at in from..to {
        if is_break_end(units, at) {
            breaks += 1;
        }
    }
    breaks
}

/// Returns the offset after the `k`-th break, counted from 1, that ends with one of the units in `from..to`; `to` if there are fewer.
pub fn nth_break_end(units: &[u16], from: usize, to: usize, k: u64) -> usize
    requires ordered { from ≤ to }
    requires inside { to ≤ length units.now }
    requires first { 0 < k }
    ensures there { let ends = break_ends 0 units.now in count_to from ends + k ≤ count_to to ends
        → result ≡ get_or ends (count_to from ends + k - 1) 0 }
    ensures past { let ends = break_ends 0 units.now in count_to to ends < count_to from ends + k
        → result ≡ to }
    ensures within { (from ≤ result) × (result ≤ to) }
{
    let mut left = k;
    for at in from..to {
        if is_break_end(units, at) {
            left -= 1;
            if left == 0 {
                return at + 1;
            }
        }
    }
    to
}

/// Returns the length of the text in lines and columns. If a text is cut in two, but not inside a CR LF, its length is the sum of the
/// lengths of its parts.
pub fn text_length(units: &[u16]) -> Length
    ensures length { result ≡ text_length units.now }
    ensures parts { (x y : List ℕ) → x ++ y ≡ units.now → joins_pair x y ≡ false
        → result ≡ length_plus (text_length x) (text_length y) }
{
    let mut lines = 0;
    let mut columns = 0;
    for at in 0..units.len() {
        if is_break_end(units, at) {
            lines += 1;
            columns = 0;
        } else {
            columns += 1;
        }
    }
    Length { lines, columns }
}

// Returns whether a break ends with the unit at this index: an LF, or a CR that no LF follows.
fn is_break_end(units: &[u16], at: usize) -> bool
    requires { at < length units.now }
    ensures { result ≡ ends_break (get_or units.now at 0) (drop (at + 1) units.now) }
{
    match units[at] {
        LINE_FEED => true,
        CARRIAGE_RETURN => units.get(at + 1) != Some(&LINE_FEED),
        _ => false,
    }
}
