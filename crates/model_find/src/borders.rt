//! Border table and matching step of the Knuth-Morris-Pratt algorithm.

ghost use Rattle.std.specs.Prelude.{◌≡◌, ℕ, ◌+◌, ◌-◌, ◌*◌, ◌<◌, ◌≤◌, ◌==◌, ◌&&◌, not, List, [], ◌∷◌, length, slice_index, IfOk};
ghost use Rattle.unit_text.specs.Kinds.{cuts_in};
ghost use Rattle.model_find.specs.Matching.{AreBorders, ExtendsTo};

use std::alloc::{AllocError, Global};
use steps::Steps;
use unit_text::{CARRIAGE_RETURN, Kind, LINE_FEED, cuts_pair};

/// Returns whether the offset between the two units is no place of a text of the kind: they are the CR and LF of a line ending of the
/// kind `Crlf`, or a surrogate pair.
pub(crate) fn cuts_between(kind: Kind, before: u16, unit: u16) -> bool
    ensures { result ≡ cuts_in kind (before ∷ unit ∷ []) 1 }
{
    let in_ending = kind == Kind::Crlf && before == CARRIAGE_RETURN && unit == LINE_FEED;
    in_ending || cuts_pair(&[before, unit], 1)
}

/// Returns how many of the sought units are matched at the end of a text after the next unit `unit`. Before it `matched` are matched, and
/// `before` is the last unit. `borders` has an entry for each prefix of at most `matched` units.
pub(crate) fn extended<L>(
    kind: Kind,
    sought: &[u16],
    borders: &[usize],
    matched: usize,
    before: u16,
    unit: u16,
    looks: &mut Steps<L>,
) -> usize
    requires part { matched < length sought.now }
    requires known { matched ≤ length borders.now }
    requires few { length borders.now ≤ length sought.now }
    requires borders { AreBorders kind sought.now borders.now }
    ensures longest { ExtendsTo kind sought.now before unit matched result }
    ensures few { result ≤ matched + 1 }
    ensures cost { looks.new + result ≤ looks.old + matched + 2 }
{
    let mut matched = matched;
    while matched > 0 {
        looks.tick();
        if sought[matched] == unit {
            return matched + 1;
        }
        matched = borders[matched - 1];
    }
    looks.tick();
    usize::from(begins(kind, sought, before, unit))
}

// Returns whether an occurrence may begin with `unit`, which comes after `before` in the text.
fn begins(kind: Kind, sought: &[u16], before: u16, unit: u16) -> bool
    requires { 0 < length sought.now }
    ensures { result ≡ (slice_index sought.now 0 == unit
        && not (cuts_in kind (before ∷ unit ∷ []) 1)) }
{
    sought[0] == unit && !cuts_between(kind, before, unit)
}

/// Returns the border table: for each non-empty prefix of the sought units, from the shortest on, the length of its longest proper border.
pub(crate) fn borders_of<L>(
    alloc: Global,
    kind: Kind,
    sought: &[u16],
    looks: &mut Steps<L>,
) -> Result<Vec<usize>, AllocError>
    requires some { 0 < length sought.now }
    ensures borders { IfOk result (λ borders. AreBorders kind sought.now borders.items) }
    ensures all { IfOk result (λ borders. length borders.items ≡ length sought.now) }
    ensures cost { looks.new ≤ looks.old + 2 * length sought.now }
{
    let mut borders = Vec::with_capacity(alloc, sought.len())?;
    let mut matched = 0;
    borders.push(0)?;
    for at in 1..sought.len() {
        let (before, unit) = (sought[at - 1], sought[at]);
        matched = extended(kind, sought, &borders, matched, before, unit, looks);
        borders.push(matched)?;
    }
    Ok(borders)
}
