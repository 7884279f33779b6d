// The index of a table's first units: for each class of units, whether a text begins with a unit of it.
// A scan passes quickly over the units at which no text can begin.
ghost use Rattle.std.specs.Prelude.{◌≡◌, ◌%◌, Bool, length, slice_index_or, IfOk};
ghost use Rattle.bracket_rules.specs.Table.{standard_table};
ghost use Rattle.bracket_scan.specs.Firsts.{AddsFirst, Indexes};

use std::alloc::{AllocError, Global};
use unit_text::Units;

/// The number of classes of units. The class of a unit is its remainder.
pub(crate) const CLASSES: u16 = 256;

/// Returns the index of the first units of the pairs.
pub(crate) fn firsts_of(alloc: Global, pairs: &[(Units, Units)]) -> Result<Vec<bool>, AllocError>
    ensures { IfOk result (λ firsts. Indexes pairs.now firsts.items) }
{
    let mut firsts = Vec::new(alloc);
    firsts.resize(CLASSES as usize, false)?;
    for pair in pairs {
        add_first(&mut firsts, &pair.0);
        add_first(&mut firsts, &pair.1);
    }
    Ok(firsts)
}

// Adds the first unit of the text to the index.
fn add_first(firsts: &mut Vec<bool>, text: &Units)
    requires { length firsts.old.items ≡ CLASSES }
    ensures all { length firsts.new.items ≡ CLASSES }
    ensures each { AddsFirst firsts.old.items firsts.new.items text.now }
{
    if let [first, ..] = text.as_slice() {
        firsts[(*first % CLASSES) as usize] = true;
    }
}

/// Returns whether a unit of the class of this one is in the index.
pub(crate) fn is_first(firsts: &[bool], unit: u16) -> bool
    requires { length firsts.now ≡ CLASSES }
    ensures { (other : Bool) → result ≡ slice_index_or firsts.now (unit % CLASSES) other }
{
    firsts[(unit % CLASSES) as usize]
}

// The index of the first units of `()`, `[]` and `{}`.
static STANDARD_FIRSTS: [bool; 256] = [
    false, false, false, false, false, false, false, false, false, false, false, false, false,
    false, false, false, false, false, false, false, false, false, false, false, false, false,
    false, false, false, false, false, false, false, false, false, false, false, false, false,
    false, true, true, false, false, false, false, false, false, false, false, false, false, false,
    false, false, false, false, false, false, false, false, false, false, false, false, false,
    false, false, false, false, false, false, false, false, false, false, false, false, false,
    false, false, false, false, false, false, false, false, false, false, false, false, true,
    false, true, false, false, false, false, false, false, false, false, false, false, false,
    false, false, false, false, false, false, false, false, false, false, false, false, false,
    false, false, false, false, false, true, false, true, false, false, false, false, false, false,
    false, false, false, false, false, false, false, false, false, false, false, false, false,
    false, false, false, false, false, false, false, false, false, false, false, false, false,
    false, false, false, false, false, false, false, false, false, false, false, false, false,
    false, false, false, false, false, false, false, false, false, false, false, false, false,
    false, false, false, false, false, false, false, false, false, false, false, false, false,
    false, false, false, false, false, false, false, false, false, false, false, false, false,
    false, false, false, false, false, false, false, false, false, false, false, false, false,
    false, false, false, false, false, false, false, false, false, false, false, false, false,
    false, false, false, false, false, false, false, false, false, false, false, false, false,
    false, false, false, false, false, false, false,
];

/// Returns the index of the first units of the standard table.
pub(crate) fn standard_firsts() -> &'static [bool]
    ensures { Indexes standard_table result.now }
{
    &STANDARD_FIRSTS
}
