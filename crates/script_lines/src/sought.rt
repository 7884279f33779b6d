//! The search text of a line.

ghost use Rattle.std.specs.Prelude.{◌≡◌, ◌<◌, length};
ghost use Rattle.script_lines.specs.SearchCommands.{sought_of};

use std::marker::Model;
use unit_text::Units;

/// A search text of at least one unit. In contracts it is the list of its units.
#[derive(Drop, Debug)]
pub struct Sought {
    units: Units,
}

impl Model for Sought {
    ghost use Rattle.std.specs.Prelude.{List, ℕ, ◌<◌, length};

    ghost Value = { List ℕ };

    ghost view = { λ sought. sought.units };

    ghost invariant = { λ sought. 0 < length sought.units };
}

impl Sought {
    /// Wraps the units without copying them; returns None if there are none.
    pub fn from_units(units: Units) -> Option<Sought>
        ensures { result ≡ sought_of units }
    {
        if units.as_slice().is_empty() {
            return None;
        }
        Some(Sought { units })
    }

    pub fn as_slice(&self) -> &[u16]
        ensures value { result.now ≡ self.now }
        ensures some { 0 < length result.now }
    {
        self.units.as_slice()
    }
}
