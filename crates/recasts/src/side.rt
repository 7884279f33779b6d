//! One of the two texts of a recast.

ghost use Rattle.std.specs.Prelude.{◌≡◌};

use decoration_rules::LineMove;
use std::marker::Model;
use unit_text::{Kind, Units};

/// One of the two texts of a recast, with the moves of the lines to it from the other.
#[derive(Drop)]
pub struct Side {
    units: Units,
    kind: Kind,
    moves: Vec<LineMove>,
}

impl Model for Side {
    ghost use Rattle.decoration_rules.specs.Recasts.{SideState};

    ghost Value = { SideState };

    ghost view = { λ s. record { units = s.units; kind = s.kind; moves = s.moves.items } };
}

impl Side {
    pub(crate) fn new(units: Vec<u16>, kind: Kind, moves: Vec<LineMove>) -> Side
        ensures { result ≡ record { units = units.items; kind = kind; moves = moves.items } }
    {
        Side {
            units: Units::from_vec(units),
            kind,
            moves,
        }
    }

    /// Returns the text in UTF-16 code units.
    pub fn units(&self) -> &[u16]
        ensures { result.now ≡ self.now.units }
    {
        self.units.as_slice()
    }

    /// Returns the kind of its line endings.
    pub fn kind(&self) -> Kind
        ensures { result ≡ self.now.kind }
    {
        self.kind
    }

    /// Returns the move of each of its lines from the other text, in order. Offsets and lengths count units.
    pub fn moves(&self) -> &[LineMove]
        ensures { result.now ≡ self.now.moves }
    {
        self.moves.as_slice()
    }
}
