//! Places of brackets as positions.

ghost use Rattle.std.specs.Prelude.{◌≡◌, IfSome};
ghost use Rattle.std.specs.Option.{option_map};
ghost use Rattle.text_rules.specs.Positions.{is_position};
ghost use Rattle.document_rules.specs.Brackets.{place_of, position_at, IsSmall};

use text_buffer::TextBuffer;
use text_lengths::{Length, Position};

/// Returns the lines before the position, and the units before it in its line.
pub(crate) fn place_of(p: Position) -> Length
    ensures { result ≡ place_of p }
{
    Length {
        lines: p.line.saturating_sub(1),
        columns: p.column.saturating_sub(1),
    }
}

/// Converts the place into a position; the units stay.
pub(crate) fn told(spot: Option<(Length, u64)>) -> Option<(Position, u64)>
    requires { IfSome spot (λ s. IsSmall s.0) }
    ensures { result ≡ option_map (λ s. (position_at s.0, s.1)) spot }
{
    let (place, len) = spot?;
    let p = Position {
        line: place.lines + 1,
        column: place.columns + 1,
    };
    Some((p, len))
}

/// Returns whether the position is valid in the text.
pub(crate) fn is_position(text: &TextBuffer, p: Position) -> bool
    ensures { result ≡ is_position text.now.units p }
{
    text.offset(p).is_some()
}
