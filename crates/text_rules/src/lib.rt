//! Definitions of lines and edits of a text, which contracts cite, and the plain types that they use.
#![tactic(auto)]

ghost use Rattle.std.specs.Prelude.{◌≡◌};
ghost use Rattle.text_rules.specs.Edits.{is_bad_span};

use text_lengths::Span;
use unit_text::{Flat, Units};

/// The maximum number of units of a text: 2^40 - 1.
pub const MOST_TEXT_UNITS: u64 = 0xFF_FFFF_FFFF;

/// One edit: `text` replaces the units in `span`.
#[derive(Drop, Debug)]
pub struct Op {
    pub span: Span,
    pub text: Units,
    /// Whether decoration bounds from the span's start to its end, both included, move to the end of the new text,
    /// whatever their stickiness. A decoration with `collapse` whose whole span is in the edit's span still moves to
    /// the span's start.
    pub force: bool,
}

/// Returns whether the span is invalid for the text: its start is greater than its end, or one of the two is no valid
/// offset of the text.
pub fn is_bad_span<F: Flat>(text: &F, span: Span) -> bool
    ensures { result ≡ is_bad_span (F.kind text.now) (F.units text.now) span }
{
    span.start > span.end || !text.are_places(span.start, span.end)
}
