//! Definitions of decorations, of how an edit moves them and of the answers to queries, which contracts cite, and the
//! plain types that they use.
#![tactic(auto)]

ghost use Rattle.std.specs.Prelude.{◌≡◌};
ghost use Rattle.decoration_rules.specs.Decorations.{sticky_of, mode_of, deco_of};

use text_lengths::Span;
use thiserror::Error;

/// The maximum number of live decorations.
pub const MOST_DECORATIONS: u64 = 1 << 20;

/// The largest mode number of a [`Sticky`].
pub const GREATEST_MODE: u64 = 3;

/// How a decoration grows when text is inserted exactly at its start or its end.
#[derive(Clone, Copy, PartialEq, Eq, Debug)]
pub enum Sticky {
    AlwaysGrows,
    NeverGrows,
    /// Grows by text inserted at its start, not by text inserted at its end.
    GrowsBefore,
    /// Grows by text inserted at its end, not by text inserted at its start.
    GrowsAfter,
}

impl Sticky {
    /// Returns the stickiness with this mode number; None if `mode` is above [`GREATEST_MODE`].
    pub fn of_mode(mode: u64) -> Option<Sticky>
        ensures { result ≡ sticky_of mode }
    {
        match mode {
            0 => Some(Sticky::AlwaysGrows),
            1 => Some(Sticky::NeverGrows),
            2 => Some(Sticky::GrowsBefore),
            3 => Some(Sticky::GrowsAfter),
            _ => None,
        }
    }

    /// Returns the mode number, from 0 to [`GREATEST_MODE`].
    pub fn mode(self) -> u64
        ensures { result ≡ mode_of self }
    {
        match self {
            Sticky::AlwaysGrows => 0,
            Sticky::NeverGrows => 1,
            Sticky::GrowsBefore => 2,
            Sticky::GrowsAfter => 3,
        }
    }
}

/// An edit without its text: `units` units replace the units from offset `start` up to offset `end`.
#[derive(Clone, Copy, PartialEq, Eq, Debug)]
pub struct Edit {
    pub start: u64,
    pub end: u64,
    pub units: u64,
    /// Whether decoration bounds from `start` to `end`, both included, move to the end of the new text, whatever their
    /// stickiness. A decoration with `collapse` whose whole span is in that range still moves to `start`.
    pub force: bool,
}

/// A line whose content is unchanged and whose start offset changes, for example when the line endings of a text change
/// their kind.
#[derive(Clone, Copy, PartialEq, Eq, Debug)]
pub struct LineMove {
    /// The start offset of the line before the change.
    pub old: u64,
    /// The number of units of the line without its line ending.
    pub content: u64,
    /// The start offset of the line after the change.
    pub new: u64,
}

/// A live decoration.
#[derive(Clone, Copy, PartialEq, Eq, Debug)]
pub struct Mark {
    pub id: u64,
    pub owner: u64,
    pub span: Span,
    pub sticky: Sticky,
    /// Whether an edit whose span contains the decoration's span leaves it empty at the edit's start.
    pub collapse: bool,
}

impl Mark {
    /// Returns the decoration in the form of query results, with its mode as a number.
    pub fn deco(&self) -> Deco
        ensures { result ≡ deco_of self.now }
    {
        Deco {
            id: self.id,
            owner: self.owner,
            span: self.span,
            stick: self.sticky.mode(),
            collapse: self.collapse,
        }
    }
}

/// A decoration to add. `stick` is its mode, a number from 0 to 3.
#[derive(Clone, Copy, PartialEq, Eq, Debug)]
pub struct NewDeco {
    pub span: Span,
    pub stick: u64,
    pub collapse: bool,
}

/// A live decoration in the form of query results. `stick` is its mode, a number from 0 to 3.
#[derive(Clone, Copy, PartialEq, Eq, Debug)]
pub struct Deco {
    pub id: u64,
    pub owner: u64,
    pub span: Span,
    pub stick: u64,
    pub collapse: bool,
}

/// The reason why a change of decorations failed.
#[derive(Clone, Copy, PartialEq, Eq, Debug, Error)]
pub enum DecoError {
    /// A given id is not live, belongs to another owner, or is given twice.
    #[error("a named decoration is not live, has another owner, or is named twice")]
    Unknown,
    /// A span is invalid for the text, or a mode is above 3.
    #[error("a span is not one of the text, or there is no such mode")]
    Range,
    /// There would be more than [`MOST_DECORATIONS`] decorations, or no id is left for a new one.
    #[error("a limit would be passed")]
    Limit,
    /// Out of memory.
    #[error("out of memory")]
    Memory,
}
