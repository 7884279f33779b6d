//! The marks of a document that hide brackets. They are checked once, and then find what is hidden at the start of some
//! units.
#![tactic(auto)]

mod hidden;
mod hiding;
mod rules;
mod texts;

pub use hiding::{Hiding, HidingError};
pub use hiding_rules::{LineState, Stretch, Within};
pub use texts::is_bracket_text;
