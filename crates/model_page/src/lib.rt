//! The text side of a document: a text with its decorations and the last parse of its brackets. Edits change them together.
#![tactic(auto)]

mod apply;
mod brackets;
mod change;
mod compact;
mod events;
mod form;
mod in_turn;
mod last_parse;
mod line_endings;
mod page;
mod placed;
mod text_lines;

pub use change::{Change, Way, need_of, need_of_step};
pub use compact::{CompactRoom, MOST_HELD, MOST_TIMES_HELD};
pub use events::{batch_along, batches_along};
pub use in_turn::{ContentChange, StepEdits};
pub use page::Page;
pub use placed::{PlacedBatch, PlacedRecast};
