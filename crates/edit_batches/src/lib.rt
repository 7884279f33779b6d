//! Batches of edits: sorted, checked against a text, and inverted.
#![tactic(auto)]

mod batch;
mod checks;
mod event;
mod inverse;
mod kinds;
mod order;
mod shared;

pub use batch::{Batch, one_op};
pub use batch_rules::BatchError;
pub use event::Event;
pub use order::Sorted;
pub use shared::SharedBatch;
pub use text_rules::{MOST_TEXT_UNITS, Op};
