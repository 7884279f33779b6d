//! The document: a text with edits, versions, decorations, undo and redo.
#![tactic(auto)]

mod errors;
mod latest;
mod model;
mod places;
mod ready;
mod walk;

pub use bracket_nodes::{Entry, Node, Status};
pub use bracket_scan::{BracketTable, Hiding, HidingError, TableError};
pub use column_encodings::Encoding;
pub use decoration_rules::Sticky;
pub use decorations::{Deco, NewDeco};
pub use document_rules::ModelError;
pub use edit_batches::{Batch, Event};
pub use model::Model;
pub use model::changes::Changes;
pub use model_page::ContentChange;
pub use node_reuse::Parsed;
pub use ready::Ready;
pub use steps::Steps;
pub use text_lengths::{Length, Position, Span};
pub use text_rules::Op;
pub use undo_rules::Tag;
pub use unit_text::{Kind, Units, units_of, utf8_of};
