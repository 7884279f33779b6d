//! Documents with which tests begin.

use edit_batches::one_op;
use model_core::{BracketTable, Hiding, Kind, Model, ModelError};
use std::alloc::Global;
use std::test::Fail;
use text_lengths::Span;

/// Opens a document with this text and the standard brackets.
pub fn open(model: &mut Model, text: &[u16]) -> Result<(), ModelError> {
    model.open_doc(text, BracketTable::standard(), Kind::Mixed, Hiding::none())
}

/// Replaces the span by these units.
pub fn put(alloc: Global, model: &mut Model, span: Span, units: &[u16]) -> Result<(), Fail> {
    model.edit(one_op(alloc, span, units, false)?)?;
    Ok(())
}
