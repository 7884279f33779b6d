//! How the history stores a batch: one short op inline, or all ops behind a pointer.

ghost use Rattle.std.specs.Prelude.{◌≡◌, ◌≤◌, [], ◌∷◌, length, IfSome};
ghost use Rattle.batch_rules.specs.Batches.{inverse_from};
ghost use Rattle.model_page.specs.Placed.{op_with, IsKeptAs};

use chunk_buffers::ChunkSpan;
use edit_batches::SharedBatch;
use std::cell::Cell;
use text_buffer::TextBuffer;
use text_lengths::Span;
use text_rules::Op;
use unit_text::Flat;

/// The most units of a text that is stored inline.
pub(crate) const MOST_SHORT: usize = 4;

/// The span of the buffers in which a text was put last, if known.
pub(crate) type Place = Cell<Option<ChunkSpan>>;

/// A stored batch. Its fields are ordered to leave no padding, since these make up most of a history.
#[derive(Drop)]
pub(crate) enum Form {
    /// One op. It removes `taken` units from `start` on and inserts the first `len` of the stored units.
    Short {
        len: u8,
        force: bool,
        taken: u32,
        units: [u16; MOST_SHORT],
        start: u64,
    },
    /// Any number of ops.
    Many(Box<PlacedOps>),
}

/// A batch, with the places of its texts.
#[derive(Drop)]
pub(crate) struct PlacedOps {
    pub(crate) batch: SharedBatch,
    /// One for each op, or empty.
    pub(crate) places: Vec<Place>,
}

/// Stores the op inline; None if it is too long.
pub(crate) fn short(span: Span, text: &[u16], force: bool) -> Option<Form>
    requires { span.start ≤ span.end }
    ensures { IfSome result (IsKeptAs (op_with span text.now force ∷ [])) }
{
    let taken = span.end - span.start;
    if text.len() > MOST_SHORT || taken > u32::MAX as u64 {
        return None;
    }
    let mut units = [0; MOST_SHORT];
    units[..text.len()].copy_from_slice(text);
    Some(Form::Short {
        len: text.len() as u8,
        force,
        taken: taken as u32,
        units,
        start: span.start,
    })
}

/// Stores the inverse of the op inline; None if it is too long.
pub(crate) fn short_inverse(op: &Op, text: &TextBuffer) -> Option<Form>
    requires ordered { op.now.span.start ≤ op.now.span.end }
    requires within { op.now.span.end ≤ length text.now.units }
    ensures { IfSome result (IsKeptAs (inverse_from 0 0 text.now.units (op.now ∷ []))) }
{
    let taken = op.span.end - op.span.start;
    if taken > MOST_SHORT as u64 {
        return None;
    }
    let mut units = [0; MOST_SHORT];
    let back = &mut units[..taken as usize];
    text.read_into(op.span.start, back);
    let put = Span {
        start: op.span.start,
        end: op.span.start.checked_add(op.text.len())?,
    };
    short(put, back, false)
}
