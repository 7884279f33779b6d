//! Rewrites the text after a change.

ghost use Rattle.std.specs.Prelude.{◌≡◌, ◌+◌, ◌≤◌, true, false, length};
ghost use Rattle.chunk_buffers.specs.Chunks.{at_most_64_bits};
ghost use Rattle.text_buffer.specs.Rewriting.{most_rewritten};
ghost use Rattle.model_core.specs.Compact.{CanRewrite, IsCompacted, IsRewritten};

use crate::model::Model;
use model_page::{CompactRoom, Page};
use snapshots::Shelf;
use text_buffer::Need;

/// Reserves room to rewrite the text after a change with this need, as `Page::compact_room` does. Returns None if it reserves none, a
/// snapshot is open or memory is short; the text is not rewritten then.
pub(crate) fn compact_room(page: &Page, shelf: &Shelf, need: Need) -> Option<CompactRoom> {
    if shelf.is_empty() {
        page.compact_room(need).unwrap_or(None)
    } else {
        None
    }
}

impl Model {
    /// Returns the number of units in the buffers of the text, at most 2^64 - 1. After each change it is at most 3 times the units of the
    /// text before, those of the text after, those of the change with 8 for each edit, and 2^16, unless `is_overfull` returns true.
    pub fn held(&self) -> u64
        ensures { result ≡ at_most_64_bits self.now.held }
    {
        self.page.text().chunks().len()
    }

    /// Returns whether the buffers held too much before the last change, and could not be reduced: memory was short, a snapshot was open, or
    /// the text with that change might have had more than 2^31 - 2^16 units.
    pub fn is_overfull(&self) -> bool
        ensures { result ≡ self.now.overfull }
    {
        self.overfull
    }

    /// Rewrites the text if that is due, in this room, or notes that it was not possible; then adjacent pieces of few units. It takes no
    /// memory.
    pub(crate) fn rewrite(&mut self, due: bool, room: Option<CompactRoom>)
        ensures model { IsCompacted self.old self.new }
        ensures held { IsRewritten due room self.old self.new }
    {
        let written = self.compact(due, room);
        self.overfull = due && !written;
        self.rewrite_crowded();
    }

    // Rewrites the text in this room, as `Page::compact` does, if that is due, there is room and no snapshot is open. Returns whether it
    // did. It takes no memory.
    fn compact(&mut self, due: bool, room: Option<CompactRoom>) -> bool
        ensures due { due ≡ false → result ≡ false }
        ensures sure { due ≡ true → CanRewrite room self.old → result ≡ true }
        ensures model { IsCompacted self.old self.new }
        ensures alone { result ≡ true → self.new.held ≤ length self.new.document.units + 8 }
        ensures same { result ≡ false → self.new ≡ self.old }
    {
        let Some(room) = room else {
            return false;
        };
        if !due || !self.shelf.is_empty() {
            return false;
        }
        self.page.compact(room)
    }

    // Rewrites adjacent pieces of few units, as `Page::rewrite_crowded` does. It takes no memory.
    fn rewrite_crowded(&mut self)
        ensures model { IsCompacted self.old self.new }
        ensures overfull { self.new.overfull ≡ self.old.overfull }
        ensures kept { self.old.held ≤ self.new.held }
        ensures few { self.new.held ≤ self.old.held + (most_rewritten + 1) }
    {
        self.page.rewrite_crowded();
    }
}
