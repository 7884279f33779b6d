//! Rewrites a text whose buffers hold far more than it, and adjacent pieces of few units.

ghost use Rattle.std.specs.Prelude.{◌≡◌, ◌+◌, ◌≤◌, true, false, length, IfOk, IfSome, is_some};
ghost use Rattle.unit_text.specs.Kinds.{IsOfKind};
ghost use Rattle.chunk_buffers.specs.Chunks.{unit_count, Extends};
ghost use Rattle.text_buffer.specs.Rewriting.{most_rewritten};
ghost use Rattle.model_page.specs.Compact.{IsCompacted, IsCompactOf, HasRoomAfter, fits, is_outgrown};

use crate::page::Page;
use std::alloc::{AllocError, Global};
use std::marker::Model;
use text_buffer::{Need, TextBuffer, part_count};
use unit_text::Flat;

/// A text is rewritten if its buffers hold more than this many times its units, and `MOST_HELD` more.
pub const MOST_TIMES_HELD: u64 = 3;

/// The number of units that the buffers may hold beside `MOST_TIMES_HELD` times those of the text.
pub const MOST_HELD: u64 = 1 << 15;

/// Room to rewrite a page's text as one piece. Contracts see how many units and breaks fit.
#[derive(Drop)]
pub struct CompactRoom {
    /// As long as the longest text that fits; at most one part.
    units: Vec<u16>,
    /// The most breaks that fit.
    breaks: u64,
    /// A text with room for one edit of that many units and breaks.
    text: TextBuffer,
}

impl Model for CompactRoom {
    ghost use Rattle.std.specs.Prelude.{length};
    ghost use Rattle.model_page.specs.Compact.{MostFitting, IsRoomFor};

    ghost Value = { MostFitting };

    ghost view = { λ r. record { units = length r.units.items; breaks = r.breaks } };

    ghost invariant = { λ r. IsRoomFor r.text (length r.units.items) r.breaks };
}

impl CompactRoom {
    // Reserves room for a text of at most `units` units and `breaks` breaks. Fails if memory is short, or if that may be more than one part.
    fn taken(alloc: Global, units: u64, breaks: u64) -> Result<CompactRoom, AllocError>
        ensures units { IfOk result (λ room. room.units ≡ units) }
        ensures breaks { IfOk result (λ room. room.breaks ≡ breaks) }
    {
        let read = vec![in alloc; 0; units as usize]?;
        if part_count(read.as_slice()) > 1 {
            return Err(AllocError);
        }
        let mut text = TextBuffer::new(alloc);
        text.reserve(Need {
            edits: 1,
            units,
            breaks,
        })?;
        Ok(CompactRoom {
            units: read,
            breaks,
            text,
        })
    }

    // Returns whether the text fits.
    fn fits(&self, text: &TextBuffer) -> bool
        ensures { result ≡ fits self.now text.now.units }
    {
        text.len() <= self.units.len() as u64 && text.line_count().saturating_sub(1) <= self.breaks
    }

    // Returns the text in one piece.
    fn filled(self, text: &TextBuffer) -> TextBuffer
        requires fits { fits self text.now.units ≡ true }
        requires endings { IsOfKind text.now.kind text.now.units }
        ensures { IsCompactOf text.now result }
    {
        // A text that has units has a piece.
        let _runs = text.runs_from(0);
        let CompactRoom {
            mut units,
            text: mut new,
            ..
        } = self;
        let read = &mut units[..text.len() as usize];
        text.read_into(0, read);
        new.recast(text.kind(), read);
        new
    }
}

impl Page {
    /// Returns whether the buffers hold more than 3 times the units of the text, and 2^15.
    pub fn is_outgrown(&self) -> bool
        ensures { result ≡ is_outgrown self.now.text }
    {
        MOST_TIMES_HELD * self.text.len() + MOST_HELD < self.text.chunks().len()
    }

    /// Reserves room to rewrite the text after a change with this need, if the buffers hold more than 3 times its units and 2^15 now; else
    /// returns None.
    pub fn compact_room(&self, need: Need) -> Result<Option<CompactRoom>, AllocError>
        ensures due { IfOk result (λ room. is_some room ≡ is_outgrown self.now.text) }
        ensures enough { IfOk result (λ room. IfSome room (HasRoomAfter self.now.text need)) }
    {
        if !self.is_outgrown() {
            return Ok(None);
        }
        // An edit that cuts a CR LF makes a break.
        let units = self.text.len().checked_add(need.units).ok_or(AllocError)?;
        let cut = need.edits.saturating_mul(2);
        let breaks = self.text.line_count().saturating_add(cut);
        let breaks = breaks.checked_add(need.breaks).ok_or(AllocError)?;
        Ok(Some(CompactRoom::taken(self.alloc, units, breaks)?))
    }

    /// Rewrites the text as one piece in this room, if it fits, and drops the old buffers. Returns whether it did. It takes no memory.
    pub fn compact(&mut self, room: CompactRoom) -> bool
        ensures page { IsCompacted self.old self.new }
        ensures answer { result ≡ fits room self.old.text.units }
        ensures written { result ≡ true → length self.new.text.spans ≤ 1 }
        ensures alone { result ≡ true → unit_count self.new.text.buffers
            ≤ length self.old.text.units + 8 }
        ensures same { result ≡ false → self.new ≡ self.old }
    {
        if !room.fits(&self.text) {
            return false;
        }
        self.text = room.filled(&self.text);
        true
    }

    /// Rewrites adjacent pieces of few units as one, as `TextBuffer::rewrite_crowded` does. It takes no memory.
    pub fn rewrite_crowded(&mut self)
        ensures page { IsCompacted self.old self.new }
        ensures buffers { Extends self.old.text.buffers self.new.text.buffers }
        ensures appended { unit_count self.new.text.buffers
            ≤ unit_count self.old.text.buffers + most_rewritten + 1 }
    {
        self.text.rewrite_crowded();
    }
}
