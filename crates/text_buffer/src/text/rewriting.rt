//! Rewrites adjacent pieces of few units as one.

ghost use Rattle.std.specs.Prelude.{◌≡◌, ◌+◌, ◌≤◌, true, false, length, IfSome, IsTrue};
ghost use Rattle.std.specs.List.{All};
ghost use Rattle.chunk_buffers.specs.Chunks.{unit_count, Extends};
ghost use Rattle.piece_tree.specs.Pieces.{IsFound};
ghost use Rattle.text_buffer.specs.Rewriting.{IsCrowded, HasRoomFor, least_rewritten, most_rewritten};

use crate::put::put_some;
use crate::remembered::Remembered;
use crate::room::MOST_REWRITTEN;
use crate::text::TextBuffer;
use line_starts::count_breaks;
use piece_tree::{MOST_PIECES, PieceTree, Stretch};

/// Fewer pieces than this are not rewritten.
pub const LEAST_REWRITTEN: usize = MOST_PIECES / 4 * 3;

/// No pieces are rewritten if the buffers hold more than this many times the units of the text, and 2^16.
const MOST_TIMES_HELD: u64 = 4;

/// Returns the pieces of the run that was looked up last, if they are many and have few units.
fn crowded(pieces: &PieceTree, remembered: &Remembered) -> Option<Stretch>
    requires { All (IsFound pieces.now.entries) remembered.now }
    ensures { IfSome result (IsCrowded pieces.now.entries) }
{
    let stretch = pieces.stretch_of(&remembered.last()?);
    if LEAST_REWRITTEN <= stretch.pieces && stretch.units <= MOST_REWRITTEN as u64 {
        Some(stretch)
    } else {
        None
    }
}

impl TextBuffer {
    /// Rewrites the pieces of the run that was changed last as one piece, if they are at least 12 and have at most 256 units together. Does
    /// so only if there is room for it and the buffers hold at most 4 times the units of the text and 2^16. Returns whether it did. It takes
    /// no memory.
    pub fn rewrite_crowded(&mut self) -> bool
        ensures units { self.new.units ≡ self.old.units }
        ensures kind { self.new.kind ≡ self.old.kind }
        ensures grown { Extends self.old.buffers self.new.buffers }
        ensures appended { unit_count self.new.buffers
            ≤ unit_count self.old.buffers + most_rewritten + 1 }
        ensures pieces { length self.new.spans ≤ length self.old.spans }
        ensures written { result ≡ true
            → length self.new.spans + least_rewritten ≤ length self.old.spans + 1 }
        ensures same { result ≡ false → self.new ≡ self.old }
    {
        let Some(stretch) = crowded(&self.pieces, &self.remembered) else {
            return false;
        };
        let start = stretch.first.before.units;
        let mut room = [0; MOST_REWRITTEN];
        let units = &mut room[..stretch.units as usize];
        self.read_into(start, units);
        if !self.can_append(units) {
            return false;
        }
        let added = put_some(&mut self.chunks, &[], units, &[], &mut None);
        let told = self.pieces.splice(
            Some(stretch.first),
            start,
            stretch.units,
            added,
            &self.chunks,
        );
        self.remembered.change_from(start, told);
        true
    }

    // Returns whether there is room for these units, and the buffers do not hold too much already.
    fn can_append(&self, units: &[u16]) -> bool
        ensures { IsTrue result → HasRoomFor units.now self.now.room }
    {
        let most_held = self.len().saturating_mul(MOST_TIMES_HELD);
        self.chunks.len() <= most_held.saturating_add(1 << 16)
            && self
                .chunks
                .has_room(units.len() as u64 + 1, count_breaks(units))
            && self.pieces.has_room()
    }
}
