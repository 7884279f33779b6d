//! The room that edits need.

ghost use Rattle.std.specs.Prelude.{◌≡◌, ◌+◌, ◌*◌, IfOk};
ghost use Rattle.text_buffer.specs.Room.{units_beside_text, breaks_beside_text, part_count, need_of_edit};

use crate::beside::{MOST_ALONG, MOST_BREAKS_ALONG};
use chunk_buffers::MOST_APPENDED;
use line_starts::count_breaks;
use piece_tree::MOST_PIECES;
use std::alloc::AllocError;

/// The most units that an edit appends beside its text: those taken along on both sides, and one that separates buffers.
pub(crate) const UNITS_AN_EDIT: u64 = 2 * MOST_ALONG as u64 + 1;

/// The most breaks that an edit appends beside those of its text: those taken along on both sides, and one in place of a CR LF that is cut
/// between two parts of a text.
pub(crate) const BREAKS_AN_EDIT: u64 = 2 * MOST_BREAKS_ALONG + 1;

/// A longer text is put in as several parts, one edit each. With the units beside it a part fits in one append.
pub(crate) const MOST_PART: usize = MOST_APPENDED as usize - (1 << 16);

/// The most units that are rewritten after an edit.
pub const MOST_REWRITTEN: usize = 16 * MOST_PIECES;

/// The room that edits need: their number, and the units and breaks of all their texts.
#[derive(Clone, Copy)]
pub struct Need {
    pub edits: u64,
    pub units: u64,
    pub breaks: u64,
}

/// Returns the number of parts in which this text is put in, at least 1.
pub fn part_count(text: &[u16]) -> u64
    ensures { result ≡ part_count text.now }
{
    1 + (text.len().saturating_sub(1) / MOST_PART) as u64
}

impl Need {
    /// Returns the need of one edit that replaces a span by this text.
    pub fn of_edit(text: &[u16]) -> Need
        ensures { result ≡ need_of_edit text.now }
    {
        Need {
            edits: part_count(text),
            units: text.len() as u64,
            breaks: count_breaks(text),
        }
    }

    /// Returns the need of these edits together with that of rewriting pieces. The numbers saturate.
    pub(crate) fn with_rewriting(self) -> Need {
        Need {
            edits: self.edits.saturating_add(1),
            units: self.units.saturating_add(MOST_REWRITTEN as u64),
            breaks: self.breaks.saturating_add(MOST_REWRITTEN as u64),
        }
    }

    /// Returns the most units that the edits append.
    pub(crate) fn most_units(self) -> Result<u64, AllocError>
        ensures { IfOk result (λ all. all ≡ self.units + units_beside_text * self.edits) }
    {
        with_edits(self.units, self.edits, UNITS_AN_EDIT)
    }

    /// Returns the most breaks that the edits append.
    pub(crate) fn most_breaks(self) -> Result<u64, AllocError>
        ensures { IfOk result (λ all. all ≡ self.breaks + breaks_beside_text * self.edits) }
    {
        with_edits(self.breaks, self.edits, BREAKS_AN_EDIT)
    }
}

// Returns `own` plus `each` for every edit.
fn with_edits(own: u64, edits: u64, each: u64) -> Result<u64, AllocError>
    ensures { IfOk result (λ all. all ≡ own + each * edits) }
{
    edits
        .checked_mul(each)
        .and_then(|more| own.checked_add(more))
        .ok_or(AllocError)
}
