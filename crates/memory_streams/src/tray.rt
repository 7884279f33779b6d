//! Storage for a limited number of bytes.
ghost use Rattle.std.specs.Prelude.{◌≡◌, ◌≤◌, IfOk, [], Some, vec_len, vec_capacity};
ghost use Rattle.std.specs.Option.{option_copied};
ghost use Rattle.memory_streams.specs.Planned.{told_with};

use std::alloc::{AllocError, Global};

/// Keeps bytes while they fit its room, and shows none once they did not.
#[derive(Drop)]
pub(crate) struct Tray {
    pub(crate) bytes: Vec<u8>,
    pub(crate) room: usize,
    pub(crate) overflowed: bool,
    ghost within: { vec_len bytes ≤ room },
    ghost reserved: { room ≤ vec_capacity bytes },
}

impl Tray {
    ghost use Rattle.memory_streams.specs.Tray.{bytes_told};

    pub(crate) fn with_room(alloc: Global, room: usize) -> Result<Tray, AllocError>
        ensures empty { IfOk result (λ tray. bytes_told tray ≡ Some []) }
        ensures room { IfOk result (λ tray. tray.room ≡ room) }
    {
        Ok(Tray {
            bytes: Vec::with_capacity(alloc, room)?,
            room,
            overflowed: false,
        })
    }

    /// Appends the piece if it fits; else no bytes are shown from then on. Allocates nothing.
    pub(crate) fn put(&mut self, piece: &[u8])
        ensures told { bytes_told self.new
            ≡ told_with self.old.room (bytes_told self.old) piece.now }
        ensures room { self.new.room ≡ self.old.room }
    {
        let fits = piece.len() <= self.room - self.bytes.len();
        let kept = fits && self.bytes.extend_from_slice(piece).is_ok();
        self.overflowed = self.overflowed || !kept;
    }

    pub(crate) fn bytes(&self) -> Option<&[u8]>
        ensures { option_copied result ≡ bytes_told self.now }
    {
        if self.overflowed {
            None
        } else {
            Some(&self.bytes)
        }
    }
}
