//! Buffers that are ready before texts that do not fit in one buffer are appended.

ghost use Rattle.std.specs.Prelude.{◌≡◌, ◌+◌, ◌*◌, ◌≤◌, IfOk, length};
ghost use Rattle.std.specs.List.{All};
ghost use Rattle.chunk_buffers.specs.Buffer.{most_units};
ghost use Rattle.chunk_buffers.specs.Chunks.{IsReady, most_appended};

use crate::buffer::{Buffer, MOST_UNITS};
use crate::chunks::MOST_APPENDED;
use std::alloc::{AllocError, Global};

/// Returns the number of buffers that `units` units need beside one with room for `MOST_UNITS`.
pub(crate) fn ready_count(units: u64) -> u64
    ensures { units ≤ most_units + most_appended * result }
{
    units
        .saturating_sub(MOST_UNITS as u64)
        .div_ceil(MOST_APPENDED)
}

/// Returns this number of empty buffers, each with room for `MOST_UNITS` units and `breaks` breaks.
pub(crate) fn ready_buffers(
    alloc: Global,
    count: u64,
    breaks: u64,
) -> Result<Vec<Buffer>, AllocError>
    ensures ready { IfOk result (λ ready. All (IsReady breaks) ready.items) }
    ensures count { IfOk result (λ ready. length ready.items ≡ count) }
{
    let mut ready = Vec::new(alloc);
    for _buffer in 0..count {
        ready.push(Buffer::with_room(alloc, MOST_UNITS, breaks as usize)?)?;
    }
    Ok(ready)
}
