//! Breaks of a part of a buffer, compared with a search unit by unit. Short parts are read, long ones searched.

ghost use Rattle.std.specs.Prelude.{◌≡◌, ◌≤◌, length};
ghost use Rattle.chunk_buffers.specs.Chunks.{LiesIn};

use chunk_buffers::{ChunkSpan, Chunks};
use plain_breaks::find_starts;
use std::alloc::{AllocError, Global};
use std::test::Fail;

const CARRIAGE_RETURN: u16 = 13;

const LINE_FEED: u16 = 10;

const LETTER: u16 = 0x61;

/// A little more than the length of two short parts.
const LEN: usize = 150;

/// Returns a text with breaks CR, LF and CR LF at varying distances.
fn mixed() -> [u16; LEN] {
    let mut units = [LETTER; LEN];
    for at in 0..LEN {
        if at % 7 == 3 {
            units[at] = CARRIAGE_RETURN;
        }
        if at % 5 == 4 {
            units[at] = LINE_FEED;
        }
    }
    units
}

/// Whether the breaks of the part end at the places that the search unit by unit gives.
fn agrees(
    alloc: Global,
    chunks: &Chunks,
    whole: ChunkSpan,
    from: u64,
    to: u64,
) -> Result<bool, AllocError>
    requires inside { LiesIn chunks.now.buffers whole }
    requires ordered { from ≤ to }
    requires within { to ≤ whole.units }
{
    let part = chunks.part(whole, from, to);
    let mut plain = Vec::new(alloc);
    find_starts(chunks.units(part), &mut plain)?;
    let mut starts = Vec::new(alloc);
    starts.push(0)?;
    for k in 0..chunks.breaks(part) {
        starts.push(chunks.nth_break(part, k + 1))?;
    }
    Ok(starts.as_slice() == plain.as_slice())
}

/// Parts from each place on, with lengths around the limit up to which they are read.
#[test]
fn breaks_of_parts(rt: HostRuntime) -> Result<(), Fail> {
    let mut chunks = Chunks::new(rt.alloc());
    let (whole, _breaks) = chunks.append_whole(Vec::from_slice(rt.alloc(), &mixed())?)?;
    let end = whole.units as u64;
    for from in 0..end {
        for len in [1, 2, 63, 64, 65, 80] {
            let to = end.min(from + len);
            assert!(rt; agrees(rt.alloc(), &chunks, whole, from, to)?);
        }
    }
    Ok(())
}
