//! A part of a buffer.

/// A range of units in one of the buffers of a `Chunks`. The units in it never change.
#[derive(Clone, Copy, PartialEq, Eq, Debug)]
pub struct ChunkSpan {
    /// The index of the buffer, from 0.
    pub buffer: u32,
    /// The offset of its first unit in the buffer.
    pub start: u32,
    /// Its length in units.
    pub units: u32,
}
