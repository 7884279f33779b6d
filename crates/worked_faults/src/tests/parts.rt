//! Scripts and replies in parts, since a table stores no long ones.

use std::alloc::{AllocError, Global};

/// A part of a script, or of the expected output.
#[derive(Clone, Copy)]
pub enum Part {
    Text(&'static str),
    Bytes(&'static [u8]),
    /// The text, repeated this many times.
    Times(&'static str, u64),
    /// This many blanks.
    Blanks(usize),
    /// The line once for each of its bytes, with that byte replaced by one that never occurs in UTF-8.
    BrokenAtEachByte(&'static str),
    /// The reply of `brackets` to this many unclosed opening brackets in the first line.
    Unclosed(u64),
    /// Each number from 1 to this one, each in a reply of its own.
    Counted(u64),
}

/// Returns the concatenation of the parts.
pub fn bytes_of(alloc: Global, parts: &[Part]) -> Result<Vec<u8>, AllocError> {
    let mut bytes = Vec::new(alloc);
    for part in parts {
        push_part(alloc, part, &mut bytes)?;
    }
    Ok(bytes)
}

fn push_part(alloc: Global, part: &Part, bytes: &mut Vec<u8>) -> Result<(), AllocError> {
    match part {
        Part::Text(text) => bytes.extend_from_slice(text.as_bytes()),
        Part::Bytes(slice) => bytes.extend_from_slice(slice),
        Part::Times(text, times) => push_times(text.as_bytes(), *times, bytes),
        Part::Blanks(count) => push_blanks(*count, bytes),
        Part::BrokenAtEachByte(line) => push_broken(line.as_bytes(), bytes),
        Part::Unclosed(count) => push_unclosed(alloc, *count, bytes),
        Part::Counted(count) => push_counted(alloc, *count, bytes),
    }
}

fn push_times(text: &[u8], times: u64, bytes: &mut Vec<u8>) -> Result<(), AllocError> {
    for _ in 0..times {
        bytes.extend_from_slice(text)?;
    }
    Ok(())
}

fn push_blanks(count: usize, bytes: &mut Vec<u8>) -> Result<(), AllocError> {
    bytes.resize(bytes.len().saturating_add(count), b' ')
}

fn push_broken(line: &[u8], bytes: &mut Vec<u8>) -> Result<(), AllocError> {
    for at in 0..line.len() {
        bytes.extend_from_slice(&line[..at])?;
        bytes.push(0xFF)?;
        bytes.extend_from_slice(&line[at + 1..])?;
        bytes.push(b'\n')?;
    }
    Ok(())
}

fn push_unclosed(alloc: Global, count: u64, bytes: &mut Vec<u8>) -> Result<(), AllocError> {
    bytes.extend_from_slice(b"ok")?;
    for level in 0..count {
        let entry = format!(in alloc; " 1 {} 1 0 u {level}", level.saturating_add(1))?;
        bytes.extend_from_slice(entry.as_bytes())?;
    }
    bytes.push(b'\n')?;
    Ok(())
}

fn push_counted(alloc: Global, count: u64, bytes: &mut Vec<u8>) -> Result<(), AllocError> {
    for number in 0..count {
        let reply = format!(in alloc; "ok {}\n", number.saturating_add(1))?;
        bytes.extend_from_slice(reply.as_bytes())?;
    }
    Ok(())
}
