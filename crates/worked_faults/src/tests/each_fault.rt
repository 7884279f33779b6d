//! A script in which each read, or each write, fails in turn.

use super::expected::expect_written;
use memory_streams::Fault;
use script_checks::{ALL_READ, ALL_WRITTEN, Reads, Writes, script_and_replies};
use std::alloc::{AllocError, Global};
use std::process::Abort;

/// The most bytes that a read gives.
const READ_BYTES: usize = 7;

/// The most bytes that a write takes.
const WRITTEN_BYTES: usize = 3;

/// The lines read whole before a read failed have their replies, and no other line has.
pub fn expect_each_read_fault<R: AllocGlobal + Abort>(
    rt: &R,
    rows: &str,
) -> Result<(), AllocError> {
    let (script, replies) = script_and_replies(rt.alloc(), "", rows)?;
    let (script, replies) = (script.as_bytes(), replies.as_str());
    let mut given = Vec::new(rt.alloc());
    let mut call = 1;
    for piece in script.chunks(READ_BYTES) {
        let written = replies_to(rt.alloc(), given.as_slice(), replies)?;
        expect_read_fault(rt, script, call, written.as_bytes())?;
        given.extend_from_slice(piece)?;
        call = call.saturating_add(1);
    }
    expect_read_fault(rt, script, call, replies.as_bytes())
}

/// Returns the replies to the lines that are complete in the first bytes of a script.
fn replies_to(alloc: Global, given: &[u8], replies: &str) -> Result<String, AllocError> {
    let lines = given.iter().filter(|byte| **byte == b'\n').count();
    let mut written = String::new(alloc);
    for reply in replies.split_inclusive('\n').take(lines) {
        written.push_str(reply)?;
    }
    Ok(written)
}

fn expect_read_fault<R: AllocGlobal + Abort>(
    rt: &R,
    script: &[u8],
    call: u64,
    written: &[u8],
) -> Result<(), AllocError> {
    let reads = Reads {
        each: READ_BYTES,
        failing: Some(call),
    };
    let name = format!(in rt.alloc(); "read {call} fails")?;
    expect_written(rt, name.as_str(), script, (reads, ALL_WRITTEN), written, 4)
}

/// The bytes taken before a write failed are there, and nothing else.
pub fn expect_each_write_fault<R: AllocGlobal + Abort>(
    rt: &R,
    rows: &str,
) -> Result<(), AllocError> {
    let (script, replies) = script_and_replies(rt.alloc(), "", rows)?;
    let mut written = Vec::new(rt.alloc());
    let mut call = 1;
    for reply in replies.as_str().split_inclusive('\n') {
        let reply = reply.as_bytes();
        call = each_write_of(rt, script.as_bytes(), reply, call, &mut written)?;
    }
    Ok(())
}

/// Makes each write of the reply fail in turn. Returns the number of the write after them.
fn each_write_of<R: AllocGlobal + Abort>(
    rt: &R,
    script: &[u8],
    reply: &[u8],
    first: u64,
    written: &mut Vec<u8>,
) -> Result<u64, AllocError> {
    let mut call = first;
    for piece in reply.chunks(WRITTEN_BYTES) {
        expect_write_fault(rt, script, call, written.as_slice())?;
        written.extend_from_slice(piece)?;
        call = call.saturating_add(1);
    }
    Ok(call)
}

fn expect_write_fault<R: AllocGlobal + Abort>(
    rt: &R,
    script: &[u8],
    call: u64,
    written: &[u8],
) -> Result<(), AllocError> {
    let writes = Writes {
        each: WRITTEN_BYTES,
        faults: &[Fault::Fails { call }],
    };
    let name = format!(in rt.alloc(); "write {call} fails")?;
    expect_written(rt, name.as_str(), script, (ALL_READ, writes), written, 5)
}
