//! A run compared with what is expected of it.

use script_checks::{Reads, Writes, difference};
use std::alloc::AllocError;
use std::process::Abort;

/// Expects the run of the script, with these reads and writes, to end with the status and to write exactly this.
pub fn expect_written<R: AllocGlobal + Abort>(
    rt: &R,
    name: &str,
    script: &[u8],
    streams: (Reads, Writes<'_>),
    written: &[u8],
    status: u8,
) -> Result<(), AllocError> {
    let (reads, writes) = streams;
    let found = difference(rt.alloc(), name, script, reads, writes, written, status)?;
    assert!(rt; found.is_none(), "{found:?}");
    Ok(())
}
