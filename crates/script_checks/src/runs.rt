//! Runs of the program.

use memory_streams::{Fault, MemSink, MemSource, SureSink};
use script_runner::{Served, run_words, serve};
use sessions::Session;
use std::alloc::{AllocError, Global};

/// The most bytes kept of the program's output.
const MOST_WRITTEN: usize = 0x4_0000;

/// How the program reads its script.
#[derive(Clone, Copy)]
pub struct Reads {
    /// The most bytes that a read gives; 0 counts as 1.
    pub each: usize,
    /// The number of the read that fails, counted from 1; None if no read fails.
    pub failing: Option<u64>,
}

/// How the program's output is taken.
#[derive(Clone, Copy)]
pub struct Writes<'a> {
    /// The most bytes that a write takes; 0 counts as 1.
    pub each: usize,
    pub faults: &'a [Fault],
}

/// Reads of up to 64 KiB, without a fault.
pub const ALL_READ: Reads = Reads {
    each: 0x1_0000,
    failing: None,
};

/// Writes of up to 64 KiB, without a fault.
pub const ALL_WRITTEN: Writes<'static> = Writes {
    each: 0x1_0000,
    faults: &[],
};

/// Runs the program with the words of the line as arguments.
pub fn run_line(
    alloc: Global,
    line: &str,
    src: &mut MemSource,
    out: &mut MemSink,
    err: &mut SureSink,
) -> Result<u8, AllocError> {
    let mut words = Vec::new(alloc);
    for word in line.split_whitespace() {
        words.push(String::from_str(alloc, word)?)?;
    }
    Ok(run_words(alloc, words.as_slice(), src, out, err))
}

/// Serves the script in a new session, with reads into a buffer of eight bytes, within the budget.
pub fn served(
    alloc: Global,
    src: &mut MemSource,
    out: &mut MemSink,
    most: u64,
) -> Result<Served, AllocError> {
    let mut session = Session::new(alloc)?;
    let mut buf = [0; 8];
    Ok(serve(&mut session, src, out, &mut buf, most))
}

/// Runs the script with the word `run` and compares: the status and the output must be the expected ones, and there
/// must be no complaint. Returns a description of the difference, if there is one.
pub fn difference(
    alloc: Global,
    name: &str,
    script: &[u8],
    reads: Reads,
    writes: Writes<'_>,
    written: &[u8],
    status: u8,
) -> Result<Option<String>, AllocError> {
    let mut src = source(alloc, script, reads)?;
    let mut out = MemSink::new(alloc, MOST_WRITTEN, writes.each.max(1), writes.faults)?;
    let mut err = SureSink::new(alloc, MOST_WRITTEN, 1)?;
    let ended = run_line(alloc, "run", &mut src, &mut out, &mut err)?;
    let is_silent = err.bytes().is_some_and(|complaint| complaint.is_empty());
    if ended == status && out.bytes() == Some(written) && is_silent {
        return Ok(None);
    }
    let wrote = str::from_utf8(out.bytes().unwrap_or(b"")).unwrap_or("no text");
    let told = format!(in alloc;
        "{name}: ended with {ended} (wanted: {status}), having written {wrote:?}"
    )?;
    Ok(Some(told))
}

/// The same with reads and writes that never fail or come short.
pub fn plain_difference(
    alloc: Global,
    name: &str,
    script: &[u8],
    written: &[u8],
    status: u8,
) -> Result<Option<String>, AllocError> {
    let (reads, writes) = (ALL_READ, ALL_WRITTEN);
    difference(alloc, name, script, reads, writes, written, status)
}

fn source(alloc: Global, script: &[u8], reads: Reads) -> Result<MemSource, AllocError> {
    let each = reads.each.max(1);
    match reads.failing {
        None => MemSource::new(alloc, script, each, &[]),
        Some(call) => MemSource::new(alloc, script, each, &[Fault::Fails { call }]),
    }
}
