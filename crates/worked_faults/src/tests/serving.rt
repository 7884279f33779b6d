//! Scripts served within a budget of bytes.

use memory_streams::{Fault, MemSink, MemSource};
use script_checks::served;
use script_runner::Served;
use std::alloc::AllocError;
use std::process::Abort;

/// A budget for the one-line script, the faults of the writes, and the expected result. A read gives at most seven
/// bytes.
pub struct Serving {
    pub name: &'static str,
    pub most: u64,
    pub faults: &'static [Fault],
    pub ended: Served,
    pub written: &'static [u8],
    /// The number of reads made: none after the budget is used up, and none after the end.
    pub reads: u64,
    /// The number of writes made: one after a short write is offered the rest of the reply.
    pub writes: u64,
}

const SCRIPT: &[u8] = b"{\"cmd\":\"size\"}\n";

/// A budget of more bytes than the script has.
pub const SERVED: Serving = Serving {
    name: "many more",
    most: 64,
    faults: &[],
    ended: Served::Ended {
        refused: 0,
        memory: 0,
    },
    written: b"ok 0 1\n",
    reads: 4,
    writes: 1,
};

pub fn expect_served<R: AllocGlobal + Abort>(rt: &R, case: &Serving) -> Result<(), AllocError> {
    let name = case.name;
    let mut src = MemSource::new(rt.alloc(), SCRIPT, 7, &[])?;
    let mut out = MemSink::new(rt.alloc(), 64, 64, case.faults)?;
    let ended = served(rt.alloc(), &mut src, &mut out, case.most)?;
    assert_eq!(rt; ended, case.ended, "{name}");
    assert_eq!(rt; out.bytes(), Some(case.written), "{name}");
    assert_eq!(rt; out.calls(), case.writes, "{name}");
    assert_eq!(rt; src.calls(), case.reads, "{name}");
    assert_eq!(rt; src.reads_past_end(), 0, "{name}");
    Ok(())
}
