//! Scripts that are played.

use memory_streams::{Fault, MemSink, MemSource, SureSink};
use script_checks::run_line;
use std::alloc::{AllocError, Global};
use std::process::Abort;
use std::test::Fail;

/// Words that play a script, and the line that each writes.
const PLAYED: &[(&str, &str)] = &[
    (
        "play 0 5",
        "commands 0 refused 0 units 0 lines 1 bytes 0 sum 0\n",
    ),
    (
        "play 1 5",
        "commands 1 refused 0 units 0 lines 1 bytes 9 sum 470\n",
    ),
    (
        "play +1 5",
        "commands 1 refused 0 units 0 lines 1 bytes 9 sum 470\n",
    ),
    (
        "play 001 5",
        "commands 1 refused 0 units 0 lines 1 bytes 9 sum 470\n",
    ),
    (
        "play 2 0",
        "commands 2 refused 0 units 0 lines 1 bytes 16 sum 859\n",
    ),
];

#[test]
fn scripts_that_are_played(rt: HostRuntime) -> Result<(), Fail> {
    for (line, written) in PLAYED {
        let ended = expect_play(&rt, line, &[], written.as_bytes())?;
        assert_eq!(rt; ended, 0, "{line}");
    }
    Ok(())
}

/// The line is written whole, or only a prefix of it if the write fails.
#[test]
fn a_line_that_is_not_written(rt: HostRuntime) -> Result<(), Fail> {
    let plan = [Fault::Short { call: 1, most: 3 }, Fault::Fails { call: 2 }];
    let ended = expect_play(&rt, "play 1 5", &plan, b"com")?;
    assert_eq!(rt; ended, 5);
    Ok(())
}

/// Runs the program with the words of the line, and expects `out` to receive what is written, and nothing else to be
/// written.
fn expect_play<R: AllocGlobal + Abort>(
    rt: &R,
    line: &str,
    plan: &[Fault],
    written: &[u8],
) -> Result<u8, AllocError> {
    let alloc: Global = rt.alloc();
    let mut src = MemSource::new(alloc, b"", 1, &[])?;
    let mut out = MemSink::new(alloc, 256, 256, plan)?;
    let mut err = SureSink::new(alloc, 64, 64)?;
    let ended = run_line(alloc, line, &mut src, &mut out, &mut err)?;
    assert_eq!(rt; out.bytes(), Some(written), "{line}");
    assert_eq!(rt; src.calls(), 0, "{line}");
    assert!(rt;
        err.bytes().is_some_and(|complaint| complaint.is_empty()),
        "{line}"
    );
    Ok(ended)
}
