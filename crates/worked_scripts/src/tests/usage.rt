//! Words that are not a command.

use memory_streams::{MemSink, MemSource, SureSink};
use script_checks::run_line;
use std::test::Fail;

const NO_COMMANDS: &[&str] = &[
    "",
    "walk",
    "ru",
    "help",
    "--help",
    "-h",
    "-V",
    "--",
    "-- run",
    "run -h",
    "run --help",
    "run x",
    "play",
    "play 1",
    "play 5 --",
    "play 5 1 --help",
    "play --COUNT=5 1",
    "play 1 2 3",
    "play 10000001 0",
    "play +10000001 0",
    "play -5 1",
    "play 5.0 1",
    "play 1 18446744073709551616",
    "play 10000000 18446744073709551616",
];

#[test]
fn words_that_are_no_command(rt: HostRuntime) -> Result<(), Fail> {
    let usage = b"usage: textmodel run | textmodel play COUNT SEED\n".as_slice();
    for line in NO_COMMANDS {
        let mut src = MemSource::new(rt.alloc(), b"", 1, &[])?;
        let mut out = MemSink::new(rt.alloc(), 64, 64, &[])?;
        let mut err = SureSink::new(rt.alloc(), 64, 64)?;
        let ended = run_line(rt.alloc(), line, &mut src, &mut out, &mut err)?;
        assert_eq!(rt; ended, 2, "{line}");
        assert_eq!(rt; err.bytes(), Some(usage), "{line}");
    }
    Ok(())
}
