//! The cases of the table, and how each is run.

use super::cases::CASES;
use super::each_fault::{expect_each_read_fault, expect_each_write_fault};
use super::expected::expect_written;
use super::parts::{Part, bytes_of};
use super::serving::{Serving, expect_served};
use memory_streams::Fault;
use script_checks::{Reads, Writes};
use std::alloc::AllocError;
use std::process::Abort;
use std::test::Fail;

/// A row of the table.
pub enum Case {
    Run(Run),
    /// A run with this name, whose script is refused with this single reply.
    Refused(&'static str, &'static [Part], &'static str),
    /// The script and replies of these rows; each read of the script fails in turn.
    EachReadFails(&'static str),
    /// Each write fails in turn.
    EachWriteFails(&'static str),
    Serving(Serving),
}

/// A script for the word `run`, and its expected result.
#[derive(Clone, Copy)]
pub struct Run {
    pub name: &'static str,
    pub script: &'static [Part],
    /// The most bytes that a read gives, and the number of the read that fails.
    pub most_read: usize,
    pub failing_read: Option<u64>,
    /// The most bytes that a write takes, and the writes that fail or take fewer.
    pub most_taken: usize,
    pub faults: &'static [Fault],
    pub written: &'static [Part],
    pub status: u8,
}

/// More bytes than a single call handles in most cases.
const MANY: usize = 0x1_0000;

/// A run without a fault that writes nothing; each row lists what differs.
pub const PLAIN: Run = Run {
    name: "",
    script: &[],
    most_read: MANY,
    failing_read: None,
    most_taken: MANY,
    faults: &[],
    written: &[],
    status: 0,
};

/// A run whose second read fails.
pub const READ_FAULT: Run = Run {
    failing_read: Some(2),
    status: 4,
    ..PLAIN
};

/// A run whose output is not taken whole.
pub const WRITE_FAULT: Run = Run { status: 5, ..PLAIN };

#[test]
fn faults_cuts_and_hostile_lines(rt: HostRuntime) -> Result<(), Fail> {
    for case in CASES {
        expect_case(&rt, case)?;
    }
    Ok(())
}

fn expect_case<R: AllocGlobal + Abort>(rt: &R, case: &Case) -> Result<(), AllocError> {
    match case {
        Case::Run(run) => expect_run(rt, run, run.written),
        Case::Refused(name, script, reply) => {
            let run = Run {
                name: *name,
                script: *script,
                status: 1,
                ..PLAIN
            };
            expect_run(rt, &run, &[Part::Text(*reply)])
        }
        Case::EachReadFails(rows) => expect_each_read_fault(rt, rows),
        Case::EachWriteFails(rows) => expect_each_write_fault(rt, rows),
        Case::Serving(serving) => expect_served(rt, serving),
    }
}

fn expect_run<R: AllocGlobal + Abort>(
    rt: &R,
    run: &Run,
    written: &[Part],
) -> Result<(), AllocError> {
    let script = bytes_of(rt.alloc(), run.script)?;
    let written = bytes_of(rt.alloc(), written)?;
    let reads = Reads {
        each: run.most_read,
        failing: run.failing_read,
    };
    let writes = Writes {
        each: run.most_taken,
        faults: run.faults,
    };
    let (script, written) = (script.as_slice(), written.as_slice());
    expect_written(rt, run.name, script, (reads, writes), written, run.status)
}
