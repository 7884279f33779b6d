//! Lines that a caller passes to a session one by one.

use memory_streams::MemSink;
use script_runner::write_outcome;
use script_streams::Failed;
use sessions::Session;
use std::alloc::{AllocError, Global};
use std::test::Fail;

const LINES: &[&str] = &[
    r#"{"cmd":"open","text":"ab\ncd"}"#,
    r#"{"cmd":"line","n":2}"#,
    r#"{"cmd":"line","n":3}"#,
    " ",
    r#"{"cmd":"walk"}"#,
    r#"{"cmd":"size"}"#,
];

/// A blank line has no reply.
const REPLIES: &[u8] = b"ok 1 5 2\nok \"cd\"\n! range\n! syntax\nok 5 2\n";

#[test]
fn a_session_answers_lines(rt: HostRuntime) -> Result<(), Fail> {
    let mut out = MemSink::new(rt.alloc(), 256, 256, &[])?;
    assert_eq!(rt; answer(rt.alloc(), &mut out)?, Ok(()));
    assert_eq!(rt; out.bytes(), Some(REPLIES));
    Ok(())
}

/// A function that owns a session has a single exit.
fn answer(alloc: Global, out: &mut MemSink) -> Result<Result<(), Failed>, AllocError> {
    let mut session = Session::new(alloc)?;
    Ok(answer_by(&mut session, out))
}

fn answer_by(session: &mut Session, out: &mut MemSink) -> Result<(), Failed> {
    for line in LINES {
        answer_line(session, line, out)?;
    }
    Ok(())
}

fn answer_line(session: &mut Session, line: &str, out: &mut MemSink) -> Result<(), Failed> {
    write_outcome(&session.answer(line.as_bytes()), out)
}
