//! Scripts with their replies.

mod batches;
mod decorated;
mod endings;
mod followed;
mod hidden;
mod joined;
mod kept;
mod limits;
mod nested;
mod searched;
mod texts;
mod told;

use batches::BATCHES;
use decorated::{DECORATED, EACH_MODE, FOUR_MODES};
use endings::ENDINGS;
use followed::FOLLOWED;
use hidden::HIDDEN;
use joined::JOINED;
use kept::KEPT;
use limits::LIMITS;
use nested::NESTED;
use script_checks::{plain_difference, script_and_replies};
use searched::SEARCHED;
use std::alloc::AllocError;
use std::process::Abort;
use std::test::Fail;
use texts::TEXTS;
use told::TOLD;

/// The rows with which each script of a table begins, and the table. Transcripts are separated by a blank line: a
/// name, then one row for each line of the script, with the reply after `=>`.
const TABLES: [(&str, &str); 13] = [
    ("", TEXTS),
    ("", BATCHES),
    (FOUR_MODES, EACH_MODE),
    ("", DECORATED),
    ("", NESTED),
    ("", HIDDEN),
    ("", KEPT),
    ("", ENDINGS),
    ("", TOLD),
    ("", SEARCHED),
    ("", FOLLOWED),
    ("", JOINED),
    ("", LIMITS),
];

#[test]
fn transcripts(rt: HostRuntime) -> Result<(), Fail> {
    for (first_rows, table) in TABLES {
        for transcript in table.trim().split("\n\n") {
            let (name, rows) = transcript.split_once('\n').unwrap_or(("", transcript));
            expect_replies(&rt, name, first_rows, rows)?;
        }
    }
    Ok(())
}

fn expect_replies<R: AllocGlobal + Abort>(
    rt: &R,
    name: &str,
    first_rows: &str,
    rows: &str,
) -> Result<(), AllocError> {
    let (script, replies) = script_and_replies(rt.alloc(), first_rows, rows)?;
    let (script, replies) = (script.as_str(), replies.as_str());
    let status = u8::from(replies.lines().any(|reply| reply.starts_with('!')));
    let (script, written) = (script.as_bytes(), replies.as_bytes());
    let found = plain_difference(rt.alloc(), name, script, written, status)?;
    assert!(rt; found.is_none(), "{found:?}");
    Ok(())
}
