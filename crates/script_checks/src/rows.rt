//! Scripts that are written out with their replies, or assembled.

use std::alloc::{AllocError, Global};

/// Returns the lines of the rows, and the replies to them. A row is a line of a script, ` => ` and the reply; without
/// the arrow it expects an empty reply, which no run gives.
pub fn script_and_replies(
    alloc: Global,
    first_rows: &str,
    rows: &str,
) -> Result<(String, String), AllocError> {
    let mut script = String::new(alloc);
    let mut replies = String::new(alloc);
    for row in first_rows.trim().lines().chain(rows.trim().lines()) {
        push_row(row, &mut script, &mut replies)?;
    }
    Ok((script, replies))
}

fn push_row(row: &str, script: &mut String, replies: &mut String) -> Result<(), AllocError> {
    let (line, reply) = row.split_once(" => ").unwrap_or((row, ""));
    script.push_str(line)?;
    script.push('\n')?;
    replies.push_str(reply)?;
    replies.push('\n')
}

/// Appends the part `times` times.
pub fn push_times(part: &str, times: u64, line: &mut String) -> Result<(), AllocError> {
    for _ in 0..times {
        line.push_str(part)?;
    }
    Ok(())
}
