//! The report on a run that differs from what the test expects.

use script_checks::plain_difference;
use std::test::Fail;

/// A run's expected output and status, and whether the run differs.
const SAID: &[(&[u8], u8, bool)] = &[
    (b"! syntax\n", 1, false),
    (b"! syntax\n", 0, true),
    (b"! range\n", 1, true),
    (b"! syntax\nok\n", 1, true),
];

#[test]
fn a_run_that_goes_another_way_is_told(rt: HostRuntime) -> Result<(), Fail> {
    for (written, status, is_told) in SAID {
        let found = plain_difference(rt.alloc(), "one line", b"{\n", written, *status)?;
        assert_eq!(rt; found.is_some(), *is_told, "{status}: {found:?}");
    }
    Ok(())
}
