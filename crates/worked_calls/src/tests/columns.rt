//! The stops of a cursor.

use std::test::Fail;
use stops::stops;

/// `e` with an acute accent, an emoji, and a lone surrogate.
#[test]
fn columns_of_a_line(rt: HostRuntime) -> Result<(), Fail> {
    let mut columns = Vec::new(rt.alloc());
    stops(
        rt.alloc(),
        &[0x65, 0x301, 0xD83D, 0xDE00, 0xDE00, 0x78],
        &mut columns,
    )?;
    assert_eq!(rt; columns.as_slice(), [1, 3, 5, 6].as_slice());
    Ok(())
}
