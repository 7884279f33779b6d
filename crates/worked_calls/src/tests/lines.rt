//! The marks of a text's lines.

use line_hunks::{Hunks, Mark};
use std::test::Fail;

#[test]
fn two_lines_of_five_become_one(rt: HostRuntime) -> Result<(), Fail> {
    let mut hunks = Hunks::new(rt.alloc());
    hunks.clean(5);
    hunks.reserve(1)?;
    hunks.edit(2, 2, 1);
    assert_eq!(rt; hunks.stale(), Some((2, 2)));
    assert_eq!(rt; hunks.at(3), (Mark::Kept(4), 2));
    hunks.clean(5);
    assert_eq!(rt; hunks.stale(), None);
    Ok(())
}
