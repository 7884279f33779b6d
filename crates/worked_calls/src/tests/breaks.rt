//! Breaks found in lanes, compared with a search unit by unit.

use line_starts::{count_breaks, find_starts};
use plain_breaks::{TEXTS, agree_on};
use std::test::Fail;

const CARRIAGE_RETURN: u16 = 13;

const LINE_FEED: u16 = 10;

const LETTER: u16 = 0x61;

/// Two groups of lanes and some more units.
const LONGEST: usize = 70;

/// A break at each place of texts of each length, so at each border of lanes.
#[test]
fn lanes_find_each_break(rt: HostRuntime) -> Result<(), Fail> {
    for kind in TEXTS {
        for len in 0..=LONGEST {
            assert!(rt; agree_on(rt.alloc(), kind, len)?);
        }
    }
    Ok(())
}

/// CR LF pairs across the borders of 32 lanes.
#[test]
fn pairs_across_lanes_are_one_break(rt: HostRuntime) -> Result<(), Fail> {
    let mut units = [LETTER; 65];
    (units[31], units[32]) = (CARRIAGE_RETURN, LINE_FEED);
    (units[63], units[64]) = (CARRIAGE_RETURN, LINE_FEED);
    let mut starts = Vec::new(rt.alloc());
    find_starts(&units, &mut starts)?;
    assert_eq!(rt; starts.as_slice(), [0, 33, 65].as_slice());
    assert_eq!(rt; count_breaks(&units), 2);
    Ok(())
}
