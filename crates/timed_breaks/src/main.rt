//! Finds the line breaks of 100 MB of text with the method named on the command line, so that the methods can be timed;
//! `compare` instead compares the methods on small texts.
#![tactic(auto)]

use line_starts::{count_breaks, find_starts};
use plain_breaks::{Kind, TEXTS, agree_on, agree_on_one};
use std::alloc::{AllocError, Global};
use std::{env, io};

/// The number of lines of the text.
const LINES: usize = 1_666_667;

/// The number of units of a line, its LF included. A unit has two bytes.
const LINE: usize = 30;

const LINE_FEED: u16 = 10;

const LETTER: u16 = 0x61;

fn text(alloc: Global) -> Result<Vec<u16>, AllocError> {
    let mut line = [LETTER; LINE];
    line[LINE - 1] = LINE_FEED;
    let mut units = Vec::with_capacity(alloc, LINES * LINE)?;
    for _line in 0..LINES {
        units.extend_from_slice(&line)?;
    }
    Ok(units)
}

/// The greatest length of the texts on which the SIMD version and the plain loops are compared, with a break at each
/// index.
const LONGEST: usize = 200;

/// The lengths in units of the long texts, whose breaks are counted at several places in turn.
const LONG: [usize; 3] = [65_536, 65_567, 70_001];

/// Returns the number of long texts, with breaks of all kinds, on which both ways agree.
fn agreeing_on_long(alloc: Global) -> Result<u64, AllocError> {
    let mut texts: u64 = 0;
    for len in LONG {
        if agree_on_one(alloc, Kind::Mixed, 0, len)? {
            texts = texts.saturating_add(1);
        }
    }
    Ok(texts)
}

/// Returns the number of texts on which both ways agree. Texts of the same kind and length are counted only if both
/// ways agree on all of them.
fn agreeing(alloc: Global) -> Result<u64, AllocError> {
    let mut texts = agreeing_on_long(alloc)?;
    for kind in TEXTS {
        for len in 0..=LONGEST {
            if agree_on(alloc, kind, len)? {
                texts = texts.saturating_add(len as u64);
            }
        }
    }
    Ok(texts)
}

/// The number of passes over the text, so that the time to build it matters little. Each pass starts one unit further
/// on, so that no result can be reused.
const PASSES: usize = 10;

/// Returns the number of breaks or line starts that method `way` finds in all passes; for any other name, the number of
/// units in all passes. The memory for the starts is allocated and its pages are touched in advance, so that allocation
/// is not timed.
fn found(alloc: Global, way: &str, units: &[u16]) -> Result<u64, AllocError> {
    let mut starts = Vec::new(alloc);
    starts.resize(LINES, 0)?;
    let mut sum: u64 = 0;
    for pass in 0..PASSES {
        starts.clear();
        sum = sum.saturating_add(found_once(way, &units[pass.min(units.len())..], &mut starts)?);
    }
    Ok(sum)
}

fn found_once(way: &str, units: &[u16], starts: &mut Vec<u64>) -> Result<u64, AllocError> {
    match way {
        "count" => return Ok(count_breaks(units)),
        "plain_count" => return Ok(plain_breaks::count_breaks(units)),
        "starts" => find_starts(units, starts)?,
        "plain_starts" => plain_breaks::find_starts(units, starts)?,
        _ => return Ok(units.len() as u64),
    }
    Ok(starts.len() as u64)
}

fn main(rt: HostRuntime) -> io::Result<()> {
    let mut words = env::args(&rt)?;
    let _name = words.next();
    let way = words.next();
    let name = way.as_ref().map_or("", |word| word.as_str());
    let number = match name {
        "compare" => agreeing(rt.alloc())?,
        _ => found(rt.alloc(), name, text(rt.alloc())?.as_slice())?,
    };
    println!(rt; "{number}")?;
    Ok(())
}
