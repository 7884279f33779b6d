//! Prints the number of queries that a reparse makes of the old text, beside the bound that its clause `steps`
//! states. The exit status is 1 if a count exceeds its bound.
#![tactic(auto)]

mod counting;
mod measures;
mod shapes;
mod text_lines;

use measures::{Measured, measure};
use shapes::{SHAPES, Shape};
use std::io;
use std::process::ExitCode;

/// The numbers of brackets of the texts.
const SIZES: [u64; 5] = [100, 1_000, 10_000, 100_000, 1_000_000];

/// Prints a row, and returns whether the count is within its bound.
fn print_row(rt: &HostRuntime, shape: Shape, brackets: u64, row: Measured) -> io::Result<bool> {
    let Measured {
        nesting,
        highest,
        tokens,
        calls,
    } = row;
    print!(rt;
        "| {} | {brackets} | {nesting} | {highest} | {tokens} | {calls} | ",
        shape.name
    )?;
    match row.bound() {
        Some(bound) => println!(rt; "{bound} |")?,
        None => println!(rt; "none |")?,
    }
    Ok(row.bound().is_none_or(|bound| calls <= bound))
}

/// Prints the rows of a shape, and returns whether all counts are within their bounds.
fn print_shape(rt: &HostRuntime, shape: Shape) -> io::Result<bool> {
    let mut keeps = true;
    for brackets in SIZES {
        if !shape.fits(brackets) {
            continue;
        }
        for line in shape.lines {
            let row = measure(rt.alloc(), shape, brackets, line)?;
            keeps &= print_row(rt, shape, brackets, row)?;
        }
    }
    Ok(keeps)
}

fn print_table(rt: &HostRuntime) -> io::Result<bool> {
    println!(rt; "| text | brackets | nesting | highest list | new tokens | calls | bound |")?;
    println!(rt; "| --- | --: | --: | --: | --: | --: | --: |")?;
    let mut keeps = true;
    for shape in SHAPES {
        keeps &= print_shape(rt, shape)?;
    }
    Ok(keeps)
}

fn main(rt: HostRuntime) -> io::Result<ExitCode> {
    if print_table(&rt)? {
        return Ok(ExitCode::SUCCESS);
    }
    println!(rt; "A count passes its bound.")?;
    Ok(ExitCode::FAILURE)
}
