//! One table of scripts with faults, truncated scripts and hostile lines, run through the program's entry point.
#![tactic(auto)]

#[cfg(test)]
mod tests;
