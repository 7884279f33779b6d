//! Worked scripts with their replies, run through the program's entry point, and lines answered by a session.
#![tactic(auto)]

#[cfg(test)]
mod tests;
