//! Generated scripts: the program must answer as a flat document and a plain list of decorations do.
#![tactic(auto)]

#[cfg(test)]
mod tests;
