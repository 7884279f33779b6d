//! Tests of single parts of the document, and of the document as a library.
#![tactic(auto)]

#[cfg(test)]
mod tests;
