//! Definitions of when a tree of an earlier text agrees with the lines of the current text, and of which of its nodes
//! may be reused, with their laws.
#![tactic(auto)]
