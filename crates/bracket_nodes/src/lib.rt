//! Bracket trees: immutable nodes that share their parts, lists as (2,3)-trees, what a tree shows,
//! and the parser that makes them from a source of brackets.
#![tactic(auto)]

mod find;
mod joiner;
mod kept;
mod kinds;
mod leaf;
mod link;
mod listing;
mod lists;
mod lookups;
mod makers;
mod node;
mod parser;
mod placed;
mod reader;
mod scanned;

pub use bracket_rules::{Entry, Status, Token};
pub use find::NodeRef;
pub use joiner::concat;
pub use kinds::Kinds;
pub use makers::{capped_node, pair_node, stray_node, text_node};
pub use node::Node;
pub use parser::{Next, Source, parse};
pub use reader::NodeReader;
pub use scanned::{ScannedLine, parse_lines};
