//! Lists of line states, stored as runs in a balanced tree of which several lists share parts. A part is cut out and
//! joined to others without a copy of its unchanged nodes.
#![tactic(auto)]

mod cut;
mod join;
mod node;
mod states;

pub use hiding_rules::LineState;
pub use states::StateList;
