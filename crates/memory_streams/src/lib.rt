//! Sources and sinks in memory: they show what they hold and took, and fail or come short by a plan.
#![tactic(auto)]

mod plan;
mod sink;
mod source;
mod supply;
mod tray;

pub use plan::Fault;
pub use sink::{MemSink, SureSink};
pub use source::{MemSource, SureSource};
