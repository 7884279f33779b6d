//! Texts as UTF-16 code units: owned lists, conversion from and to UTF-8, and JSON strings.
#![tactic(auto)]

mod flat;
mod kind;
mod quote;
mod reader;
mod units;
mod utf8;

pub use flat::Flat;
pub use kind::{Kind, is_of_kind, norm_of};
pub use quote::quoted;
pub use reader::{ByRuns, Reader};
pub use units::{Units, cuts_pair};
pub use utf8::{units_of, utf8_of};

pub const LINE_FEED: u16 = 0xA;

pub const CARRIAGE_RETURN: u16 = 0xD;
