//! The script language: parsing of request lines, and formatting of replies.
#![tactic(auto)]

mod bracket;
mod command;
mod commands;
mod decoration;
mod fields;
mod items;
mod lists;
mod long;
mod marks;
mod op;
mod reason;
mod request;
mod short;
mod sought;

pub use command::Command;
pub use fields::LineFault;
pub use lists::{Ids, ListOf, NewDecos};
pub use long::{long_begin, long_end, long_mark, long_number, long_text};
pub use op::{LineOp, LineOps, Place};
pub use reason::Refusal;
pub use request::{DocEdit, DocEdits, Request, request_of};
pub use short::{Short, refusal};
pub use sought::Sought;
