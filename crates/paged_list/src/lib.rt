//! A list in pages of raw memory. Its items are never moved.
#![tactic(auto)]

mod block;
mod list;
mod page;
mod slots;

pub use list::PagedList;
// A contract in another crate can name a list only if the types of its fields are exported.
#[doc(hidden)]
pub use block::Block;
#[doc(hidden)]
pub use page::Page;
#[doc(hidden)]
pub use slots::Slots;
