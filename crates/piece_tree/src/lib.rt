//! A text as a tree of runs of pieces of buffers.
#![tactic(auto)]

mod beside;
mod cut;
mod edits;
mod find;
mod left;
mod piece;
mod put;
mod run;
mod runs;
mod tree;
mod weave;

pub use piece::{Found, Piece, PieceId, PieceSum, piece_of};
pub use run::MOST_PIECES;
pub use tree::{PieceTree, PieceWalk, Stretch};
