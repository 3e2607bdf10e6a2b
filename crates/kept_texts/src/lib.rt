//! The pieces of records, written with the texts of the last one: its decisions, places and tags up to where a list differs, and
//! the cells that are the same.
#![tactic(auto)]

mod bytes;
mod cells;
mod keys;
mod list;
mod members;
mod pieces;

pub use members::OfNet;
pub use pieces::Pieces;
