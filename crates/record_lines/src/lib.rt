//! The pieces of a report, put into a sink as they are made: its head, its records as they are found, and its tail.
#![tactic(auto)]

mod ends;
pub mod laws;
mod lines;

pub use ends::{put_head, put_tail};
pub use lines::{Lines, Mark};
