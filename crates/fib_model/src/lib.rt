//! Forwarding tables: their files, the longest prefix, and the nodes that they stand for.
#![tactic(auto)]

mod fib;
pub mod laws;
mod least;
mod node;
mod sets;
mod sweep;

pub use fib::{Fib, read_fib};
pub use node::fib_node;
