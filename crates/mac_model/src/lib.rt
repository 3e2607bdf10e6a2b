//! MAC tables: their files, and the nodes that they stand for.
#![tactic(auto)]

pub mod laws;
mod node;
mod sets;
mod table;

pub use node::mac_node;
pub use table::{MacTable, read_mac};
