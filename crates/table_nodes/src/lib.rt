//! The nodes that tables stand for, in three styles.
#![tactic(auto)]

mod destination;
mod field;
pub mod laws;
mod node;
mod pieces;
mod ranges;

pub use field::{Field, cell, named, width_of};
pub use node::{chain_node, egress_node, grouped_node, one_input};
pub use pieces::{guard, to_all};
pub use ranges::{address_set, ranges_of};
