//! Persistent maps and stacks whose copies share what they have in common.
#![tactic(auto)]

mod branch;
mod shared;
mod tree;

pub use shared::{Members, Shared};
pub use tree::{Pairs, Tree};
