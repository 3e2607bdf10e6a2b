//! Stacks of cells under keys: what header cells and metadata have in common.
#![tactic(auto)]

mod cell;
pub mod laws;
mod stack_map;
mod stacks;

pub use cell::Cell;
pub use stack_map::StackMap;
pub use stacks::Stacks;
