//! The metadata that a packet carries: cells under names, global or local to a box.
#![tactic(auto)]

pub mod laws;
mod scopes;

pub use cell_stacks::Cell;
pub use scopes::Scopes;
