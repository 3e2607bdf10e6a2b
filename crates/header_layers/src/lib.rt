//! What a packet carries in its headers: tags with addresses, and stacks of cells at addresses.
#![tactic(auto)]

pub mod laws;
mod layers;

pub use cell_stacks::Cell;
pub use layers::Layers;
