//! The command `model`: the node that a table's file gives, or the net of a Click configuration, as canonical text.
#![tactic(auto)]

mod click;
pub mod laws;
mod model;

pub use click::ClickModel;
pub use model::TableModel;
