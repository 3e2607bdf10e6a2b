//! The names and places that a net knows, by their texts.
#![tactic(auto)]

mod known;
pub mod laws;
mod names;
mod places;

pub use known::{known_meta, known_node, known_place, known_tag};
pub use names::NetNames;
