//! The whole decision of a path condition: whether values make it true, with the least such values or a refutation.
#![tactic(auto)]

mod base;
mod below;
mod choices;
mod decision;
mod found;
pub mod laws;
mod members;
mod moved;
mod origin;
mod outside;
mod problem;
mod raising;
mod singles;
mod solve;
mod steps;
mod unknowns;
mod values;

pub use base::Base;
pub use decision::{Decided, decide, decide_after};
