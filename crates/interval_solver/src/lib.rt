//! The values that the simple formulas of a path condition leave to each symbol, kept beside the
//! condition, and what follows from them.
#![tactic(auto)]

mod decide;
mod domains;
mod empty;
pub mod laws;
mod sets;

pub use decide::{SimpleVerdict, decide_simple};
pub use domains::Domains;
