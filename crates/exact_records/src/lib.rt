//! What the records of an exploration mean, when a list of them is exact, and what keeps it so.
#![tactic(auto)]

mod below;
pub mod laws;
