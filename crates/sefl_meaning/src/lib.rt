//! What a net does with one packet.
#![tactic(auto)]

pub mod examples;
pub mod laws;
pub mod starts;
mod walk;

pub use walk::{Carried, Decision, End, Failure, Iteration, Place, State, Walk};
