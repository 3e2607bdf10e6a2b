//! The same injection in two nets: how it is told, and that the same packets meet it.
#![tactic(auto)]

mod equality;
pub mod laws;

pub use equality::same_injection;
