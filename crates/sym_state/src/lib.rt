//! What a packet with unknown fields carries, and what it has met on its way.
#![tactic(auto)]

mod assuming;
mod beginning;
mod changes;
mod evaluation;
mod fields;
mod instructions;
mod machine;
mod state;

pub use state::SymState;
