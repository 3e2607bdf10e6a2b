//! What a path has met: a condition with the domains of its symbols, decisions and ports.
#![tactic(auto)]

mod noting;
mod symbols;
mod trace;

pub use noting::holds;
pub use trace::Trace;
