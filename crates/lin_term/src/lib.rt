//! Linear terms: a constant and coefficients of symbols, modulo a power of two.
#![tactic(auto)]

pub mod laws;
mod merge;
mod parts;
mod reduced;
mod term;

pub use term::Term;
