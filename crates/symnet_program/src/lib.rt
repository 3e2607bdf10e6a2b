//! The commands of the program `symnet`, over any folder, patterns and output.
#![tactic(auto)]

pub mod laws;
mod program;

pub use program::symnet;
