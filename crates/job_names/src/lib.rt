//! What occurs in a job by name: metadata names, tag names and patterns.
#![tactic(auto)]

pub mod laws;
mod mentions;
mod names;
mod patterns;
mod survey;
mod table;

pub use names::{JobNames, names_of};
