//! The command `loops`: which paths of a job that are cut go round for ever, as one piece of JSON.
#![tactic(auto)]

pub mod laws;
mod loops;
mod searching;
mod text;

pub use loops::Loops;
pub use text::{OpenPaths, loops_text};
