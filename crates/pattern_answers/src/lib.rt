//! The names that the patterns of a job find.
#![tactic(auto)]

mod answers;

pub use answers::{PatternAnswers, found_names};
