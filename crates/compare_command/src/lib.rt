//! The command `compare`: whether two jobs deliver the same packets alike, as one piece of JSON.
#![tactic(auto)]

mod compare;
mod comparing;
mod jobs;
pub mod laws;
mod text;

pub use compare::Compare;
pub use jobs::{BothJobs, Jobs};
pub use text::compared_text;
