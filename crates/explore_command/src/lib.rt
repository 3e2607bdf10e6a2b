//! The command `explore`: the report of a job, put as its records are found.
#![tactic(auto)]

mod explore;
pub mod laws;
mod limit;
mod report;

pub use explore::Explore;
pub use limit::RecordLimit;
