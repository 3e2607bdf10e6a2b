//! The command `grow`: a job that grows from a seed is explored, and its records are counted as they are found.
#![tactic(auto)]

mod counts;
mod grow;
mod grown_job;
pub mod laws;
mod summary;

pub use counts::{Counts, Tally};
pub use grow::{Grow, HOPS, LIMIT};
pub use grown_job::GrownJob;
pub use summary::summary_text;
