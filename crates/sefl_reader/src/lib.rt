//! Reads the texts of jobs.
#![tactic(auto)]

mod fault;
mod place;
mod read;

pub use fault::ReadFault;
pub use place::position;
pub use read::read_job;
