//! The command `replay`: each record of a report is confirmed by itself, or also that together they leave nothing out, and the counts are written
//! as one piece of JSON.
#![tactic(auto)]

mod counts;
mod fault;
pub mod laws;
mod replay;
mod whole;

pub use counts::confirmed_text;
pub use replay::{REPORT_LIMIT, Replay};
pub use whole::ReplayWhole;
