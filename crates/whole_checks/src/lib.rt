//! Whether the records of a report leave nothing out: each is confirmed by itself, and comes next behind the one before it. So each walk of
//! each packet has one path among them, whoever made the report.
#![tactic(auto)]

mod fault;
mod joining;
pub mod laws;
mod order;
mod settling;
mod whole;

pub use fault::WholeFault;
pub use whole::confirm_whole_along;
