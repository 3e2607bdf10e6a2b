//! Replay: each record of a report is confirmed by itself, by another way than it was found.
#![tactic(auto)]

pub mod laws;
mod replaying;
mod runs;
mod stop;

pub use record_checks::{Confirmed, Part, ReplayFault, Supply};
pub use replaying::{confirm, confirm_given, confirm_whole};
pub use whole_checks::WholeFault;
