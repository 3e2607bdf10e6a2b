//! Whether a record has its own meaning, part by part, along a guided run over many records.
#![tactic(auto)]

mod checks;
mod confirming;
mod counts;
mod fault;
mod fields;
pub mod guide;
pub mod laws;
mod part;
mod supply;
mod trail;
mod values;
mod verdicts;

pub use confirming::{confirm_along, confirm_given_along, confirm_next};
pub use counts::{Confirmed, no_counts};
pub use fault::ReplayFault;
pub use part::Part;
pub use supply::Supply;
pub use trail::{Step, Trail, begin, lead};
