//! Records and reports as texts.
#![tactic(auto)]

pub mod laws;
mod records;
mod refutations;
mod report;
mod verdicts;

pub use records::record_text;
pub use refutations::write_refutation;
pub use report::{Report, head_text, report_text, tail_text};
pub use verdicts::{write_before, write_verdict};
