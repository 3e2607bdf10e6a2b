//! Reports from their texts.
#![tactic(auto)]

mod decoder;
mod ends;
mod fields;
mod items;
mod lasting;
pub mod laws;
mod leaves;
pub mod lines;
mod printed;
mod records;
mod refutations;
mod report;
mod scanned;
mod scanner;
mod terms;
mod verdicts;

pub use printed::{PrintedRecords, open_printed};
pub use record_text::{Report, head_text, record_text, report_text, tail_text};
pub use report::{ReportFault, read_report};
