//! The command `ask`: the answers to all questions of a job, as one piece of JSON.
#![tactic(auto)]

mod answering;
mod ask;
pub mod laws;
mod text;

pub use answering::ending_of;
pub use ask::Ask;
pub use text::{answers_text, write_counts};
