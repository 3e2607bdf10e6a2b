//! The run of code over values of any kind, up to its next question.
#![tactic(auto)]

mod act;
mod frame;
mod instrs;
mod machine;
mod run;

pub use frame::{Exit, Frame, Move, Question, copied};
pub use machine::Machine;
pub use run::{answer, next};
