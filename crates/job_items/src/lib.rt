//! The items of a job, and the rules that each breaks.
#![tactic(auto)]

mod atom;
mod atoms;
mod code;
mod fields;
mod halt;
mod instr;
mod job;
mod lines;
mod links;
mod nodes;
mod place;
mod ports;
mod refusal;
mod rule;
mod tags;
mod tally;
mod totals;

pub use ports::Ports;
pub use refusal::{Refusal, refusal_of};
pub use rule::{Breach, Rule, Which};
