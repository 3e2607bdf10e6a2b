//! The records of an exploration, as values of the program.
#![tactic(auto)]

mod records;
mod sides;

pub use records::{Fields, Record};
pub use sides::RefutedSides;
