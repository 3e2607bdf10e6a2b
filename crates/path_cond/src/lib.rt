//! Path conditions: lists of formulas that must be true or false, which share what they have in common; which symbols the formulas couple, and how many
//! choices of cases there are.
#![tactic(auto)]

mod condition;
mod count;
pub mod count_laws;
mod coupled;
mod domain;
mod kept;
pub mod laws;
mod marks;
mod picks;
mod sequence;
mod singles;
mod summary;

pub use condition::PathCond;
pub use count::{case_count, case_count_with};
pub use coupled::{coupled_symbols, formula_count};
pub use picks::{inside_picks, outside_picks, values_meeting};
pub use singles::Single;
