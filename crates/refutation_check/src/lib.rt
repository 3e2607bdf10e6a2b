//! Whether a refutation of a path condition is one, and whether a cause for leaving a condition undecided is
//! one. Nothing here trusts the solver that found them. With it it shares the cases of formulas and what a condition keeps,
//! which are proved to be those of the definitions, and none of its search.
#![tactic(auto)]

mod agenda;
mod checker;
mod cycle;
pub mod laws;
mod leaves;
mod licence;
mod list;
mod outcome;
mod steps;
mod values;

pub use checker::check;
pub use licence::{MOST_COUPLED, lawful};
pub use list::Listed;
pub use outcome::{Cause, Verdict};
pub use steps::{Refutation, Refute, copy_of};
pub use values::are_candidates;
