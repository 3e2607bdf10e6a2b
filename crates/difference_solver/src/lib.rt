//! Integers that meet upper bounds on the differences of unknowns, or a cycle of bounds that none meet; and the least integers that meet one case of each
//! of some choices, or a refutation.
#![tactic(auto)]

mod bound;
mod choice;
mod circle;
mod eliminate;
mod floors;
mod gather;
mod labels;
pub mod laws;
mod least;
mod lift;
mod lifting;
mod met;
mod order;
mod parts;
mod renaming;
mod search;
pub mod search_laws;
mod solver;
mod table;
mod values;
mod walk;

pub use bound::{Bound, DiffVerdict};
pub use choice::{Choice, Outcome, Step};
pub use least::find_least;
pub use lifting::{Raised, raise};
pub use solver::solve;
