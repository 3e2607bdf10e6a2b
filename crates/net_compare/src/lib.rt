//! The delivered paths of two explorations: which of them face each other, their miss conditions, and the comparison.
#![tactic(auto)]

mod cells;
mod clashes;
mod comparing;
mod deliveries;
mod delivery;
mod domains;
mod exploring;
mod facing;
mod formulas;
mod joining;
mod judged;
mod layout;
mod marks;
mod missing;
mod needed;
mod nets;
mod rows;
mod torn;
mod weighing;
mod widths;

pub use comparing::Compared;
pub use exploring::{Explored, explore};
pub use nets::{CompareFault, compare};
