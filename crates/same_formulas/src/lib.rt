//! Whether two formulas are equal.
#![tactic(auto)]

mod equality;

pub use equality::same_formula;
