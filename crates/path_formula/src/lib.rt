//! Formulas over terms: their truth, their kinds, the values that satisfy them, and their cases: lists of bounds between symbols, such that one holds
//! exactly where the formula has its truth.
#![tactic(auto)]

mod atom;
mod atoms;
mod case_count;
pub mod case_laws;
mod choices;
mod copy;
mod formula;
mod kinds;
pub mod laws;
mod members;
mod over;
mod pairs;
mod ranges;
mod solutions;
mod splits;
mod sym_bound;
mod truth;

pub use atom::{AtomKind, Shape};
pub use atoms::range_cases;
pub use case_count::case_count_of;
pub use choices::cases;
pub use formula::Formula;
pub use kinds::Kind;
pub use members::member_at;
pub use splits::can_split;
pub use sym_bound::SymBound;
