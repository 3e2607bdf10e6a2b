//! The operations of the meaning at linear terms and formulas.
#![tactic(auto)]

pub mod laws;
mod terms;

pub use laws::Formulas;
pub use terms::{Terms, symbol};
