//! Sets of values of a width, as ascending ranges.
#![tactic(auto)]

mod fault;
mod gaps;
pub mod laws;
mod meet;
mod merge;
mod ranges;
mod search;
mod shift;

pub use fault::RangeFault;
pub use ranges::Ranges;
