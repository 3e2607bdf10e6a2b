//! Which paths that are cut go round for ever, from the states in which they arrive at their last port.
#![tactic(auto)]

mod differing;
mod finding;
mod last;
pub mod laws;
mod lists;
mod paths;
mod shapes;
mod visits;

pub use finding::{Finding, Mark};
pub use paths::loop_of;
