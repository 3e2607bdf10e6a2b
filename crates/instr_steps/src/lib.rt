//! What one expression, condition or instruction does with values of any kind.
#![tactic(auto)]

mod conditions;
mod injecting;
mod steps;
mod values;

pub use cell_values::{Arithmetic, Numbers, Scene, reduced};
pub use conditions::truth_of;
pub use injecting::injected;
pub use steps::{Step, put, take};
pub use values::value_of;
