//! The walks of one packet through a net.
#![tactic(auto)]

mod injecting;
mod pending;
mod walks;

pub use injecting::{StartFault, start};
pub use walks::{WalkFault, walk_all, walk_one};
