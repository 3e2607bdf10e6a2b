//! The exploration of a net from an injection: what is found, in the order of its decisions, handed over at once.
#![tactic(auto)]

mod course;
pub mod engine;
mod exploration;
mod guided;
mod kept;
mod observer;
mod opening;
mod receiver;
mod running;
mod stepping;
mod visits;

pub use exploration::{Ended, explore_into};
pub use guided::{FollowFault, follow};
pub use kept::Kept;
pub use observer::Observer;
pub use receiver::{Receiver, Took};
pub use stepping::{first_next, next_behind, side_behind};
pub use visits::arrivals;
