//! The command `walk`: all walks of one packet, or of each of many, as one piece of JSON.
#![tactic(auto)]

mod fault;
pub mod laws;
mod lines;
mod state;
mod walk;
mod walks;

pub use lines::WalkLines;
pub use walk::Walk;
pub use walks::walks_text;
