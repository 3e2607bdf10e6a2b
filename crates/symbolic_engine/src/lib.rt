//! The engine of an exploration: the runs of a net on symbolic states, and the explorations of a net and an injection.
#![tactic(auto)]

mod arriving;
mod deciding;
mod engine;
mod exploring;
mod found;
mod guiding;
mod moving;
mod origin;
mod points;
mod recording;
mod stage;
mod turning;
mod writing;

pub use engine::Explorer;
pub use exploring::{explore, explore_into, observe};
pub use found::{Before, Found};
pub use guiding::{Led, Waits, arrivals, follow};
pub use origin::{Origin, Run};
pub use points::{Finished, Standing, Waiting};
pub use stage::{Running, Stage, Wait};
