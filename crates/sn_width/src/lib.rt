//! Numbers of a width, and the small types that every other crate of the engine names.
#![tactic(auto)]

mod faults;
mod ids;
mod memory;
mod rel;
mod steps;
mod width;

pub use faults::{LayoutFault, StepFault};
pub use ids::{NameId, NodeId, Site, SymId, TagId};
pub use memory::NoMemory;
pub use rel::Rel;
pub use steps::Steps;
pub use width::{Num, Width};
