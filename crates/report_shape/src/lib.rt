//! The shape of a report as a table of its parts, and the first place of a JSON value that has not its shape.
#![tactic(auto)]

mod fault;
mod form;
mod large;
pub mod laws;
mod order;
mod part;
mod pick;
mod read;
mod table;

pub use fault::Names;
pub use large::large_of;
pub use part::Part;
pub use read::{ShapeFault, read_value};
