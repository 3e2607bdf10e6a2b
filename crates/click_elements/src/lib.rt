//! The elements of Click configurations, and the nodes that they stand for.
#![tactic(auto)]

mod class;
mod code;
mod filter;
mod mirror;
mod node;
mod pattern;

pub use class::{Class, ClassName, Direction, Pattern, Primitive, Rule, class_named};
pub use mirror::Swap;
pub use node::{Leads, class_node, most_outputs};
