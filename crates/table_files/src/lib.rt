//! The nodes that the files of tables give, for both kinds of tables.
#![tactic(auto)]

mod chain;
pub mod laws;
mod node;
mod text;

pub use node::{FileFault, file_node};
pub use text::file_text;
