//! The outside of a call from another language: lists of texts and of files as bytes, these files as a folder, an output in memory, and bytes that are
//! put into the room of the caller.
#![tactic(auto)]

mod files;
pub mod laws;
mod lists;
mod output;
mod room;

pub use files::GivenFiles;
pub use lists::{NamedFile, read_files, read_texts};
pub use output::KeptOutput;
pub use room::put;
