//! The outside of the engine: where files come from, where bytes go, and who matches patterns.
//!
//! Each of the three is a trait whose contract says what an answer means. What an object tells of its
//! content is optional. Each answer that blames the outside names a count, which never falls and has
//! risen in that call.
#![tactic(auto)]

mod count;
mod dir_folder;
mod folder;
mod mem_folder;
mod mem_patterns;
mod mem_sink;
mod out_sink;
mod output;
mod patterns;
mod sink;
mod transfer;

pub use count::raise;
pub use dir_folder::DirFolder;
pub use folder::{Folder, Loaded};
pub use mem_folder::MemFolder;
pub use mem_patterns::MemPatterns;
pub use mem_sink::MemSink;
pub use out_sink::OutSink;
pub use output::{Output, Printed};
pub use patterns::{Found, Patterns};
pub use sink::{Put, Sink};
