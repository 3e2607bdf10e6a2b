//! Where a command meets the outside: files that are loaded, a text that is put, and why there is none.
#![tactic(auto)]

mod ending;
mod fault;
mod file;
mod limits;
mod put;

pub use ending::{Ending, Stop};
pub use fault::{InputFault, OwnFault};
pub use file::{load_file, load_text};
pub use limits::FILE_LIMIT;
pub use put::put_text;
