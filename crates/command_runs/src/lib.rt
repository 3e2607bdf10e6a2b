//! How a command of the program runs: its inputs are opened, one after another, its own work is done on what they give, and its end is a status with what
//! is said of it; and the files of jobs: they are read, their tables are loaded, and they are accepted.
#![tactic(auto)]

mod acceptance;
mod job;
pub mod laws;
mod piece;
mod refusal;
mod source;
mod status;
mod table;
mod work;

pub use acceptance::accept_filled;
pub use job::{JobFile, load_job};
pub use piece::{OnePiece, Piece};
pub use source::{Both, ByteFile, Source, Two};
pub use status::{Status, status_of};
pub use work::{Work, run};
