//! Makes a job of its words.
#![tactic(auto)]

mod ask;
mod building;
mod code;
mod cond;
mod cursor;
mod expr;
mod head;
mod injection;
mod job;
pub mod laws;
mod misread;
mod names;
mod net;
mod piece;
mod reference;
mod statement;
mod version;

pub use building::build;
