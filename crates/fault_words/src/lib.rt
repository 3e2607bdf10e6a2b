//! What a status says in words, for people: it stands below the status and its place. It is made of the files as they were loaded; nothing is claimed
//! of it.
#![tactic(auto)]

mod absent;
mod expected;
mod form;
mod partial;
mod port;
mod probe;
mod reason;
mod sentence;
mod statement;
mod table;
mod usage;
mod wrong;

pub use reason::reason_text;
