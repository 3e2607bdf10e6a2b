//! The program `symnet` as a library for C and the languages that call C: one call takes the words of a command and files by name, all in memory,
//! and answers the status, the output and what is said for people.
#![tactic(auto)]

mod call;
mod message;

pub use call::Sizes;
