//! Jobs that grow from a seed: a tree of boxes of any size that share out all IPv4 addresses.
#![tactic(auto)]

mod job;
mod router;
mod split;

pub use job::grow;
