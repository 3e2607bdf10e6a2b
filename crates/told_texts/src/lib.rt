//! Laws: two answers that differ have different texts (no program calls them).
#![tactic(auto)]

pub mod laws;
