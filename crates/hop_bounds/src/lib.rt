//! Laws: where an exploration cut no path, its records and its answers hold for every larger bound of hops.
#![tactic(auto)]

pub mod laws;
