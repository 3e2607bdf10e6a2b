//! Laws: what commands say of one job fits together (no program calls them).
#![tactic(auto)]

pub mod laws;
