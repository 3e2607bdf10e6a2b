//! Laws: the records that are exact for one job are one list, except for their refutations.
#![tactic(auto)]

pub mod laws;
