//! A packet on its way, and its run of a port's code.
#![tactic(auto)]

mod packet;

pub use packet::{Packet, run_code};
