//! Acceptance of jobs, and what an accepted job is made of: the net, with its tables of nodes by name, codes and links by port.
#![tactic(auto)]

mod acceptance;
mod codes;
mod fault;
mod injection;
pub mod laws;
mod links;
mod names;
mod net;
mod place;
mod ports;
mod sizes;
pub mod table_laws;
mod tables;

pub use acceptance::{Accepted, accept};
pub use fault::AcceptFault;
pub use injection::{Injection, USUAL_CHOICES};
pub use job_items::{Rule, Which};
pub use net::Net;
pub use place::CodePlace;
pub use sizes::{behind_code, behind_instr, behind_item};
pub use tables::NetTables;
