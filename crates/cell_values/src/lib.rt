//! Operations on the values of cells, of any kind, and numbers as such values; where code runs: the net, the box and the iterations of Fors, and what names
//! stand for there; and what comes behind a port: the hops that are left, its code, its link, and the end where its code failed.
#![tactic(auto)]

mod arithmetic;
mod hops;
mod numbers;
mod ports;
mod scene;

pub use arithmetic::{Arithmetic, joined};
pub use hops::hops_behind;
pub use numbers::{Numbers, reduced};
pub use ports::{code_of, failed_at, first_site, link_of};
pub use scene::Scene;
