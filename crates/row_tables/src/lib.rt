//! Tables of worked rows, as data: what a run of the program is given, how it is to end, and what differs from that.
#![tactic(auto)]

mod compare;
mod flaw;
mod line;
mod piece;
mod row;
mod table;

pub use compare::differences;
pub use flaw::{Fault, Flaw};
pub use piece::Named;
pub use row::{Ending, Given, Row};
pub use table::read_table;
