//! Laws of the runs of nodes that tables, elements and filter lists stand for. Each is the contract of a function that
//! does nothing.
#![tactic(auto)]

mod boxes;
pub mod elements;
pub mod filters;
pub mod lists;
pub mod tables;

pub use boxes::table_box_run;
