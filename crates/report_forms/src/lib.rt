//! What a report shows has the shape of a report, and fixes the report; the numbers of a record are of their types; and the records of an exploration fit a
//! report: their ids are found by the names of the net.
#![tactic(auto)]

mod below;
mod fields;
pub mod laws;
mod numbers;
pub mod own_laws;
mod records;
mod spelling;
mod verdicts;

pub use records::numbers_are_in_range;
pub use spelling::names_are_spelled;
pub use verdicts::{steps_fit, verdict_fits};
