//! The place that a status blames, for people: where the statements of a job begin, and the line of a file with a caret below it, in the files as they were
//! loaded; nothing is claimed of what is shown.
#![tactic(auto)]

mod excerpt;
mod jobs;
mod kept;
mod line;
mod number;
mod place;
mod plain;
mod stage;
mod statement;

pub use excerpt::fault_text;
pub use jobs::blamed_job;
pub use kept::{KeepingFolder, KeptFolder};
pub use line::{indent_of, line_of};
pub use number::{behind_node, own_number};
pub use place::{item_number, place_text, statement_at};
pub use plain::{is_plain, plain_text, plain_word};
pub use stage::Sought;
pub use statement::statement_start;
