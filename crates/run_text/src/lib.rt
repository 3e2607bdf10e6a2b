//! Compact JSON, written token by token with no tree of values; and what reports of one packet and of all packets have in common, written so: decisions,
//! places, ends, and what a packet carries.
#![tactic(auto)]

mod cells;
mod ends;
mod fields;
pub mod json_laws;
mod json_text;
mod names;
mod parts;
mod terms;

pub use cells::CellValue;
pub use ends::write_end;
pub use fields::{write_fields, write_head, write_meta, write_tag};
pub use json_text::JsonText;
pub use parts::{write_decision, write_decisions, write_place, write_places, write_values};
