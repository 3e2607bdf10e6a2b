//! Reads the files of tables line by line: what their lines say, and the rows of MAC and forwarding tables.
#![tactic(auto)]

mod address;
mod content;
mod entries;
mod fault;
pub mod laws;
mod lines;
mod number;
mod pieces;
mod rows;
mod table;
mod words;

pub use address::{address_of, key_of};
pub use fault::TableFault;
pub use lines::{LineReader, read_lines};
pub use number::{at_most, decimal};
pub use pieces::{Separator, next_piece};
pub use table::{Row, Table, read_table};
pub use words::{before_comment, is_ascii, next_word};
