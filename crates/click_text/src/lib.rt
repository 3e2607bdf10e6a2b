//! The texts of Click configurations: their tokens, statements and arguments.
#![tactic(auto)]

mod arguments;
mod bytes;
mod comment;
mod fault;
mod front;
mod item;
mod numeral;
mod stage;
mod statement;
mod token;

pub use arguments::arguments_text;
pub use fault::Unread;
pub use item::Item;
pub use numeral::number;
pub use statement::read_items;
