//! The words of a command line: which command they give, read by `clap`.
#![tactic(auto)]

mod command;
mod dash;
mod form;
mod number;
mod values;

pub use command::{
    Command, FilterStyle, HOPS, LIMIT, MOST_ANSWER_LIMIT, MOST_BOXES, MOST_HOPS, MOST_LIMIT, Open,
    reading,
};
