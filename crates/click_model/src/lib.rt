//! Click configurations: their elements and connections, and the nets that they stand for.
#![tactic(auto)]

mod class;
mod config;
mod connect;
mod declare;
mod element;
mod expect;
mod fault;
mod flaw;
mod net;
mod pattern;
mod rule;
mod words;

pub use config::{ClickConfig, read_click};
pub use fault::ClickFault;
pub use net::click_net;
