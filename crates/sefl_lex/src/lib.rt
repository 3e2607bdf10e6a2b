//! Cuts the text of a job into its tokens, and reads the numbers of a packet's file.
#![tactic(auto)]

mod bytes;
mod fault;
mod front;
pub mod laws;
mod lex;
mod number;
mod packet;
mod packet_fault;
mod packet_number;
mod packet_words;
mod parts;
mod token;

pub use bytes::{is_name_byte, is_name_start, is_text_byte};
pub use fault::LexFault;
pub use lex::tokens;
pub use packet::read_packet;
pub use packet_fault::PacketFault;
pub use parts::{number_value, text_body, token_text};
pub use token::{Token, TokenKind};
