//! Words that are numbers.

ghost use Rattle.std.specs.Prelude.{◌≡◌, ◌≢◌, ◌∷◌, [], true, false, All, IfOk, IfErr, IfSome, IfNone};
ghost use Rattle.sefl_lex.specs.Words.{is_number, value_of};
ghost use Rattle.sefl_lex.specs.Reads.{IsTokenOf, token_at};
ghost use Rattle.sefl_lex.specs.declared.token.TokenKind.TheVariants.{Number};
ghost use Rattle.sefl_lex.specs.declared.packet_fault.PacketFault.TheVariants.{NotNumbers};

use crate::packet_fault::PacketFault;
use crate::{Token, TokenKind, number_value, tokens};
use sn_width::Num;
use std::alloc::Global;
use std::str;

/// The value of a text whose tokens are these, if it is one number.
fn whole_number(text: &str, found: &[Token]) -> Option<Num>
    requires { All (IsTokenOf text.now) found.now }
    ensures number { IfSome result (λ value. is_number text.now ≡ true) }
    ensures value { IfSome result (λ value. value ≡ value_of text.now) }
    ensures none { IfNone result (found.now ≢ token_at Number 0 text.now ∷ []) }
{
    let [token] = found else {
        return None;
    };
    if token.kind != TokenKind::Number || token.start != 0 || token.end != text.len() as u64 {
        return None;
    }
    Some(number_value(text, *token))
}

/// The value of a number; NotNumbers where the word is none.
pub fn number_of(alloc: Global, word: &[u8]) -> Result<Num, PacketFault>
    ensures number { IfOk result (λ value. is_number word.now ≡ true) }
    ensures value { IfOk result (λ value. value ≡ value_of word.now) }
    ensures not_number { IfErr result (λ fault. fault ≡ NotNumbers → is_number word.now ≡ false) }
{
    let Ok(text) = str::from_utf8(word) else {
        return Err(PacketFault::NotNumbers);
    };
    let found = tokens(alloc, text)?;
    match whole_number(text, &found) {
        Some(value) => Ok(value),
        None => Err(PacketFault::NotNumbers),
    }
}
