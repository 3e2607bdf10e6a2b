//! The values of numbers.

ghost use Rattle.std.specs.Prelude.{◌≡◌, ◌<◌, ◌^◌, ◌+◌, ◌*◌, true, IfSome};
ghost use Rattle.std.specs.Char.{digit_value};
ghost use Rattle.std.specs.Option.{SomeIff};
ghost use Rattle.sefl_lex.specs.Bytes.{is_decimal};
ghost use Rattle.sefl_lex.specs.Reads.{IsTokenOf, word_of};
ghost use Rattle.sefl_lex.specs.Words.{value_of};
ghost use Rattle.sefl_lex.specs.declared.token.TokenKind.TheVariants.{Number};

use sefl_lex::{Token, number_value, token_text};

/// The number with one decimal digit more.
fn append(value: u64, digit: u8) -> Option<u64>
    ensures { SomeIff result (value * 10 + digit < 2 ^ 64) (value * 10 + digit) }
{
    value.checked_mul(10)?.checked_add(u64::from(digit))
}

/// The value of a decimal digit.
fn digit_of(byte: u8) -> Option<u8>
    ensures decimal { IfSome result (λ digit. is_decimal byte ≡ true) }
    ensures value { IfSome result (λ digit. digit ≡ digit_value byte) }
{
    match byte {
        b'0'..=b'9' => Some(byte - b'0'),
        _ => None,
    }
}

/// The value of decimal digits, where 64 bits have it.
fn short_value(word: &[u8]) -> Option<u64>
    ensures { IfSome result (λ value. value ≡ value_of word.now) }
{
    let mut value: u64 = 0;
    for byte in word {
        let digit = digit_of(*byte)?;
        value = append(value, digit)?;
    }
    Some(value)
}

/// The value of a number. Most are short and decimal.
pub fn value_at(text: &str, token: Token) -> u128
    requires token { IsTokenOf text.now token }
    requires number { token.kind ≡ Number }
    ensures { result ≡ value_of (word_of text.now token) }
{
    match short_value(token_text(text, token).as_bytes()) {
        Some(value) => u128::from(value),
        None => number_value(text, token),
    }
}
