//! The values of numbers.

ghost use Rattle.std.specs.Prelude.{◌≡◌, ◌≤◌, ◌<◌, ◌^◌, ◌+◌, ◌*◌, true, false, IfSome, IfNone};
ghost use Rattle.std.specs.Option.{SomeIff};
ghost use Rattle.std.specs.Str.Parse.{digits_value};
ghost use Rattle.sefl_lex.specs.Words.{is_hexadecimal, have_value, are_digits, is_number, value_of};

/// The number with one digit more.
fn append(value: u128, base: u32, digit: u32) -> Option<u128>
    ensures { SomeIff result (value * base + digit < 2 ^ 128) (value * base + digit) }
{
    value
        .checked_mul(u128::from(base))?
        .checked_add(u128::from(digit))
}

/// The number with these digits, if each is one of the base and the number is below `2^128`.
fn digits_value(base: u32, digits: &[u8]) -> Option<u128>
    requires least { 2 ≤ base }
    requires most { base ≤ 36 }
    ensures some { IfSome result (λ value. have_value base digits.now ≡ true) }
    ensures value { IfSome result (λ value. value ≡ digits_value base digits.now) }
    ensures none { IfNone result (have_value base digits.now ≡ false) }
{
    let mut value: u128 = 0;
    for byte in digits {
        let digit = char::from(*byte).to_digit(base)?;
        value = append(value, base, digit)?;
    }
    Some(value)
}

/// The value of these digits; None where they are none.
fn value_in(base: u32, digits: &[u8]) -> Option<u128>
    requires least { 2 ≤ base }
    requires most { base ≤ 36 }
    ensures some { IfSome result (λ value. are_digits base digits.now ≡ true) }
    ensures value { IfSome result (λ value. value ≡ digits_value base digits.now) }
    ensures none { IfNone result (are_digits base digits.now ≡ false) }
{
    if digits.is_empty() {
        return None;
    }
    digits_value(base, digits)
}

fn is_hexadecimal(word: &[u8]) -> bool
    ensures { result ≡ is_hexadecimal word.now }
{
    matches!(word, [b'0', b'x', ..])
}

/// The value of a number; None where the word is none.
pub fn value_of(word: &[u8]) -> Option<u128>
    ensures some { IfSome result (λ value. is_number word.now ≡ true) }
    ensures value { IfSome result (λ value. value ≡ value_of word.now) }
    ensures none { IfNone result (is_number word.now ≡ false) }
{
    if is_hexadecimal(word) {
        let (_, digits) = word.split_at(2);
        return value_in(16, digits);
    }
    value_in(10, word)
}
