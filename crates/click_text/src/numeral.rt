//! Numbers of at most 32 bits.

ghost use Rattle.std.specs.Prelude.{◌≡◌, ◌≤◌, ◌<◌, ◌^◌, ◌+◌, ◌*◌};
ghost use Rattle.std.specs.Option.{SomeIff};
ghost use Rattle.sefl_lex.specs.Words.{is_hexadecimal};
ghost use Rattle.click_text.specs.Numbers.{digits_from, digits_number, number};

/// The number with one digit more.
fn append(value: u32, base: u32, digit: u32) -> Option<u32>
    ensures { SomeIff result (value * base + digit < 2 ^ 32) (value * base + digit) }
{
    value.checked_mul(base)?.checked_add(digit)
}

fn digits_from(base: u32, digits: &[u8]) -> Option<u32>
    requires least { 2 ≤ base }
    requires most { base ≤ 36 }
    ensures { result ≡ digits_from base 0 digits.now }
{
    let mut value: u32 = 0;
    for byte in digits {
        let digit = char::from(*byte).to_digit(base)?;
        value = append(value, base, digit)?;
    }
    Some(value)
}

fn digits_number(base: u32, digits: &[u8]) -> Option<u32>
    requires least { 2 ≤ base }
    requires most { base ≤ 36 }
    ensures { result ≡ digits_number base digits.now }
{
    if digits.is_empty() {
        return None;
    }
    digits_from(base, digits)
}

fn is_hexadecimal(word: &[u8]) -> bool
    ensures { result ≡ is_hexadecimal word.now }
{
    matches!(word, [b'0', b'x', ..])
}

/// The value of a number; None where the word is none, or one of more than 32 bits.
pub fn number(word: &[u8]) -> Option<u32>
    ensures { result ≡ number word.now }
{
    if is_hexadecimal(word) {
        let (_, digits) = word.split_at(2);
        return digits_number(16, digits);
    }
    digits_number(10, word)
}
