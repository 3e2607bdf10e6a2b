//! Short numbers.

ghost use Rattle.std.specs.Prelude.{◌≡◌, ◌≤◌, IfSome};
ghost use Rattle.table_lines.specs.Numbers.{at_most, decimal, digit_value, number, has_leading_zero, plain_number};

/// The most digits of a number that is no part of an address.
const MOST_DIGITS: usize = 4;

/// The value of a digit, 16 where it is no hexadecimal one.
fn digit_value(byte: u8) -> u32
    ensures value { result ≡ digit_value byte }
    ensures within { result ≤ 16 }
{
    match byte {
        b'0'..=b'9' => u32::from(byte - 48),
        b'a'..=b'f' => u32::from(byte - 87),
        b'A'..=b'F' => u32::from(byte - 55),
        _ => 16,
    }
}

/// The number that one to `most` digits of the base spell; None where the bytes are something else.
pub(crate) fn number(base: u32, most: usize, bytes: &[u8]) -> Option<u32>
    requires base { base ≤ 16 }
    requires most { most ≤ 7 }
    ensures { result ≡ number base most bytes.now }
{
    if bytes.is_empty() || bytes.len() > most {
        return None;
    }
    let mut value = 0;
    for byte in bytes {
        let digit = digit_value(*byte);
        if digit >= base {
            return None;
        }
        value = value * base + digit;
    }
    Some(value)
}

fn has_leading_zero(bytes: &[u8]) -> bool
    ensures { result ≡ has_leading_zero bytes.now }
{
    match bytes {
        [first, _, ..] => *first == b'0',
        _ => false,
    }
}

/// A decimal number of one to `most` digits, with no leading zero.
pub fn decimal(most: usize, bytes: &[u8]) -> Option<u32>
    requires { most ≤ 7 }
    ensures { result ≡ decimal most bytes.now }
{
    if has_leading_zero(bytes) {
        return None;
    }
    number(10, most, bytes)
}

/// A decimal number of at most four digits, with no leading zero.
pub(crate) fn plain_number(bytes: &[u8]) -> Option<u32>
    ensures { result ≡ plain_number bytes.now }
{
    decimal(MOST_DIGITS, bytes)
}

/// The number, if it is not past the limit.
pub fn at_most(limit: u32, number: Option<u32>) -> Option<u32>
    ensures value { result ≡ at_most limit number }
    ensures within { IfSome result (λ n. n ≤ limit) }
{
    let number = number?;
    if number <= limit { Some(number) } else { None }
}
