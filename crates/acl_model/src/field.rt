//! What the words of a rule say of its fields.

ghost use Rattle.std.specs.Prelude.{◌≡◌, ◌+◌, ◌-◌, ◌<◌, ◌≤◌, ◌^◌, length, IfSome};
ghost use Rattle.std.specs.List.{position_from};
ghost use Rattle.acl_model.specs.Fields.{addresses_of, is_any, is_hyphen, limited, one, ordered, ports_at, ports_of, protocol_of, span_of};

use sefl_syntax::TableKind;
use table_lines::laws::words_have_keys;
use table_lines::{at_most, decimal, key_of};

/// The greatest number of a protocol (RFC 791: 8 bits).
const MOST_PROTOCOL: u32 = 255;

/// The greatest number of a port (RFC 9293 and RFC 768: 16 bits).
const MOST_PORT: u32 = 65_535;

/// The most digits of a port.
const MOST_DIGITS: usize = 5;

/// The number of bits of an IPv4 address.
const ADDRESS_BITS: u32 = 32;

/// A decimal number with no leading zero, if it is not past the limit.
fn limited(limit: u32, word: &[u8]) -> Option<u32>
    ensures value { result ≡ limited limit word.now }
    ensures within { IfSome result (λ n. n ≤ limit) }
{
    at_most(limit, decimal(MOST_DIGITS, word))
}

/// Whether the word stands for all values.
fn is_any(word: &[u8]) -> bool
    ensures { result ≡ is_any word.now }
{
    word == "any".as_bytes()
}

/// The range of one number.
fn one(number: Option<u32>) -> Option<(u32, u32)>
    ensures { result ≡ one number }
{
    let number = number?;
    Some((number, number))
}

/// The protocols that the word stands for.
pub(crate) fn protocol_of(word: &[u8]) -> Option<(u32, u32)>
    ensures value { result ≡ protocol_of word.now }
    ensures range { IfSome result (λ r. (r.0 ≤ r.1) × (r.1 < 2 ^ 8)) }
{
    if is_any(word) {
        return Some((0, MOST_PROTOCOL));
    }
    one(limited(MOST_PROTOCOL, word))
}

/// The addresses of a prefix.
fn span_of(address: u64, length: u32) -> (u32, u32)
    requires length { length ≤ 32 }
    requires last { address + 2 ^ (32 - length) ≤ 2 ^ 32 }
    ensures { result ≡ span_of (address, length) }
{
    let size: u64 = 1 << (ADDRESS_BITS - length);
    (address as u32, (address + size - 1) as u32)
}

/// The addresses that the word stands for.
pub(crate) fn addresses_of(word: &[u8]) -> Option<(u32, u32)>
    ensures value { result ≡ addresses_of word.now }
    ensures range { IfSome result (λ r. (r.0 ≤ r.1) × (r.1 < 2 ^ 32)) }
{
    words_have_keys();
    let (address, length) = key_of(TableKind::Fib, word)?;
    Some(span_of(address, length))
}

/// Two numbers as a range, where the first is not greater than the last.
fn ordered(first: Option<u32>, last: Option<u32>) -> Option<(u32, u32)>
    ensures { result ≡ ordered first last }
{
    let first = first?;
    let last = last?;
    if first <= last {
        Some((first, last))
    } else {
        None
    }
}

/// Where the first hyphen stands.
fn hyphen_in(word: &[u8]) -> Option<usize>
    ensures value { result ≡ position_from is_hyphen 0 word.now }
    ensures within { IfSome result (λ place. place < length word.now) }
{
    word.iter().position(|byte| *byte == b'-')
}

/// The ports of a word with its first hyphen at that place.
fn ports_at(word: &[u8], hyphen: Option<usize>) -> Option<(u32, u32)>
    requires { IfSome hyphen (λ place. place < length word.now) }
    ensures value { result ≡ ports_at word.now hyphen }
    ensures range { IfSome result (λ r. (r.0 ≤ r.1) × (r.1 < 2 ^ 16)) }
{
    match hyphen {
        None => one(limited(MOST_PORT, word)),
        Some(at) => ordered(
            limited(MOST_PORT, &word[..at]),
            limited(MOST_PORT, &word[at + 1..]),
        ),
    }
}

/// The ports that the word stands for.
pub(crate) fn ports_of(word: &[u8]) -> Option<(u32, u32)>
    ensures value { result ≡ ports_of word.now }
    ensures range { IfSome result (λ r. (r.0 ≤ r.1) × (r.1 < 2 ^ 16)) }
{
    if is_any(word) {
        return Some((0, MOST_PORT));
    }
    ports_at(word, hyphen_in(word))
}
