//! What the words of a pattern say.

ghost use Rattle.std.specs.Prelude.{◌≡◌};
ghost use Rattle.click_model.specs.Patterns.{first_word, kind_word, host, net, port, protocol, expected, heard};

use crate::words::{is, number_to};
use click_elements::{Direction, Primitive};
use sefl_syntax::TableKind;
use sn_width::Num;
use table_lines::{address_of, key_of};

/// What is expected in a pattern.
#[derive(Clone, Copy)]
pub(crate) enum Expect {
    /// The first word of a primitive.
    First,
    /// Behind `src` or `dst`.
    Kind(Direction),
    /// An IPv4 address.
    Host(Direction),
    /// A prefix.
    Net(Direction),
    /// A port's number.
    Port(Direction),
    /// Behind `ip`.
    Proto,
    /// A protocol's number.
    Protocol,
    /// Behind a primitive.
    Joint,
}

/// What a word says.
#[derive(Clone, Copy)]
pub(crate) enum Heard {
    /// It is not allowed there.
    Refused,
    Goes(Expect),
    /// It ends a primitive.
    Puts(Primitive),
}

fn first_word(word: &[u8]) -> Heard
    ensures { result ≡ first_word word.now }
{
    if is(word, "-") || is(word, "all") {
        Heard::Puts(Primitive::All)
    } else if is(word, "src") {
        Heard::Goes(Expect::Kind(Direction::Source))
    } else if is(word, "dst") {
        Heard::Goes(Expect::Kind(Direction::Destination))
    } else if is(word, "ip") {
        Heard::Goes(Expect::Proto)
    } else if is(word, "tcp") {
        Heard::Puts(Primitive::Protocol(6))
    } else if is(word, "udp") {
        Heard::Puts(Primitive::Protocol(17))
    } else if is(word, "icmp") {
        Heard::Puts(Primitive::Protocol(1))
    } else {
        Heard::Refused
    }
}

fn kind_word(direction: Direction, word: &[u8]) -> Heard
    ensures { result ≡ kind_word direction word.now }
{
    if is(word, "host") {
        Heard::Goes(Expect::Host(direction))
    } else if is(word, "net") {
        Heard::Goes(Expect::Net(direction))
    } else if is(word, "port") {
        Heard::Goes(Expect::Port(direction))
    } else {
        Heard::Refused
    }
}

fn host(direction: Direction, address: Option<u64>) -> Heard
    ensures { result ≡ host direction address }
{
    let Some(address) = address else {
        return Heard::Refused;
    };
    let address = Num::from(address);
    Heard::Puts(Primitive::Host { direction, address })
}

/// The addresses of a prefix, from the first one to the last.
fn net(direction: Direction, key: Option<(u64, u32)>) -> Heard
    ensures { result ≡ net direction key }
{
    let Some((address, length)) = key else {
        return Heard::Refused;
    };
    let bits: u32 = 32;
    let size: Num = 1 << bits.saturating_sub(length);
    let first = Num::from(address);
    let last = first + size - 1;
    Heard::Puts(Primitive::Net {
        direction,
        first,
        last,
    })
}

fn port(direction: Direction, number: Option<u32>) -> Heard
    ensures { result ≡ port direction number }
{
    let Some(number) = number else {
        return Heard::Refused;
    };
    let port = Num::from(number);
    Heard::Puts(Primitive::Port { direction, port })
}

fn protocol(number: Option<u32>) -> Heard
    ensures { result ≡ protocol number }
{
    let Some(number) = number else {
        return Heard::Refused;
    };
    Heard::Puts(Primitive::Protocol(Num::from(number)))
}

/// Where such a word is expected, the pattern goes on with it.
fn expected(is_such: bool, next: Expect) -> Heard
    ensures { result ≡ expected is_such next }
{
    if is_such {
        Heard::Goes(next)
    } else {
        Heard::Refused
    }
}

/// What a word says where such a one is expected.
pub(crate) fn hear(expect: Expect, word: &[u8]) -> Heard
    ensures { result ≡ heard expect word.now }
{
    match expect {
        Expect::First => first_word(word),
        Expect::Kind(direction) => kind_word(direction, word),
        Expect::Host(direction) => host(direction, address_of(TableKind::Fib, word)),
        Expect::Net(direction) => net(direction, key_of(TableKind::Fib, word)),
        Expect::Port(direction) => port(direction, number_to(65_535, Some(word))),
        Expect::Proto => expected(is(word, "proto"), Expect::Protocol),
        Expect::Protocol => protocol(number_to(255, Some(word))),
        Expect::Joint => expected(is(word, "&&") || is(word, "and"), Expect::First),
    }
}
