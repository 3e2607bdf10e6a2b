//! Addresses and prefixes.

ghost use Rattle.std.specs.Prelude.{◌≡◌, ◌<◌, ◌≤◌, IfSome};
ghost use Rattle.table_lines.specs.Pieces.{pieces};
ghost use Rattle.table_lines.specs.Numbers.{plain_number, at_most};
ghost use Rattle.table_lines.specs.Addresses.{base_of, digits_of, parts_of, separator_of, part_of, address_of, first_address, mac_key, cut_prefix, prefix_of, key_of};
ghost use Rattle.table_lines.specs.declared.pieces.Separator.TheVariants.{Slash};

use crate::number::{at_most, number, plain_number};
use crate::pieces::{Separator, next_piece};
use sefl_syntax::TableKind;

/// The number of bits of an Ethernet address.
const MAC_BITS: u32 = 48;

/// The number of bits of an IPv4 address.
const IP_BITS: u32 = 32;

fn base_of(kind: TableKind) -> u32
    ensures value { result ≡ base_of kind }
    ensures within { result ≤ 16 }
{
    match kind {
        TableKind::Mac => 16,
        TableKind::Fib => 10,
    }
}

fn digits_of(kind: TableKind) -> usize
    ensures value { result ≡ digits_of kind }
    ensures within { result ≤ 4 }
{
    match kind {
        TableKind::Mac => 2,
        TableKind::Fib => 3,
    }
}

fn parts_of(kind: TableKind) -> usize
    ensures value { result ≡ parts_of kind }
    ensures within { result ≤ 6 }
{
    match kind {
        TableKind::Mac => 6,
        TableKind::Fib => 4,
    }
}

fn separator_of(kind: TableKind) -> Separator
    ensures { result ≡ separator_of kind }
{
    match kind {
        TableKind::Mac => Separator::Colon,
        TableKind::Fib => Separator::Dot,
    }
}

/// A part of an address.
fn part_of(kind: TableKind, piece: &[u8]) -> Option<u32>
    ensures value { result ≡ part_of kind piece.now }
    ensures within { IfSome result (λ byte. byte ≤ 255) }
{
    at_most(255, number(base_of(kind), digits_of(kind), piece))
}

/// The address that the word is: six hexadecimal bytes joined by `:`, or four decimal ones joined by `.`.
pub fn address_of(kind: TableKind, word: &[u8]) -> Option<u64>
    ensures { result ≡ address_of kind word.now }
{
    let mut left = Some(word);
    let mut value: u64 = 0;
    for _ in 0..parts_of(kind) {
        let (piece, behind) = next_piece(left?, separator_of(kind));
        value = value * 256 + u64::from(part_of(kind, piece)?);
        left = behind;
    }
    match left {
        Some(_) => None,
        None => Some(value),
    }
}

/// The address with the bits past the length at 0.
fn first_address(address: u64, length: u32) -> u64
    requires { length ≤ 32 }
    ensures { result ≡ first_address address length }
{
    let size: u64 = 1 << (IP_BITS - length);
    address / size * size
}

/// The address of an Ethernet row; all its bits count.
fn mac_key(address: Option<u64>) -> Option<(u64, u32)>
    ensures { result ≡ mac_key address }
{
    Some((address?, MAC_BITS))
}

/// An address and a length, if both are there.
fn cut_prefix(address: Option<u64>, length: Option<u32>) -> Option<(u64, u32)>
    requires { IfSome length (λ n. n ≤ 32) }
    ensures { result ≡ cut_prefix address length }
{
    let address = address?;
    let length = length?;
    Some((first_address(address, length), length))
}

/// The address and the length of a prefix.
#[tactic(auto, using(crate::proofs::ByteLemmas::three_pieces))]
fn prefix_of(word: &[u8]) -> Option<(u64, u32)>
    ensures { result ≡ prefix_of (pieces Slash word.now) }
{
    let (front, behind) = next_piece(word, Separator::Slash);
    let (length, more) = next_piece(behind?, Separator::Slash);
    match more {
        Some(_) => None,
        None => cut_prefix(
            address_of(TableKind::Fib, front),
            at_most(IP_BITS, plain_number(length)),
        ),
    }
}

/// What a row is about: an address and how many of its bits count. Of a prefix the bits past the length
/// are 0.
pub fn key_of(kind: TableKind, word: &[u8]) -> Option<(u64, u32)>
    ensures { result ≡ key_of kind word.now }
{
    match kind {
        TableKind::Mac => mac_key(address_of(TableKind::Mac, word)),
        TableKind::Fib => prefix_of(word),
    }
}
