//! How the boxes share out the addresses.

ghost use Rattle.std.specs.Prelude.{◌≡◌, ◌≤◌, ◌<◌, ◌+◌, ◌^◌, length, map, IfOk};
ghost use Rattle.job_gen.specs.Grown.{numbers_from};
ghost use Rattle.job_gen.specs.Splits.{IsWithin, next, part, remainder, span_of, split_at, split_of};

use sn_width::NoMemory;
use std::alloc::Global;

/// Addresses: the first one, and how many.
#[derive(Drop)]
pub struct Span {
    pub first: u64,
    pub size: u64,
}

/// Addresses, and the first one of the upper part.
#[derive(Drop)]
pub struct Split {
    pub span: Span,
    pub cut: u64,
}

/// The next number of the sequence.
fn next(x: u64) -> u64
    ensures { result ≡ next x }
{
    let sum = u128::from(x) * 6_364_136_223_846_793_005 + 1_442_695_040_888_963_407;
    (sum % 18_446_744_073_709_551_616) as u64
}

fn remainder(n: u64, by: u64) -> u64
    ensures value { result ≡ remainder n by }
    ensures small { result ≤ by }
{
    if by == 0 { 0 } else { n % by }
}

/// Cuts a span behind its first quarter, and up to half of it later.
fn split_at(drawn: u64, span: Span) -> Split
    requires { span.first + span.size ≤ 2 ^ 32 }
    ensures { result ≡ split_at drawn span }
{
    let cut = span.first + span.size / 4 + remainder(drawn, span.size / 2);
    Split { span, cut }
}

/// The part of a box: below its parent's cut where its number is odd, else the rest.
fn part(number: u64, parent: &Split) -> Span
    requires { IsWithin parent.now }
    ensures { result ≡ part number parent.now }
{
    let (first, cut) = (parent.span.first, parent.cut);
    if number % 2 == 1 {
        Span {
            first,
            size: cut - first,
        }
    } else {
        Span {
            first: cut,
            size: first + parent.span.size - cut,
        }
    }
}

/// The addresses of the box with the next number.
fn next_span(splits: &[Split], seed: u64) -> Span
    requires { splits.now ≡ map (split_of seed) (numbers_from 0 (length splits.now)) }
    ensures { result ≡ span_of seed (length splits.now) }
{
    let number = splits.len() as u64;
    if number == 0 {
        return Span {
            first: 0,
            size: 4_294_967_296,
        };
    }
    part(number, &splits[((number - 1) / 2) as usize])
}

/// The splits of `boxes` boxes.
pub(crate) fn splits(alloc: Global, seed: u64, boxes: u32) -> Result<Vec<Split>, NoMemory>
    ensures { IfOk result (λ splits. splits.items ≡ map (split_of seed) (numbers_from 0 boxes)) }
{
    let mut splits = Vec::new(alloc);
    let mut x = seed;
    for _ in 0..boxes {
        x = next(x);
        let span = next_span(&splits, seed);
        splits.push(split_at(x / 8_589_934_592, span))?;
    }
    Ok(splits)
}
