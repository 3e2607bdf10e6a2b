//! Sums of two ascending lists of parts.

ghost use Rattle.std.specs.Prelude.{◌≡◌, ℕ, ◌+◌, ◌*◌, ◌%◌, ◌^◌, ◌<◌, ◌≤◌, ◌⊎◌, [], if◌then◌else◌, ◌==◌, length, IfOk, IfNone, IfSome, suc};
ghost use Rattle.lin_term.specs.Terms.{AscendsFrom, CoefficientsFit, StartsAt, coefficient_of};

use crate::parts::{Part, Parts};
use sn_width::{NoMemory, Num, SymId, Width};
use std::alloc::Global;

/// `a + factor * b` modulo `2^w`.
pub(crate) fn plus_times(width: Width, a: Num, factor: Num, b: Num) -> Num
    ensures { result ≡ (a + factor * b) % 2 ^ width }
{
    a.wrapping_add(factor.wrapping_mul(b)) & width.max()
}

/// The first symbol of two ascending lists; None where both are empty.
fn first_symbol(left: &[Part], right: &[Part]) -> Option<SymId>
    ensures none { IfNone result ((left.now ≡ []) × (right.now ≡ [])) }
    ensures stands { IfSome result (λ s. StartsAt s.0 left.now ⊎ StartsAt s.0 right.now) }
    ensures first { (n : ℕ) → AscendsFrom n left.now → AscendsFrom n right.now
        → IfSome result (λ s. (n ≤ s.0) × AscendsFrom s.0 left.now × AscendsFrom s.0 right.now) }
{
    match (left, right) {
        ([], []) => None,
        ([a, ..], []) => Some(a.0),
        ([], [b, ..]) => Some(b.0),
        ([a, ..], [b, ..]) => Some(if b.0 < a.0 { b.0 } else { a.0 }),
    }
}

/// The coefficient of `symbol` where it stands first, else 0, and the parts after it.
fn split_symbol(parts: &[Part], symbol: SymId) -> (Num, &[Part])
    requires { AscendsFrom symbol.0 parts.now }
    ensures coefficients { (s : ℕ) → coefficient_of s parts.now
        ≡ (if symbol.0 == s then result.0 else 0) + coefficient_of s result.1.now }
    ensures rest { AscendsFrom (suc symbol.0) result.1.now }
    ensures kept { length result.1.now ≤ length parts.now }
    ensures shorter { StartsAt symbol.0 parts.now → length result.1.now < length parts.now }
{
    match parts {
        [(first, coefficient), rest @ ..] if *first == symbol => (*coefficient, rest),
        _ => (0, parts),
    }
}

/// The parts of `left` plus `factor` times those of `right`, modulo `2^w`.
pub(crate) fn merged(
    alloc: Global,
    width: Width,
    left: &[Part],
    factor: Num,
    right: &[Part],
) -> Result<Parts, NoMemory>
    requires left { AscendsFrom 0 left.now }
    requires right { AscendsFrom 0 right.now }
    ensures ascending { IfOk result (AscendsFrom 0) }
    ensures reduced { IfOk result (CoefficientsFit width) }
    ensures coefficients { IfOk result (λ parts. (s : ℕ) → coefficient_of s parts
        ≡ (coefficient_of s left.now + factor * coefficient_of s right.now) % 2 ^ width) }
{
    let mut parts = Parts::none();
    let (mut left_rest, mut right_rest) = (left, right);
    while let Some(symbol) = first_symbol(left_rest, right_rest) {
        let (of_left, after_left) = split_symbol(left_rest, symbol);
        let (of_right, after_right) = split_symbol(right_rest, symbol);
        let coefficient = plus_times(width, of_left, factor, of_right);
        if coefficient != 0 {
            parts.push(alloc, (symbol, coefficient))?;
        }
        left_rest = after_left;
        right_rest = after_right;
    }
    Ok(parts)
}
