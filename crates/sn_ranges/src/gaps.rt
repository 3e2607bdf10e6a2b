//! The numbers that lie in none of the ranges.

ghost use Rattle.std.specs.Prelude.{◌≡◌, ℕ, ◌≤◌, ◌&&◌, not, true, nat_le, IfOk};
ghost use Rattle.sn_ranges.specs.Ranges.{is_member, HasExactly, AscendFrom};

use sn_width::{NoMemory, Num};
use std::alloc::Global;

/// The ranges of the numbers up to `max` that lie in none of the ranges, which end by `max`.
pub fn gaps(alloc: Global, ranges: &[(Num, Num)], max: Num) -> Result<Vec<(Num, Num)>, NoMemory>
    requires ascending { AscendFrom 0 ranges.now }
    requires bounded { (value : ℕ) → is_member ranges.now value ≡ true → value ≤ max }
    ensures members { IfOk result (λ gaps. HasExactly gaps.items
        (λ value. nat_le value max && not (is_member ranges.now value))) }
    ensures ascending { IfOk result (λ gaps. AscendFrom 0 gaps.items) }
{
    let mut gaps = Vec::new(alloc);
    // The first number after the ranges so far.
    let mut next = 0;
    for range in ranges {
        if next < range.0 {
            gaps.push((next, range.0 - 1))?;
        }
        if range.1 == max {
            return Ok(gaps);
        }
        next = range.1 + 1;
    }
    gaps.push((next, max))?;
    Ok(gaps)
}
