//! Sets of numbers from ranges in any order.

ghost use Rattle.std.specs.Prelude.{◌≡◌, ◌<◌, ◌^◌, ◌∷◌, [], ℕ, IfOk, IfSome};
ghost use Rattle.std.specs.List.{AllByRecursion};
ghost use Rattle.sn_ranges.specs.Ranges.{is_member};
ghost use Rattle.sn_ranges.specs.Sets.{set_of};
ghost use Rattle.sefl_syntax.specs.Clipped.{IsGoodPair, kept_of};

use sn_ranges::laws::{faultless_where_all_fit, the_set_of_a_test};
use sn_ranges::{RangeFault, Ranges};
use sn_width::{NoMemory, Num, Width};
use std::alloc::Global;

/// The values of the width that lie in one of the ranges.
pub(crate) fn set_of(alloc: Global, width: Width, ranges: &[(Num, Num)]) -> Result<Ranges, NoMemory>
    ensures { IfOk result (λ set. set ≡ set_of width (is_member ranges.now)) }
{
    match Ranges::from_list(alloc, width, ranges) {
        Ok(set) => Ok(set),
        Err(RangeFault::NoMemory) => Err(NoMemory),
        // The ranges of an accepted job are in order and fit.
        Err(RangeFault::Reversed { .. }) => set_of_clipped(alloc, width, ranges),
        Err(RangeFault::TooWide { .. }) => set_of_clipped(alloc, width, ranges),
    }
}

/// The same of ranges that may be reversed or too wide.
fn set_of_clipped(alloc: Global, width: Width, ranges: &[(Num, Num)]) -> Result<Ranges, NoMemory>
    ensures { IfOk result (λ set. set ≡ set_of width (is_member ranges.now)) }
{
    the_set_of_a_test();
    faultless_where_all_fit();
    let kept = clipped(alloc, width, ranges)?;
    match Ranges::from_list(alloc, width, &kept) {
        Ok(set) => Ok(set),
        Err(RangeFault::NoMemory) => Err(NoMemory),
        Err(RangeFault::Reversed { .. }) => unreachable!(),
        Err(RangeFault::TooWide { .. }) => unreachable!(),
    }
}

/// The ranges as far as they lie within the width.
#[tactic(auto, unfolding(sn_ranges::specs::Ranges::is_member, sn_ranges::specs::Ranges::in_range))]
fn clipped(alloc: Global, width: Width, ranges: &[(Num, Num)]) -> Result<Vec<(Num, Num)>, NoMemory>
    ensures fit { IfOk result (λ kept. AllByRecursion (IsGoodPair width) kept.items) }
    ensures members { IfOk result (λ kept. (value : ℕ) → value < 2 ^ width
        → is_member kept.items value ≡ is_member ranges.now value) }
{
    let mut kept = Vec::new(alloc);
    for range in ranges {
        if let Some(pair) = clip(width, *range) {
            kept.push(pair)?;
        }
    }
    Ok(kept)
}

/// The range as far as it lies within the width; None where nothing of it does.
#[tactic(auto, unfolding(sn_ranges::specs::Ranges::is_member, sn_ranges::specs::Ranges::in_range))]
fn clip(width: Width, range: (Num, Num)) -> Option<(Num, Num)>
    ensures fit { IfSome result (IsGoodPair width) }
    ensures members { (value : ℕ) → value < 2 ^ width
        → is_member (kept_of result) value ≡ is_member (range ∷ []) value }
{
    let max = width.max();
    if range.0 > range.1 || range.0 > max {
        return None;
    }
    if range.1 > max {
        return Some((range.0, max));
    }
    Some(range)
}
