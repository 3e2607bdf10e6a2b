//! Where a number stands among ascending ranges.

ghost use Rattle.std.specs.Prelude.{◌≡◌, ℕ, ◌<◌, ◌≤◌, length, slice_index_or};
ghost use Rattle.sn_ranges.specs.Ranges.{AscendFrom};

use sn_width::Num;

/// The number of ranges that end before the value, in as many steps as this number has digits.
pub fn ending_before(ranges: &[(Num, Num)], value: Num) -> usize
    requires { AscendFrom 0 ranges.now }
    ensures within { result ≤ length ranges.now }
    ensures before { (k : ℕ) → k < result → (slice_index_or ranges.now k (0, 0)).1 < value }
    ensures at { result < length ranges.now → value ≤ (slice_index_or ranges.now result (0, 0)).1 }
{
    let bound = bound_of(ranges, value);
    ranges[..bound].partition_point(|range| range.1 < value)
}

/// A number of ranges: the one behind them ends at the value or later, or they are all.
fn bound_of(ranges: &[(Num, Num)], value: Num) -> usize
    ensures within { result ≤ length ranges.now }
    ensures at { result < length ranges.now → value ≤ (slice_index_or ranges.now result (0, 0)).1 }
{
    let len = ranges.len();
    let mut bound = 0;
    while bound < len && ranges[bound].1 < value {
        bound += (bound + 1).min(len - bound);
    }
    bound
}
