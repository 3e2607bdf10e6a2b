//! The numbers that two lists of ranges have in common.

ghost use Rattle.std.specs.Prelude.{◌≡◌, ℕ, ◌+◌, ◌<◌, ◌≤◌, ◌&&◌, ◌||◌, true, length, max, slice_index_or, IfOk, OnOk};
ghost use Rattle.sn_ranges.specs.Ranges.{in_range, is_member, HasExactly, AscendFrom, IsCut, last_start};

use crate::merge::append;
use crate::search::ending_before;
use sn_width::{NoMemory, Num};
use std::alloc::Global;

/// The ranges of the numbers of both lists.
pub fn meet(
    alloc: Global,
    left: &[(Num, Num)],
    right: &[(Num, Num)],
) -> Result<Vec<(Num, Num)>, NoMemory>
    requires left_ascending { AscendFrom 0 left.now }
    requires right_ascending { AscendFrom 0 right.now }
    ensures members { IfOk result (λ common. HasExactly common.items
        (λ value. is_member left.now value && is_member right.now value)) }
    ensures ascending { IfOk result (λ common. AscendFrom 0 common.items) }
{
    if left.len() < right.len() {
        within_windows(alloc, right, left)
    } else {
        within_windows(alloc, left, right)
    }
}

/// The ranges of the numbers of both lists. What lies within one window is sought and copied at
/// once, so that few windows cost little more than the copy.
fn within_windows(
    alloc: Global,
    ranges: &[(Num, Num)],
    windows: &[(Num, Num)],
) -> Result<Vec<(Num, Num)>, NoMemory>
    requires ranges_ascending { AscendFrom 0 ranges.now }
    requires windows_ascending { AscendFrom 0 windows.now }
    ensures members { IfOk result (λ common. HasExactly common.items
        (λ value. is_member ranges.now value && is_member windows.now value)) }
    ensures ascending { IfOk result (λ common. AscendFrom 0 common.items) }
{
    let mut common = Vec::with_capacity(alloc, room(ranges, windows))?;
    let mut rest = ranges;
    for window in windows {
        rest = append_within(&mut common, rest, *window)?;
    }
    Ok(common)
}

/// At least as many as there are ranges of the numbers of both lists, or as there can be in memory.
fn room(ranges: &[(Num, Num)], windows: &[(Num, Num)]) -> usize
    requires { AscendFrom 0 ranges.now }
{
    let Some(last) = windows.last() else {
        return 0;
    };
    let before = ending_before(ranges, windows[0].0);
    let ending = ending_before(ranges, last.1);
    ending.saturating_sub(before).saturating_add(windows.len())
}

/// Appends the numbers of the ranges that lie in the window, which starts after a gap behind the
/// numbers so far. Answers the ranges that may go on behind the window.
fn append_within<'a>(
    common: &mut Vec<(Num, Num)>,
    ranges: &'a [(Num, Num)],
    window: (Num, Num),
) -> Result<&'a [(Num, Num)], NoMemory>
    requires apart { (value : ℕ) → is_member common.old.items value ≡ true → value + 1 < window.0 }
    requires ordered { window.0 ≤ window.1 }
    requires ascending { AscendFrom 0 common.old.items }
    requires ranges_ascending { AscendFrom 0 ranges.now }
    ensures members { OnOk result (HasExactly common.new.items
        (λ value. is_member common.old.items value || (is_member ranges.now value && in_range window value))) }
    ensures ascending { OnOk result (AscendFrom 0 common.new.items) }
    ensures rest_ascending { IfOk result (λ rest. AscendFrom 0 rest.now) }
    ensures rest { IfOk result (λ rest. (value : ℕ) → window.1 < value
        → is_member rest.now value ≡ is_member ranges.now value) }
{
    let (inside, rest) = split_at_window(ranges, window);
    append_inside(common, inside, window)?;
    if let Some(last) = rest.first() {
        append_overlap(common, *last, window)?;
    }
    Ok(rest)
}

/// The ranges that end in the window, before its last number, and those behind them.
fn split_at_window(ranges: &[(Num, Num)], window: (Num, Num)) -> (&[(Num, Num)], &[(Num, Num)])
    requires ordered { window.0 ≤ window.1 }
    requires ascending { AscendFrom 0 ranges.now }
    ensures { IsCut ranges.now window result.0.now result.1.now }
{
    let ending = &ranges[ending_before(ranges, window.0)..];
    ending.split_at(ending_before(ending, window.1))
}

/// Appends the numbers of the ranges that lie in the window; each range ends in it.
fn append_inside(
    common: &mut Vec<(Num, Num)>,
    ranges: &[(Num, Num)],
    window: (Num, Num),
) -> Result<(), NoMemory>
    requires apart { (value : ℕ) → is_member common.old.items value ≡ true → value + 1 < window.0 }
    requires ascending { AscendFrom 0 common.old.items }
    requires ranges_ascending { AscendFrom 0 ranges.now }
    requires start { (k : ℕ) → k < length ranges.now → window.0 ≤ (slice_index_or ranges.now k (0, 0)).1 }
    requires end { (k : ℕ) → k < length ranges.now → (slice_index_or ranges.now k (0, 0)).1 < window.1 }
    ensures members { OnOk result (HasExactly common.new.items
        (λ value. is_member common.old.items value || (is_member ranges.now value && in_range window value))) }
    ensures ascending { OnOk result (AscendFrom 0 common.new.items) }
{
    let Some((first, run)) = ranges.split_first() else {
        return Ok(());
    };
    append_overlap(common, *first, window)?;
    common.extend_from_slice(run)?;
    Ok(())
}

/// Appends the numbers of both ranges; one of the two starts no earlier than the last range.
fn append_overlap(
    common: &mut Vec<(Num, Num)>,
    left: (Num, Num),
    right: (Num, Num),
) -> Result<(), NoMemory>
    requires later { last_start 0 common.old.items ≤ max left.0 right.0 }
    requires ascending { AscendFrom 0 common.old.items }
    ensures members { OnOk result ((value : ℕ) → is_member common.new.items value
        ≡ (is_member common.old.items value || (in_range left value && in_range right value))) }
    ensures start { OnOk result (last_start 0 common.new.items ≤ max left.0 right.0) }
    ensures ascending { OnOk result (AscendFrom 0 common.new.items) }
{
    let first = left.0.max(right.0);
    let last = left.1.min(right.1);
    if first <= last {
        append(common, (first, last))?;
    }
    Ok(())
}
