//! Ranges in the order of their starts, merged where they overlap or touch.

ghost use Rattle.std.specs.Prelude.{◌≡◌, ℕ, ◌≤◌, ◌||◌, All, IfOk, OnOk};
ghost use Rattle.sn_ranges.specs.Ranges.{in_range, is_member, HasExactly, AscendFrom, StartFrom, last_start};

use sn_width::{NoMemory, Num};
use std::alloc::Global;

/// Appends a range that starts no earlier than the last one, and merges the two where they overlap
/// or touch.
pub fn append(ranges: &mut Vec<(Num, Num)>, range: (Num, Num)) -> Result<(), NoMemory>
    requires ordered { range.0 ≤ range.1 }
    requires later { last_start 0 ranges.old.items ≤ range.0 }
    requires ascending { AscendFrom 0 ranges.old.items }
    ensures members { OnOk result ((value : ℕ) → is_member ranges.new.items value
        ≡ (is_member ranges.old.items value || in_range range value)) }
    ensures start { OnOk result (last_start 0 ranges.new.items ≤ range.0) }
    ensures ascending { OnOk result (AscendFrom 0 ranges.new.items) }
{
    let len = ranges.len();
    if len > 0 {
        let last = ranges[len - 1];
        if range.0.saturating_sub(1) <= last.1 {
            ranges[len - 1] = (last.0, last.1.max(range.1));
            return Ok(());
        }
    }
    ranges.push(range)?;
    Ok(())
}

/// Appends ranges that come in the order of their starts.
pub fn append_all(ranges: &mut Vec<(Num, Num)>, more: &[(Num, Num)]) -> Result<(), NoMemory>
    requires later { StartFrom (last_start 0 ranges.old.items) more.now }
    requires ascending { AscendFrom 0 ranges.old.items }
    ensures members { OnOk result (HasExactly ranges.new.items
        (λ value. is_member ranges.old.items value || is_member more.now value)) }
    ensures ascending { OnOk result (AscendFrom 0 ranges.new.items) }
{
    for range in more {
        append(ranges, *range)?;
    }
    Ok(())
}

/// The ranges of the numbers of any of the pairs; no pair is reversed.
pub fn sorted(alloc: Global, list: &[(Num, Num)]) -> Result<Vec<(Num, Num)>, NoMemory>
    requires { All (λ pair. pair.0 ≤ pair.1) list.now }
    ensures members { IfOk result (λ ranges. HasExactly ranges.items (is_member list.now)) }
    ensures ascending { IfOk result (λ ranges. AscendFrom 0 ranges.items) }
{
    let mut pairs = Vec::from_slice(alloc, list)?;
    pairs.sort_unstable_by_key(|pair| pair.0);
    let mut ranges = Vec::new(alloc);
    append_all(&mut ranges, &pairs)?;
    Ok(ranges)
}

/// The ranges of the numbers of either list.
pub fn join(
    alloc: Global,
    left: &[(Num, Num)],
    right: &[(Num, Num)],
) -> Result<Vec<(Num, Num)>, NoMemory>
    requires left_ascending { AscendFrom 0 left.now }
    requires right_ascending { AscendFrom 0 right.now }
    ensures members { IfOk result (λ all. HasExactly all.items
        (λ value. is_member left.now value || is_member right.now value)) }
    ensures ascending { IfOk result (λ all. AscendFrom 0 all.items) }
{
    let mut all = Vec::new(alloc);
    let mut i = 0;
    let mut j = 0;
    while i < left.len() && j < right.len() {
        if left[i].0 <= right[j].0 {
            append(&mut all, left[i])?;
            i += 1;
        } else {
            append(&mut all, right[j])?;
            j += 1;
        }
    }
    let rest = if i < left.len() {
        &left[i..]
    } else {
        &right[j..]
    };
    append_all(&mut all, rest)?;
    Ok(all)
}
