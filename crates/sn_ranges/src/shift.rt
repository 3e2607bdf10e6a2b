//! The numbers of a list of ranges, each raised by a constant modulo two to a width.

ghost use Rattle.std.specs.Prelude.{◌+◌, ◌-◌, ◌^◌, ◌<◌, ◌≤◌, ◌&&◌, ◌||◌, nat_le, IfOk, OnOk};
ghost use Rattle.sn_ranges.specs.Ranges.{is_member, HasExactly, AscendFrom, last_start};

use crate::merge::append;
use sn_width::{NoMemory, Num};
use std::alloc::Global;

/// The ranges of the numbers above `room`, each less `room + 1`.
pub fn wrap(alloc: Global, ranges: &[(Num, Num)], room: Num) -> Result<Vec<(Num, Num)>, NoMemory>
    requires { AscendFrom 0 ranges.now }
    ensures members { IfOk result (λ wrapped. HasExactly wrapped.items
        (λ value. is_member ranges.now (value + (room + 1)))) }
    ensures ascending { IfOk result (λ wrapped. AscendFrom 0 wrapped.items) }
{
    let mut wrapped = Vec::new(alloc);
    for range in ranges {
        if range.1 > room {
            let start = room + 1;
            append(
                &mut wrapped,
                (range.0.saturating_sub(start), range.1 - start),
            )?;
        }
    }
    Ok(wrapped)
}

/// Appends the ranges of the numbers up to `room`, each raised by `by`.
pub fn append_raised(
    shifted: &mut Vec<(Num, Num)>,
    ranges: &[(Num, Num)],
    room: Num,
    by: Num,
) -> Result<(), NoMemory>
    requires fits { room + by < 2 ^ 128 }
    requires below { last_start 0 shifted.old.items ≤ by }
    requires shifted_ascending { AscendFrom 0 shifted.old.items }
    requires ascending { AscendFrom 0 ranges.now }
    ensures members { OnOk result (HasExactly shifted.new.items (λ value. is_member shifted.old.items value
        || (nat_le by value && (nat_le value (room + by) && is_member ranges.now (value - by))))) }
    ensures ascending { OnOk result (AscendFrom 0 shifted.new.items) }
{
    for range in ranges {
        if range.0 <= room {
            append(shifted, (range.0 + by, range.1.min(room) + by))?;
        }
    }
    Ok(())
}
