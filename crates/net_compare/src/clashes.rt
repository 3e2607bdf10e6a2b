//! Paths of one exit whose symbols have other widths.

ghost use Rattle.std.specs.Prelude.{◌↔◌, IfNone, IfSome, IsTrue, map};
ghost use Rattle.std.specs.List.{AllByRecursion};
ghost use Rattle.compare_meaning.specs.Clashes.{Clash, IsFirstClash, NoneClash};
ghost use Rattle.net_compare.specs.Clashing.{IsWithin, TellsFirstWith, numbered_path};
ghost use Rattle.net_compare.specs.Saying.{seen_path};

use crate::delivery::Delivery;
use crate::layout::same_exit;
use crate::widths::{agree, begins};
use path_cond::PathCond;
use sn_width::NoMemory;
use std::alloc::Global;

/// The numbers of the first two of these paths that clash, by the number of the first and then by that of the second.
pub(crate) fn first_clash(paths: &[(u64, &Delivery<'_>)]) -> Option<(u64, u64)>
    ensures none { IfNone result (NoneClash (map numbered_path paths.now)) }
    ensures some { IfSome result (λ c. IsFirstClash (map numbered_path paths.now) c.0 c.1) }
{
    for at in 0..paths.len() {
        if let Some(other) = first_with(paths[at].1, &paths[at + 1..]) {
            return Some((paths[at].0, other));
        }
    }
    None
}

/// The number of the first of these that clashes with the path.
fn first_with(path: &Delivery<'_>, others: &[(u64, &Delivery<'_>)]) -> Option<u64>
    ensures { TellsFirstWith (seen_path path.now) (map numbered_path others.now) result }
{
    for (number, other) in others {
        if clash(path, other) {
            return Some(*number);
        }
    }
    None
}

/// Whether two paths of one exit have symbols of other widths.
fn clash(path: &Delivery<'_>, other: &Delivery<'_>) -> bool
    ensures { IsTrue result ↔ Clash (seen_path path.now) (seen_path other.now) }
{
    same_exit(path, other) && !agree(path.condition, other.condition)
}

/// Whether the widths of the symbols of each of these begin those of a condition. Where they do, none clash.
pub(crate) fn are_within(paths: &[Delivery<'_>], longest: &PathCond) -> bool
    ensures { IsTrue result ↔ AllByRecursion (IsWithin longest.now.widths) (map seen_path paths.now) }
{
    for path in paths {
        if !begins(path.condition, longest) {
            return false;
        }
    }
    true
}
