//! Sets of addresses as their least ranges.

ghost use Rattle.std.specs.Prelude.{◌≡◌, ℕ, ◌<◌, ◌≤◌, ◌^◌, All, IfOk};
ghost use Rattle.sn_ranges.specs.Ranges.{IsSetOf, is_member};
ghost use Rattle.table_nodes.specs.Exits.{lies_in};
ghost use Rattle.table_nodes.specs.TableNodes.{bits_of};

use crate::destination::bits_of;
use sefl_syntax::TableKind;
use sn_ranges::laws::faultless_where_all_fit;
use sn_ranges::{RangeFault, Ranges};
use sn_width::{NoMemory, Num};
use std::alloc::Global;

/// The set of the addresses in any of the pairs.
pub fn address_set(alloc: Global, kind: TableKind, list: &[(Num, Num)]) -> Result<Ranges, NoMemory>
    requires { All (λ pair. (pair.0 ≤ pair.1) × (pair.1 < 2 ^ bits_of kind)) list.now }
    ensures { IfOk result (IsSetOf (bits_of kind) (λ a. lies_in a list.now)) }
{
    faultless_where_all_fit();
    match Ranges::from_list(alloc, bits_of(kind), list) {
        Ok(set) => Ok(set),
        Err(RangeFault::NoMemory) => Err(NoMemory),
        Err(RangeFault::Reversed { .. }) => unreachable!(),
        Err(RangeFault::TooWide { .. }) => unreachable!(),
    }
}

/// The ranges of a set.
pub fn ranges_of(alloc: Global, set: &Ranges) -> Result<Vec<(Num, Num)>, NoMemory>
    ensures pairs { IfOk result (λ ranges. ranges.items ≡ set.now.pairs) }
    ensures members { IfOk result (λ ranges. (a : ℕ) → lies_in a ranges.items ≡ is_member set.now.pairs a) }
{
    pairs_of(alloc, set)
}

fn pairs_of(alloc: Global, set: &Ranges) -> Result<Vec<(Num, Num)>, NoMemory>
    ensures { IfOk result (λ pairs. pairs.items ≡ set.now.pairs) }
{
    let mut pairs = Vec::new(alloc);
    let mut index = 0;
    while let Some(range) = set.range(index) {
        pairs.push(range)?;
        index += 1;
    }
    Ok(pairs)
}
