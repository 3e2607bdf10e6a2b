//! Lists of pairs that are no ranges of a width.

ghost use Rattle.std.specs.Prelude.{◌≡◌, position};
ghost use Rattle.sn_ranges.specs.Faults.{fault_of, is_reversed, is_past};

use sn_width::{NoMemory, Num, Width};
use thiserror::Error;

/// Why a list of pairs is no set of values of a width.
#[derive(Clone, Copy, Debug, PartialEq, Eq, Error)]
pub enum RangeFault {
    /// The first number of the pair at `index` is greater than its second.
    #[error("pair {index} is reversed")]
    Reversed { index: u64 },
    /// The second number of the pair at `index` is greater than the width's max.
    #[error("pair {index} is past the width's max")]
    TooWide { index: u64 },
    #[error("out of memory")]
    NoMemory,
}

impl From<NoMemory> for RangeFault {
    ghost use Rattle.std.specs.Prelude.{◌≡◌};
    ghost use Rattle.sn_ranges.specs.declared.fault.RangeFault.TheVariants.{NoMemory as OutOfMemory};

    ghost from_gives = { λ _ fault. fault ≡ OutOfMemory };

    fn from(_error: NoMemory) -> RangeFault {
        RangeFault::NoMemory
    }
}

/// What is wrong with the pairs as ranges of the width: the first reversed pair, else the first
/// that is past the max.
pub fn find_fault(width: Width, pairs: &[(Num, Num)]) -> Option<RangeFault>
    ensures { result ≡ fault_of width pairs.now }
{
    if let Some(index) = first_reversed(pairs) {
        let index = index as u64;
        return Some(RangeFault::Reversed { index });
    }
    let index = first_past(pairs, width.max())? as u64;
    Some(RangeFault::TooWide { index })
}

fn first_reversed(pairs: &[(Num, Num)]) -> Option<usize>
    ensures { result ≡ position is_reversed pairs.now }
{
    pairs.iter().position(|pair| pair.1 < pair.0)
}

fn first_past(pairs: &[(Num, Num)], max: Num) -> Option<usize>
    ensures { result ≡ position (is_past max) pairs.now }
{
    pairs.iter().position(|pair| max < pair.1)
}
