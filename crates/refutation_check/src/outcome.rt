//! Verdicts on conditions that are not refuted.

ghost use Rattle.std.specs.Prelude.{◌≡◌, IfOk};

use crate::list::Listed;
use sn_width::{NoMemory, Num};
use std::alloc::Global;

/// Why a condition is left undecided.
#[derive(Drop)]
pub enum Cause {
    /// The least values that satisfy every formula that is not outside break the outside formula of this pick.
    Outside { pick: u32, values: Listed<Num> },
    /// There are `count` choices of cases, which is too many.
    Cases { count: u64 },
    /// There are `count` coupled symbols, which is too many.
    Coupled { count: u64 },
}

impl Cause {
    /// An equal cause.
    pub fn copy(&self, alloc: Global) -> Result<Cause, NoMemory>
        ensures { IfOk result (λ copy. copy ≡ self.now) }
    {
        match self {
            Cause::Outside { pick, values } => {
                let values = values.copy(alloc)?;
                Ok(Cause::Outside {
                    pick: *pick,
                    values,
                })
            }
            Cause::Cases { count } => Ok(Cause::Cases { count: *count }),
            Cause::Coupled { count } => Ok(Cause::Coupled { count: *count }),
        }
    }
}

/// What is found of a condition that is not refuted.
#[derive(Drop)]
pub enum Verdict {
    /// These values, one for each symbol, make the condition true.
    Sat { values: Listed<Num> },
    Undecided { cause: Cause },
}
