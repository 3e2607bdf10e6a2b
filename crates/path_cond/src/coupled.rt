//! The symbols that occur in the inside formulas of a condition.

ghost use Rattle.std.specs.Prelude.{◌≡◌, IfOk, length};
ghost use Rattle.path_cond.specs.Coupled.{coupled_symbols};

use crate::PathCond;
use sn_width::{NoMemory, SymId};
use std::alloc::Global;

/// The number of formulas of the condition: each has a pick below it.
pub fn formula_count(cond: &PathCond) -> Result<u32, NoMemory>
    ensures { IfOk result (λ count. count ≡ length cond.now.entries) }
{
    match u32::try_from(cond.len()) {
        Ok(count) => Ok(count),
        Err(_) => Err(NoMemory),
    }
}

/// The symbols that occur in inside formulas of the condition, in comparisons and memberships that are not constant;
/// ascending. The condition keeps them.
pub fn coupled_symbols(alloc: Global, cond: &PathCond) -> Result<Vec<SymId>, NoMemory>
    ensures { IfOk result (λ symbols. symbols.items ≡ coupled_symbols cond.now) }
{
    cond.coupled_symbols(alloc)
}
