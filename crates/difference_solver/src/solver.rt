ghost use Rattle.std.specs.Prelude.{◌≡◌, ℕ, ◌^◌, ◌<◌, ◌≤◌, ◌↔◌, All, None, length, IfOk, IfNone, IfSome};
ghost use Rattle.difference_solver.specs.Table.{entry};
ghost use Rattle.difference_solver.specs.Bound.{IsInRange, IsSolution, IsUnsolvable, HasLowerBounds, IsLeast};
ghost use Rattle.difference_solver.specs.Cycle.{IsNegativeCycle};
ghost use Rattle.difference_solver.specs.Given.{IsBelowItself, KeepsFirst};
ghost use Rattle.difference_solver.specs.Verdict.{IfValues, IfCycle, IsCycle};

use crate::bound::{Bound, DiffVerdict};
use crate::eliminate::eliminate_all;
use crate::gather::gather_cycle;
use crate::table::{Kept, Source, Table};
use crate::values::find_values;
use sn_width::NoMemory;
use std::alloc::Global;

/// One integer for each unknown from 0 to `count` that meet all bounds together, or bounds around a
/// cycle that no integers meet. Where each unknown has a bound from below, the integers are the
/// least.
pub fn solve(alloc: Global, bounds: &[Bound], count: u32) -> Result<DiffVerdict, NoMemory>
    requires unknowns { count ≤ 64 }
    requires few { length bounds.now < 2 ^ 32 }
    requires in_range { All (IsInRange count) bounds.now }

    ensures solution { IfOk result (λ verdict. IfValues verdict (IsSolution count bounds.now)) }
    ensures least { IfOk result (λ verdict.
        IfValues verdict (λ v. HasLowerBounds count bounds.now → IsLeast count bounds.now v)) }
    ensures cycle { IfOk result (λ verdict. IfCycle verdict (IsNegativeCycle bounds.now)) }
    ensures unsolvable { IfOk result (λ verdict. IsCycle verdict ↔ IsUnsolvable count bounds.now) }
{
    let mut table = Table::new(alloc, count)?;
    if let Some(index) = keep_bounds(&mut table, bounds) {
        return Ok(DiffVerdict::Cycle {
            bounds: vec![in alloc; index]?,
        });
    }
    match eliminate_all(&mut table) {
        Some(around) => Ok(DiffVerdict::Cycle {
            bounds: gather_cycle(alloc, &table, around)?,
        }),
        None => Ok(DiffVerdict::Values {
            values: find_values(alloc, &table)?,
        }),
    }
}

/// Keeps the least of the bounds on each pair of unknowns. Stops at the first bound on an unknown
/// less itself that is below zero.
fn keep_bounds(table: &mut Table, bounds: &[Bound]) -> Option<u32>
    requires few { length bounds.now < 2 ^ 32 }
    requires in_range { All (IsInRange table.old.count) bounds.now }
    requires empty { (p q : ℕ) → entry table.old p q ≡ None }
    ensures count { table.new.count ≡ table.old.count }
    ensures kept { IfNone result (KeepsFirst bounds.now (length bounds.now) table.new) }
    ensures negative { IfSome result (IsBelowItself bounds.now) }
{
    for (index, bound) in bounds.iter().enumerate() {
        let source = Source::Given {
            index: index as u32,
        };
        if bound.plus != bound.minus {
            table.keep(
                bound.plus,
                bound.minus,
                Kept {
                    at_most: bound.at_most,
                    source,
                },
            );
        } else if bound.at_most < 0 {
            return Some(index as u32);
        }
    }
    None
}
