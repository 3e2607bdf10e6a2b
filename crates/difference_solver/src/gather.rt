ghost use Rattle.std.specs.Prelude.{List, Some, IfOk};
ghost use Rattle.difference_solver.specs.declared.bound.Bound.{Bound};
ghost use Rattle.difference_solver.specs.Elimination.{HasSources, HasSums, IsLoop};
ghost use Rattle.difference_solver.specs.Cycle.{IsNegativeCycle};

use crate::eliminate::Loop;
use crate::table::{Source, Table};
use std::alloc::{AllocError, Global};

/// The two unknowns of a bound that is kept.
#[derive(Clone, Copy)]
pub struct Pair {
    pub plus: u32,
    pub minus: u32,
}

/// The given bounds, by their indices, that were added to the two around a loop: each sum is
/// replaced by the two bounds that it is the sum of.
pub fn gather_cycle(alloc: Global, table: &Table, around: Loop) -> Result<Vec<u32>, AllocError>
    requires negative { IsLoop around.through around.unknown table.now }
    requires sums { HasSums table.now }
    ensures { IfOk result (λ c.
        (bounds : List Bound) → HasSources bounds 0 table.now → IsNegativeCycle bounds c.items) }
{
    let upper = Pair {
        plus: around.unknown,
        minus: around.through,
    };
    let lower = Pair {
        plus: around.through,
        minus: around.unknown,
    };
    let mut pairs = vec![in alloc; lower, upper]?;
    let mut indices = Vec::new(alloc);
    while let Some(pair) = pairs.pop() {
        match table.source(pair.plus, pair.minus) {
            Source::Given { index } => indices.push(index)?,
            Source::Sum { through } => {
                pairs.push(Pair {
                    plus: through,
                    minus: pair.minus,
                })?;
                pairs.push(Pair {
                    plus: pair.plus,
                    minus: through,
                })?;
            }
        }
    }
    Ok(indices)
}
