//! Refutations that use no bounds of a case, as refutations without the case.

ghost use Rattle.std.specs.Prelude.{◌≡◌, map, IfOk};
ghost use Rattle.std.specs.List.{AllZip};
ghost use Rattle.difference_solver.specs.Lifting.{is_apart, all_apart, avoids, all_avoid, lowered, IsLowered};

use crate::choice::Step;
use std::alloc::{AllocError, Global};

/// Whether the index is before the first, or from the limit on.
fn is_apart(index: u32, first: usize, limit: usize) -> bool
    ensures { result ≡ is_apart first limit index }
{
    (index as usize) < first || limit <= index as usize
}

fn all_apart(indices: &[u32], first: usize, limit: usize) -> bool
    ensures { result ≡ all_apart first limit indices.now }
{
    for index in indices {
        if !is_apart(*index, first, limit) {
            return false;
        }
    }
    true
}

/// Whether the step is no cycle that uses a bound from the first on that is before the limit.
fn avoids(step: &Step, first: usize, limit: usize) -> bool
    ensures { result ≡ avoids first limit step.now }
{
    match step {
        Step::Split { .. } => true,
        Step::Cycle { bounds } => all_apart(bounds.as_slice(), first, limit),
    }
}

/// Whether no step is a cycle that uses a bound from the first on that is before the limit.
pub(crate) fn all_avoid(steps: &[Step], first: usize, limit: usize) -> bool
    ensures { result ≡ all_avoid first limit steps.now }
{
    for step in steps {
        if !avoids(step, first, limit) {
            return false;
        }
    }
    true
}

fn lowered(index: u32, first: usize, width: usize) -> u32
    ensures { result ≡ lowered first width index }
{
    if (index as usize) < first {
        index
    } else {
        (index as usize).saturating_sub(width) as u32
    }
}

fn all_lowered(
    alloc: Global,
    indices: &[u32],
    first: usize,
    width: usize,
) -> Result<Vec<u32>, AllocError>
    ensures { IfOk result (λ after. after.items ≡ map (lowered first width) indices.now) }
{
    let mut after = Vec::new(alloc);
    for index in indices {
        after.push(lowered(*index, first, width))?;
    }
    Ok(after)
}

fn lowered_step(alloc: Global, step: Step, first: usize, width: usize) -> Result<Step, AllocError>
    ensures { IfOk result (λ after. IsLowered first width step after) }
{
    match step {
        Step::Split { choice } => Ok(Step::Split { choice }),
        Step::Cycle { bounds } => {
            let bounds = all_lowered(alloc, bounds.as_slice(), first, width)?;
            Ok(Step::Cycle { bounds })
        }
    }
}

/// The steps where `width` bounds, from `first` on, are taken away from those that are gathered.
pub(crate) fn lower(
    alloc: Global,
    mut steps: Vec<Step>,
    first: usize,
    width: usize,
) -> Result<Vec<Step>, AllocError>
    ensures { IfOk result (λ after. AllZip (IsLowered first width) steps.items after.items) }
{
    let mut after = Vec::new(alloc);
    while let Some(step) = steps.pop() {
        let next = lowered_step(alloc, step, first, width)?;
        after.push(next)?;
    }
    after.reverse();
    Ok(after)
}
