//! The steps of a search as those of a refutation.

ghost use Rattle.std.specs.Prelude.{◌≡◌, map, IfOk};
ghost use Rattle.path_solver.specs.Origins.{refute_from};

use difference_solver::Step;
use refutation_check::{Listed, Refutation, Refute};
use sn_width::NoMemory;
use std::alloc::Global;

fn refute_from(alloc: Global, origins: &[Refute], step: Step) -> Result<Refute, NoMemory>
    ensures { IfOk result (λ refute. refute ≡ refute_from origins.now step) }
{
    match step {
        Step::Split { choice } => match origins.get(choice as usize) {
            Some(origin) => origin.copy(alloc),
            None => Ok(Refute::Split {
                pick: 0,
                way: Listed::from_vec(Vec::new(alloc)),
            }),
        },
        Step::Cycle { bounds } => Ok(Refute::Cycle {
            bounds: Listed::from_vec(bounds),
        }),
    }
}

/// The refutation with a step for each of the search, whose choices are split by these.
pub(crate) fn refutation_of(
    alloc: Global,
    origins: &[Refute],
    mut steps: Vec<Step>,
) -> Result<Refutation, NoMemory>
    ensures { IfOk result (λ refutation. refutation ≡ map (refute_from origins.now) steps.items) }
{
    let mut refutes = Vec::new(alloc);
    while let Some(step) = steps.pop() {
        refutes.push(refute_from(alloc, origins, step)?)?;
    }
    refutes.reverse();
    Ok(Listed::from_vec(refutes))
}
