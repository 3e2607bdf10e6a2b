//! The run to the next decision.

ghost use Rattle.std.specs.Prelude.{IfOk};
ghost use Rattle.path_exec.specs.Moves.{Advances};

use crate::engine::{Engine, Moved, Next};
use sn_width::{NoMemory, Steps};
use std::alloc::Global;
use std::sync::ledger::Ledger;

/// Runs to the next decision or the end, over all ports on the way.
pub fn advance<E: Engine, L: Ledger>(
    alloc: Global,
    engine: &E,
    place: E::Place,
    steps: &mut Steps<L>,
) -> Result<Next<E::Over, E::Node>, NoMemory>
    ensures { IfOk result (Advances (E.views engine.now) ((E.views engine.now).place_at place) steps.old steps.new) }
{
    let mut now = place;
    loop {
        let moved = engine.onward(alloc, now, steps)?;
        match moved {
            Moved::Arrived { place } => now = place,
            Moved::Stopped { next } => return Ok(next),
        }
    }
}
