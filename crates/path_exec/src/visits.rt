//! The arrivals of a run at a port.

ghost use Rattle.std.specs.Prelude.{IfOk, OnOk};
ghost use Rattle.path_exec.specs.Visiting.{ArrivedAs, IsNoted, Visits};

use crate::engine::{Engine, Moved, Next};
use crate::guided::{FollowFault, turn};
use sefl_meaning::{Decision, Place};
use sn_width::{NoMemory, Steps};
use std::alloc::Global;
use std::sync::ledger::Ledger;

/// Runs on to the next decision or the end, and keeps a copy of each place at the port on the way.
fn visit<E: Engine, L: Ledger>(
    alloc: Global,
    engine: &E,
    place: E::Place,
    port: Place,
    found: &mut Vec<E::Place>,
    steps: &mut Steps<L>,
) -> Result<Next<E::Over, E::Node>, NoMemory>
    ensures { IfOk result (Visits (E.views engine.now) port ((E.views engine.now).place_at place) steps.old steps.new
        found.old.items found.new.items) }
{
    let mut now = place;
    loop {
        let moved = engine.onward(alloc, now, steps)?;
        match moved {
            Moved::Arrived { place } => {
                note(engine, &place, port, found)?;
                now = place;
            }
            Moved::Stopped { next } => return Ok(next),
        }
    }
}

/// Keeps a copy of the place, where it stands at the port.
fn note<E: Engine>(
    engine: &E,
    place: &E::Place,
    port: Place,
    found: &mut Vec<E::Place>,
) -> Result<(), NoMemory>
    ensures { OnOk result (IsNoted (E.views engine.now) port place.now found.old.items found.new.items) }
{
    if !engine.stands_at(place, port) {
        return Ok(());
    }
    let copy = engine.fork(place)?;
    found.push(copy)?;
    Ok(())
}

/// A copy of each place at which the run of these decisions arrives at the port, before the port's code, in order.
pub fn arrivals<E: Engine, L: Ledger>(
    alloc: Global,
    engine: &E,
    decisions: &[Decision],
    port: Place,
    steps: &mut Steps<L>,
) -> Result<Vec<E::Place>, FollowFault>
    ensures { ArrivedAs (E.views engine.now) port decisions.now result }
{
    let mut found = Vec::new(alloc);
    let place = engine.begin(alloc)?;
    let mut next = visit(alloc, engine, place, port, &mut found, steps)?;
    let mut at = 0;
    for decision in decisions {
        let Some(place) = turn(alloc, engine, &next, *decision)? else {
            return Err(FollowFault::Impossible { at });
        };
        next = visit(alloc, engine, place, port, &mut found, steps)?;
        at += 1;
    }
    Ok(found)
}
