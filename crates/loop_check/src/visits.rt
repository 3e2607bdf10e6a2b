//! The visits of one path, one after another.

ghost use Rattle.std.specs.Prelude.{◌≡◌, ◌<◌, ◌↔◌, IfOk, IsTrue, List, get_or, length, map};
ghost use Rattle.std.specs.List.{AllByRecursion};
ghost use Rattle.sym_state.specs.Symbolic.{held_of};
ghost use Rattle.symbolic_engine.specs.Origins.{condition_seen};
ghost use Rattle.loop_meaning.specs.Answers.{Arrival, IsAnswerOn};
ghost use Rattle.loop_meaning.specs.Visits.{visit_of};
ghost use Rattle.loop_check.specs.Lasting.{AreOfOneStart, IsLast};
ghost use Rattle.loop_check.specs.Seen.{AreSeen};

use crate::last::{Last, differs};
use loop_meaning::{Differ, LoopAnswer};
use sefl_meaning::Place;
use sn_width::NoMemory;
use std::alloc::Global;
use sym_state::SymState;

/// A place in a list of ports, as answers have it.
fn number_of(place: usize) -> Result<u32, NoMemory>
    ensures { IfOk result (λ number. number ≡ place) }
{
    match u32::try_from(place) {
        Ok(number) => Ok(number),
        Err(_) => Err(NoMemory),
    }
}

/// Whether the port at this place is this one.
fn is_at(before: &[Place], place: usize, port: Place) -> bool
    requires { place < length before.now }
    ensures { IsTrue result ↔ (port ≡ get_or before.now place port) }
{
    before[place] == port
}

/// The first visit that does not differ from the last one, or why each differs: of a path that arrives at these ports before the last one,
/// and in these states at the last port.
pub(crate) fn answer_from(
    alloc: Global,
    last: &Last<'_>,
    before: &[Place],
    port: Place,
    visits: &[SymState],
) -> Result<LoopAnswer, NoMemory>
    requires last { IsLast last.now }
    requires start { AllByRecursion (AreOfOneStart last.now.state.now) visits.now }
    ensures { IfOk result (λ answer. (earlier : List Arrival) (end : Arrival)
        → map (λ (a : Arrival). a.0) earlier ≡ before.now → end.0 ≡ port
        → visit_of end.1 ≡ held_of last.now.state.now → AreSeen port earlier visits.now
        → IsAnswerOn (condition_seen last.now.state.now) end earlier answer) }
{
    let mut found = Vec::new(alloc);
    let mut left = visits;
    for place in 0..before.len() {
        if !is_at(before, place, port) {
            continue;
        }
        // It is always there: the states are those of the arrivals at the port.
        let Some((visit, rest)) = left.split_first() else {
            return Err(NoMemory);
        };
        let first = number_of(place)?;
        let Some(why) = differs(alloc, last, visit)? else {
            return Ok(LoopAnswer::Loop { first });
        };
        found.push(Differ { place: first, why })?;
        left = rest;
    }
    Ok(LoopAnswer::Open { differs: found })
}
