//! The run that decisions guide.

ghost use Rattle.std.specs.Prelude.{◌≡◌, IfOk};
ghost use Rattle.exact_records.specs.Points.{IsAt};
ghost use Rattle.path_exec.specs.Location.{behind_last};
ghost use Rattle.path_exec.specs.Offers.{is_offered};
ghost use Rattle.path_exec.specs.Following.{Followed, IsKind, LeadsTo, Turns};

use crate::engine::{Engine, Next, Offer};
use crate::running::advance;
use sefl_meaning::Decision;
use sn_width::{NoMemory, Steps};
use std::alloc::Global;
use std::sync::ledger::Ledger;

/// Why decisions are not followed to their end.
#[derive(Clone, Copy)]
pub enum FollowFault {
    /// The first decision that is not offered.
    Impossible { at: usize },
    NoMemory,
}

impl From<NoMemory> for FollowFault {
    ghost use Rattle.std.specs.Prelude.{◌≡◌};
    ghost use Rattle.path_exec.specs.declared.guided.FollowFault.TheVariants.{NoMemory as OutOfMemory};

    ghost from_gives = { λ _ fault. fault ≡ OutOfMemory };

    fn from(_error: NoMemory) -> FollowFault {
        FollowFault::NoMemory
    }
}

/// Whether the instruction offers the decision.
fn is_offered(offer: Offer, decision: Decision) -> bool
    ensures { result ≡ is_offered offer decision }
{
    match (offer, decision) {
        (Offer::If, Decision::Then) => true,
        (Offer::If, Decision::Else) => true,
        (Offer::Constrain, Decision::Pass) => true,
        (Offer::Constrain, Decision::Broken) => true,
        (Offer::Fork { copies }, Decision::Copy(number)) => number < copies,
        _ => false,
    }
}

/// The place behind a decision; None where it is not offered.
pub(crate) fn turn<E: Engine>(
    alloc: Global,
    engine: &E,
    next: &Next<E::Over, E::Node>,
    decision: Decision,
) -> Result<Option<E::Place>, NoMemory>
    requires { IsKind (E.views engine.now) next.now }
    ensures { IfOk result (Turns (E.views engine.now) next.now decision) }
{
    match next {
        Next::AtEnd { over: _ } => Ok(None),
        Next::AtNode { node, offer } => {
            if !is_offered(*offer, decision) {
                return Ok(None);
            }
            let place = engine.take(alloc, node, decision)?;
            Ok(Some(place))
        }
    }
}

/// Where the run comes to from a place.
pub(crate) fn arrived<E: Engine, L: Ledger>(
    alloc: Global,
    engine: &E,
    place: E::Place,
    steps: &mut Steps<L>,
) -> Result<Next<E::Over, E::Node>, NoMemory>
    requires { IsAt (E.views engine.now).start (behind_last (E.views engine.now).start
        ((E.views engine.now).place_at place)) }
    ensures { IfOk result (LeadsTo (E.views engine.now) ((E.views engine.now).place_at place).decisions) }
{
    advance(alloc, engine, place, steps)
}

/// Where these decisions lead: the end, or the instruction that waits for the next one.
pub fn follow<E: Engine, L: Ledger>(
    alloc: Global,
    engine: &E,
    decisions: &[Decision],
    steps: &mut Steps<L>,
) -> Result<Next<E::Over, E::Node>, FollowFault>
    ensures { Followed (E.views engine.now) decisions.now result }
{
    let place = engine.begin(alloc)?;
    let mut next = arrived(alloc, engine, place, steps)?;
    let mut at = 0;
    for decision in decisions {
        let Some(place) = turn(alloc, engine, &next, *decision)? else {
            return Err(FollowFault::Impossible { at });
        };
        next = arrived(alloc, engine, place, steps)?;
        at += 1;
    }
    Ok(next)
}
