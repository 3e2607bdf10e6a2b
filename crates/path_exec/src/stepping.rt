//! Guided runs that go on by one decision, from where they wait.

ghost use Rattle.std.specs.Prelude.{◌≡◌, ◌++◌, ◌∷◌, [], IfOk};
ghost use Rattle.path_exec.specs.Following.{IsKind, LeadsTo, location_of};
ghost use Rattle.path_exec.specs.Stepping.{IsLedThere, LeadsOn, SideBehind, is_side};

use crate::engine::{Engine, Next, Offer};
use crate::guided::{arrived, turn};
use lin_term::Term;
use sefl_meaning::Decision;
use sefl_meaning::laws::routes_compose;
use sn_width::{NoMemory, Steps};
use std::alloc::Global;
use std::sync::ledger::Ledger;
use term_values::Formulas;

/// Where the run leads before any decision.
pub fn first_next<E: Engine, L: Ledger>(
    alloc: Global,
    engine: &E,
    steps: &mut Steps<L>,
) -> Result<Next<E::Over, E::Node>, NoMemory>
    ensures { IfOk result (LeadsTo (E.views engine.now) []) }
{
    let place = engine.begin(alloc)?;
    arrived(alloc, engine, place, steps)
}

/// Where one decision more leads; None exactly where it is not offered.
pub fn next_behind<E: Engine, L: Ledger>(
    alloc: Global,
    engine: &E,
    next: &Next<E::Over, E::Node>,
    decision: Decision,
    steps: &mut Steps<L>,
) -> Result<Option<Next<E::Over, E::Node>>, NoMemory>
    requires { IsLedThere (E.views engine.now) next.now }
    ensures { IfOk result (LeadsOn (E.views engine.now)
        ((location_of (E.views engine.now) next.now).decisions ++ decision ∷ [])) }
{
    routes_compose::<Term, Formulas>();
    let Some(place) = turn(alloc, engine, next, decision)? else {
        return Ok(None);
    };
    let behind = arrived(alloc, engine, place, steps)?;
    Ok(Some(behind))
}

/// Whether the instruction is an If or a Constrain that offers the decision.
fn is_side(offer: Offer, decision: Decision) -> bool
    ensures { result ≡ is_side offer decision }
{
    match (offer, decision) {
        (Offer::If, Decision::Then) => true,
        (Offer::If, Decision::Else) => true,
        (Offer::Constrain, Decision::Pass) => true,
        (Offer::Constrain, Decision::Broken) => true,
        _ => false,
    }
}

/// The place behind a decision of an If or of a Constrain, before the run goes on; None exactly where no such instruction
/// offers it.
pub fn side_behind<E: Engine>(
    alloc: Global,
    engine: &E,
    next: &Next<E::Over, E::Node>,
    decision: Decision,
) -> Result<Option<E::Place>, NoMemory>
    requires { IsKind (E.views engine.now) next.now }
    ensures { IfOk result (SideBehind (E.views engine.now) next.now decision) }
{
    match next {
        Next::AtEnd { over: _ } => Ok(None),
        Next::AtNode { node, offer } => {
            if !is_side(*offer, decision) {
                return Ok(None);
            }
            let place = engine.take(alloc, node, decision)?;
            Ok(Some(place))
        }
    }
}
