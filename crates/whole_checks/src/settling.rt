//! How many of the decisions of a record have later ones beside them.

ghost use Rattle.std.specs.Prelude.{◌≡◌, ◌↔◌, ◌≤◌, ◌++◌, ◌∷◌, [], List, IsTrue, IfOk, length, take};
ghost use Rattle.sefl_meaning.specs.Routes.{IsOpen};
ghost use Rattle.record_checks.specs.Stops.{LeadsTo};
ghost use Rattle.record_checks.specs.Trails.{IsTrail, last_stop};
ghost use Rattle.whole_checks.specs.Chains.{IsLast};
ghost use Rattle.whole_checks.specs.Settling.{IsSettled};
ghost use Rattle.sefl_meaning.specs.declared.walk.Decision.{Decision as DecisionOf};
ghost use Rattle.sefl_meaning.specs.declared.walk.Decision.TheVariants.{Copy};

use lin_term::Term;
use record_checks::guide::Guide;
use record_checks::{Trail, lead};
use sefl_meaning::Decision;
use sefl_meaning::laws::routes_compose;
use sn_width::NoMemory;
use std::alloc::Global;
use term_values::Formulas;

/// Whether nothing that is offered beside a decision, which is offered at this stop, comes behind it.
fn is_last<G: Guide>(
    alloc: Global,
    guide: &G,
    stop: &G::Stop,
    decision: Decision,
) -> Result<bool, NoMemory>
    ensures { IfOk result (λ yes. (p : List DecisionOf) → LeadsTo G.start p (G.seen stop.now)
        → IsOpen G.start.tree (p ++ decision ∷ []) → (IsTrue yes ↔ IsLast G.start p decision)) }
{
    routes_compose::<Term, Formulas>();
    match decision {
        Decision::Then => Ok(false),
        Decision::Else => Ok(true),
        Decision::Pass => Ok(false),
        Decision::Broken => Ok(true),
        Decision::Copy(number) => is_last_copy(alloc, guide, stop, number),
    }
}

/// The same of a copy.
fn is_last_copy<G: Guide>(
    alloc: Global,
    guide: &G,
    stop: &G::Stop,
    number: u32,
) -> Result<bool, NoMemory>
    ensures { IfOk result (λ yes. (p : List DecisionOf) → LeadsTo G.start p (G.seen stop.now)
        → (IsTrue yes ↔ IsLast G.start p (Copy number))) }
{
    let Some(next) = number.checked_add(1) else {
        return Err(NoMemory);
    };
    match guide.behind(alloc, stop, Decision::Copy(next))? {
        None => Ok(true),
        Some(_) => Ok(false),
    }
}

/// The stop of a trail behind so many of its steps.
fn stop_at<S: Drop>(trail: &Trail<S>, place: usize) -> &S
    requires { place ≤ length trail.now.steps.items }
    ensures { result.now ≡ last_stop trail.now.first (take place trail.now.steps.items) }
{
    if place == 0 {
        return &trail.first;
    }
    &trail.steps[place - 1].stop
}

/// How many of the decisions of a record have later ones beside them, or stand before one that has.
pub(crate) fn settled<G: Guide>(
    alloc: Global,
    guide: &G,
    trail: &mut Trail<G::Stop>,
    decisions: &[Decision],
) -> Result<usize, NoMemory>
    requires trail { IsTrail G.start G.seen trail.old }
    requires open { IsOpen G.start.tree decisions.now }
    ensures trail { IsTrail G.start G.seen trail.new }
    ensures settled { IfOk result (IsSettled G.start decisions.now) }
{
    routes_compose::<Term, Formulas>();
    let Some((_last, parent)) = decisions.split_last() else {
        return Ok(0);
    };
    if !lead(alloc, guide, trail, parent)? {
        unreachable!()
    }
    let mut count = decisions.len();
    while 0 < count {
        let stop = stop_at(trail, count - 1);
        if !is_last(alloc, guide, stop, decisions[count - 1])? {
            return Ok(count);
        }
        count -= 1;
    }
    Ok(0)
}
