//! The stops of a guided run. Runs of records that follow one another share their first stops.

ghost use Rattle.std.specs.Prelude.{◌≡◌, ◌≤◌, IfOk, length, take};
ghost use Rattle.sefl_meaning.specs.Order.{BeginsWith};
ghost use Rattle.record_checks.specs.Trails.{IsLedAlong, IsTrail, taken, top_of};

use crate::guide::Guide;
use lin_term::Term;
use sefl_meaning::Decision;
use sefl_meaning::laws::routes_compose;
use sn_width::NoMemory;
use std::alloc::Global;
use term_values::Formulas;

/// A decision, and the stop behind it.
#[derive(Drop)]
pub struct Step<S: Drop> {
    pub decision: Decision,
    pub stop: S,
}

/// The first stop, and those behind each decision that was taken.
#[derive(Drop)]
pub struct Trail<S: Drop> {
    pub first: S,
    pub steps: Vec<Step<S>>,
}

/// The trail that has taken no decision.
pub fn begin<G: Guide>(alloc: Global, guide: &G) -> Result<Trail<G::Stop>, NoMemory>
    ensures { IfOk result (IsTrail G.start G.seen) }
{
    let first = guide.first(alloc)?;
    let steps = Vec::new(alloc);
    Ok(Trail { first, steps })
}

/// The stop to which the trail leads.
pub(crate) fn top<S: Drop>(trail: &Trail<S>) -> &S
    ensures { result.now ≡ top_of trail.now }
{
    match trail.steps.last() {
        None => &trail.first,
        Some(step) => &step.stop,
    }
}

/// How many of the steps, from the first on, take these decisions.
fn shared<S: Drop>(steps: &[Step<S>], decisions: &[Decision]) -> usize
    ensures few { result ≤ length steps.now }
    ensures shared { BeginsWith (taken (take result steps.now)) decisions.now }
{
    let mut count = 0;
    for step in steps {
        if count == decisions.len() || step.decision != decisions[count] {
            return count;
        }
        count += 1;
    }
    count
}

/// Leads the run along these decisions, from where they part from those of the trail. Whether all of them are offered.
pub fn lead<G: Guide>(
    alloc: Global,
    guide: &G,
    trail: &mut Trail<G::Stop>,
    decisions: &[Decision],
) -> Result<bool, NoMemory>
    requires { IsTrail G.start G.seen trail.old }
    ensures trail { IsTrail G.start G.seen trail.new }
    ensures led { IfOk result (IsLedAlong G.start G.seen decisions.now trail.new) }
{
    routes_compose::<Term, Formulas>();
    let kept = shared(&trail.steps, decisions);
    trail.steps.truncate(kept);
    for at in kept..decisions.len() {
        let decision = decisions[at];
        let Some(stop) = guide.behind(alloc, top(trail), decision)? else {
            return Ok(false);
        };
        trail.steps.push(Step { decision, stop })?;
    }
    Ok(true)
}
