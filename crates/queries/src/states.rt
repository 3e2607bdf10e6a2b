//! The states of a path that questions speak of.

ghost use Rattle.std.specs.Prelude.{◌≡◌, ◌∷◌, [], true, IfOk, option_map};
ghost use Rattle.net_check.specs.Sound.{AreOfOneJob};
ghost use Rattle.path_questions.specs.Deciding.{entry_of, net_of};
ghost use Rattle.queries.specs.Paths.{ArriveAt, ComesLast, IsBare, IsPathRun, StaysAt, delivered_at, end_of, has_place, noted_at, state_at_end};

use cell_values::code_of;
use lin_term::Term;
use path_exec::FollowFault;
use path_questions::Subject;
use sefl_meaning::laws::the_first_closed_decision_is_one;
use sefl_meaning::{Decision, End, Place};
use sn_width::NoMemory;
use std::alloc::Global;
use sym_state::SymState;
use symbolic_engine::{Waits, arrivals};
use term_values::Formulas;

/// A path: its decisions, its state at the end, how it ends, and the ports that it arrives at.
pub(crate) struct PathRun<'a> {
    pub(crate) decisions: &'a [Decision],
    pub(crate) state: SymState,
    pub(crate) how: End,
    pub(crate) places: Vec<Place>,
}

// Written out, and not derived, so that the proof of a function that lets a path go sees a call.
impl Drop for PathRun<'_> {
    fn drop(self) {
        let PathRun {
            decisions: _,
            state,
            how,
            places,
        } = self;
        drop(state);
        drop(how);
        drop(places);
    }
}

/// A port, with the states in which a path arrives there.
#[derive(Drop)]
pub(crate) struct Stop {
    pub(crate) place: Place,
    pub(crate) states: Vec<SymState>,
}

/// Whether the port is one of these.
pub(crate) fn comes_to(places: &[Place], place: Place) -> bool
    ensures { result ≡ has_place place places.now }
{
    for port in places {
        if *port == place {
            return true;
        }
    }
    false
}

/// Whether a path comes to the port once, and last of all.
fn comes_last(places: &[Place], place: Place) -> bool
    ensures { result ≡ true → ComesLast place places.now }
{
    match places.split_last() {
        None => false,
        Some((last, before)) => *last == place && !comes_to(before, place),
    }
}

/// Whether the port has no code, so that what comes there is carried on as it is.
fn is_bare(subject: &Subject<'_>, place: Place) -> bool
    ensures { result ≡ true → IsBare (net_of subject.now) place }
{
    code_of(subject.net, place.node, place.side, place.port).is_empty()
}

/// Whether a path comes to the port once, last of all, and meets no code there: then it ends there as it arrives.
fn stays_at(subject: &Subject<'_>, run: &PathRun<'_>, place: Place) -> bool
    ensures { result ≡ true → StaysAt (net_of subject.now) place run.now.places.items }
{
    if !comes_last(&run.places, place) {
        return false;
    }
    is_bare(subject, place)
}

/// The state of a path at its end.
fn own_state(alloc: Global, run: &PathRun<'_>) -> Result<Vec<SymState>, NoMemory>
    ensures { IfOk result (λ states. states.items ≡ run.now.state ∷ []) }
{
    let mut states = Vec::new(alloc);
    states.push(run.state.fork()?)?;
    Ok(states)
}

/// The states on each arrival of a path at a port. Where it ends there as it arrives, that is its state at the end; else its run is followed
/// for them.
pub(crate) fn states_at(
    alloc: Global,
    subject: &Subject<'_>,
    run: &PathRun<'_>,
    place: Place,
) -> Result<Vec<SymState>, NoMemory>
    requires job { AreOfOneJob (net_of subject.now) (entry_of subject.now) }
    requires path { IsPathRun (net_of subject.now) (entry_of subject.now) subject.now.hops run.now }
    ensures { IfOk result (λ states. ArriveAt (net_of subject.now) (entry_of subject.now) subject.now.hops place
        run.now.decisions.now states.items) }
{
    if !comes_to(&run.places, place) {
        return Ok(Vec::new(alloc));
    }
    if stays_at(subject, run, place) {
        return own_state(alloc, run);
    }
    followed_to(alloc, subject, run, place)
}

/// The states on each arrival of a path at a port, which its run is followed for from the beginning.
fn followed_to(
    alloc: Global,
    subject: &Subject<'_>,
    run: &PathRun<'_>,
    place: Place,
) -> Result<Vec<SymState>, NoMemory>
    requires job { AreOfOneJob (net_of subject.now) (entry_of subject.now) }
    requires path { IsPathRun (net_of subject.now) (entry_of subject.now) subject.now.hops run.now }
    ensures { IfOk result (λ states. ArriveAt (net_of subject.now) (entry_of subject.now) subject.now.hops place
        run.now.decisions.now states.items) }
{
    the_first_closed_decision_is_one::<Term, Formulas>();
    match arrivals(
        alloc,
        subject.net,
        subject.injection,
        subject.hops,
        run.decisions,
        place,
    ) {
        Ok(states) => Ok(states),
        Err(FollowFault::Impossible { .. }) => unreachable!(),
        Err(FollowFault::NoMemory) => Err(NoMemory),
    }
}

/// The states at the first of the stops at this port.
pub(crate) fn noted_at(stops: &[Stop], place: Place) -> Option<&[SymState]>
    ensures { option_map (λ states. states.now) result ≡ noted_at place stops.now }
{
    for stop in stops {
        if stop.place == place {
            return Some(&stop.states);
        }
    }
    None
}

/// Whether a path is delivered at a port.
fn is_delivered_at(run: &PathRun<'_>, place: Place) -> bool
    ensures { result ≡ delivered_at run.now.how place run.now.places.items }
{
    match &run.how {
        End::Delivered => match run.places.last() {
            None => false,
            Some(last) => {
                if *last == place {
                    return true;
                }
                false
            }
        },
        End::Stopped | End::Failed { .. } | End::Cut => false,
    }
}

/// The state of a path at its end, where it is delivered at a port.
pub(crate) fn state_at_end(
    alloc: Global,
    run: &PathRun<'_>,
    place: Place,
) -> Result<Vec<SymState>, NoMemory>
    ensures { IfOk result (λ states. states.items ≡ state_at_end run.now place) }
{
    if is_delivered_at(run, place) {
        return own_state(alloc, run);
    }
    Ok(Vec::new(alloc))
}

/// How a run is over, where nothing waits.
pub(crate) fn end_of(waits: Waits) -> Option<End>
    ensures { result ≡ end_of waits }
{
    match waits {
        Waits::Nothing { how } => Some(how),
        Waits::Decides { .. } => None,
    }
}
