//! Records, as questions see them.

ghost use Rattle.std.specs.Prelude.{◌≡◌, IfOk, IfSome, length};
ghost use Rattle.net_check.specs.Sound.{AreOfOneJob};
ghost use Rattle.exact_records.specs.View.{record_tree};
ghost use Rattle.path_questions.specs.Asked.{look_of, question_seen};
ghost use Rattle.path_questions.specs.Deciding.{entry_of, net_of};
ghost use Rattle.path_questions.specs.declared.looking.Look.TheVariants.{OnArrivals};
ghost use Rattle.path_exec.specs.Handing.{handed};
ghost use Rattle.symbolic_engine.specs.Exploring.{IsHandedBy};
ghost use Rattle.symbolic_engine.specs.Finds.{found_tree};
ghost use Rattle.queries.specs.Paths.{AreNoted, IsPathRun, LeadsSo, SeesPath, led_over};
ghost use Rattle.queries.specs.Judged.{IsPathSeen, IsSeenOf, IsWellSeen};

use crate::states::{PathRun, Stop, comes_to, end_of, noted_at, states_at};
use lin_term::Term;
use path_exec::FollowFault;
use path_questions::{Kept, Look, Question, Subject, look_of};
use path_records::Record;
use sefl_meaning::laws::the_first_closed_decision_is_one;
use sefl_meaning::{Decision, End, Place};
use sn_width::NoMemory;
use std::alloc::Global;
use sym_state::SymState;
use symbolic_engine::{Found, Led, follow};
use term_values::Formulas;

/// A record, with what questions ask of it.
pub(crate) enum Seen<'a> {
    /// A path, with its arrivals at some ports.
    Path { run: PathRun<'a>, stops: Vec<Stop> },
    /// It was not tried.
    Untried,
    /// It rules every question out.
    Nothing,
}

// Written out, and not derived, so that the proof of a function that lets one go sees a call.
impl Drop for Seen<'_> {
    fn drop(self) {
        match self {
            Seen::Path { run, stops } => {
                drop(run);
                drop(stops);
            }
            Seen::Untried => {}
            Seen::Nothing => {}
        }
    }
}

/// The port on whose arrivals the question looks, where it has no hit yet and the path's arrivals there are still to be noted.
fn wanted(question: &Question<'_>, known: &Kept, run: &PathRun<'_>, stops: &[Stop]) -> Option<Place>
    ensures { IfSome result (λ place. look_of (question_seen question.now) ≡ OnArrivals place) }
{
    if known.is_found() {
        return None;
    }
    let Look::OnArrivals { place } = look_of(question) else {
        return None;
    };
    if noted_at(stops, place).is_some() || !comes_to(&run.places, place) {
        return None;
    }
    Some(place)
}

/// The arrivals of a path at the ports where questions look that have no hit yet.
#[tactic(auto, using(crate::proofs::KeptLemmas::all_more))]
fn stops_of(
    alloc: Global,
    subject: &Subject<'_>,
    questions: &[Question<'_>],
    kept: &[Kept],
    run: &PathRun<'_>,
) -> Result<Vec<Stop>, NoMemory>
    requires one_each { length questions.now ≡ length kept.now }
    requires job { AreOfOneJob (net_of subject.now) (entry_of subject.now) }
    requires path { IsPathRun (net_of subject.now) (entry_of subject.now) subject.now.hops run.now }
    ensures { IfOk result (λ stops. AreNoted (net_of subject.now) (entry_of subject.now) subject.now.hops
        run.now.decisions.now stops.items) }
{
    let mut stops = Vec::new(alloc);
    for i in 0..questions.len() {
        if let Some(place) = wanted(&questions[i], &kept[i], run, &stops) {
            let states = states_at(alloc, subject, run, place)?;
            stops.push(Stop { place, states })?;
        }
    }
    Ok(stops)
}

/// The path of these decisions, which lead to this state, where the run is over.
fn run_of<'a>(
    alloc: Global,
    subject: &Subject<'_>,
    decisions: &'a [Decision],
    state: SymState,
    how: End,
) -> Result<PathRun<'a>, NoMemory>
    requires { LeadsSo (net_of subject.now) (entry_of subject.now) subject.now.hops decisions.now (led_over state how) }
    ensures path { IfOk result (IsPathRun (net_of subject.now) (entry_of subject.now) subject.now.hops) }
    ensures decisions { IfOk result (λ run. run.decisions.now ≡ decisions.now) }
{
    match state.places(alloc) {
        Ok(places) => Ok(PathRun {
            decisions,
            state,
            how,
            places,
        }),
        Err(error) => {
            drop(state);
            drop(how);
            Err(error)
        }
    }
}

/// The path that decisions lead along, where it is one.
fn path_of<'a>(
    alloc: Global,
    subject: &Subject<'_>,
    decisions: &'a [Decision],
    led: Led,
) -> Result<Option<PathRun<'a>>, NoMemory>
    requires { LeadsSo (net_of subject.now) (entry_of subject.now) subject.now.hops decisions.now led }
    ensures { IfOk result (SeesPath (net_of subject.now) (entry_of subject.now) subject.now.hops decisions.now) }
{
    let Led { state, waits } = led;
    let Some(how) = end_of(waits) else {
        drop(state);
        return Ok(None);
    };
    let run = run_of(alloc, subject, decisions, state, how)?;
    Ok(Some(run))
}

/// The path that decisions lead along, which is followed once; None where they lead along none.
fn followed<'a>(
    alloc: Global,
    subject: &Subject<'_>,
    decisions: &'a [Decision],
) -> Result<Option<PathRun<'a>>, NoMemory>
    requires { AreOfOneJob (net_of subject.now) (entry_of subject.now) }
    ensures { IfOk result (SeesPath (net_of subject.now) (entry_of subject.now) subject.now.hops decisions.now) }
{
    the_first_closed_decision_is_one::<Term, Formulas>();
    match follow(
        alloc,
        subject.net,
        subject.injection,
        subject.hops,
        decisions,
    ) {
        Ok(led) => path_of(alloc, subject, decisions, led),
        Err(FollowFault::Impossible { .. }) => Ok(None),
        Err(FollowFault::NoMemory) => Err(NoMemory),
    }
}

/// What questions see of a path, where this is known of them before it. It is followed once for each port where questions look that have no
/// hit.
fn see_run<'a>(
    alloc: Global,
    subject: &Subject<'_>,
    questions: &[Question<'_>],
    kept: &[Kept],
    run: PathRun<'a>,
) -> Result<Seen<'a>, NoMemory>
    requires one_each { length questions.now ≡ length kept.now }
    requires job { AreOfOneJob (net_of subject.now) (entry_of subject.now) }
    requires path { IsPathRun (net_of subject.now) (entry_of subject.now) subject.now.hops run }
    ensures path { IfOk result (IsWellSeen (net_of subject.now) (entry_of subject.now) subject.now.hops) }
    ensures seen { IfOk result (IsPathSeen (net_of subject.now) (entry_of subject.now) subject.now.hops
        run.entry.decisions.now) }
{
    let stops = stops_of(alloc, subject, questions, kept, &run)?;
    Ok(Seen::Path { run, stops })
}

/// What questions see of the path of these decisions, which is followed for it, where this is known of them before it.
fn see_path<'a>(
    alloc: Global,
    subject: &Subject<'_>,
    questions: &[Question<'_>],
    kept: &[Kept],
    decisions: &'a [Decision],
) -> Result<Seen<'a>, NoMemory>
    requires one_each { length questions.now ≡ length kept.now }
    requires job { AreOfOneJob (net_of subject.now) (entry_of subject.now) }
    ensures path { IfOk result (IsWellSeen (net_of subject.now) (entry_of subject.now) subject.now.hops) }
    ensures seen { IfOk result (IsPathSeen (net_of subject.now) (entry_of subject.now) subject.now.hops decisions.now) }
{
    let Some(run) = followed(alloc, subject, decisions)? else {
        return Ok(Seen::Nothing);
    };
    see_run(alloc, subject, questions, kept, run)
}

/// What questions see of a record, where this is known of them before it.
pub(crate) fn see<'a>(
    alloc: Global,
    subject: &Subject<'_>,
    questions: &[Question<'_>],
    kept: &[Kept],
    item: &'a Record,
) -> Result<Seen<'a>, NoMemory>
    requires one_each { length questions.now ≡ length kept.now }
    requires job { AreOfOneJob (net_of subject.now) (entry_of subject.now) }
    ensures path { IfOk result (IsWellSeen (net_of subject.now) (entry_of subject.now) subject.now.hops) }
    ensures seen { IfOk result (IsSeenOf (net_of subject.now) (entry_of subject.now) subject.now.hops
        (record_tree item.now)) }
{
    match item {
        Record::Path { decisions, .. } => see_path(alloc, subject, questions, kept, decisions),
        Record::Pruned { .. } => Ok(Seen::Nothing),
        Record::Unexplored { .. } => Ok(Seen::Untried),
    }
}

/// What questions see of what was found behind these decisions, where this is known of them before it.
pub(crate) fn see_found<'a>(
    alloc: Global,
    subject: &Subject<'_>,
    questions: &[Question<'_>],
    kept: &[Kept],
    found: Found,
    decisions: &'a [Decision],
) -> Result<Seen<'a>, NoMemory>
    requires one_each { length questions.now ≡ length kept.now }
    requires job { AreOfOneJob (net_of subject.now) (entry_of subject.now) }
    requires found { IsHandedBy (net_of subject.now) (entry_of subject.now) subject.now.hops
        (handed decisions.now found) }
    ensures path { IfOk result (IsWellSeen (net_of subject.now) (entry_of subject.now) subject.now.hops) }
    ensures seen { IfOk result (IsSeenOf (net_of subject.now) (entry_of subject.now) subject.now.hops
        (found_tree found decisions.now)) }
{
    match found {
        Found::Path {
            state,
            end,
            verdict,
        } => {
            drop(verdict);
            let run = run_of(alloc, subject, decisions, state, end)?;
            see_run(alloc, subject, questions, kept, run)
        }
        Found::Pruned { before, refutation } => {
            drop(before);
            drop(refutation);
            Ok(Seen::Nothing)
        }
        Found::Unexplored => Ok(Seen::Untried),
    }
}
