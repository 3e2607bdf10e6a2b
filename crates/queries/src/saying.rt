//! What a record says of a question.

ghost use Rattle.std.specs.Prelude.{◌≡◌, IfOk};
ghost use Rattle.net_check.specs.Sound.{AreOfOneJob};
ghost use Rattle.path_questions.specs.Laws.{IsOfInjection};
ghost use Rattle.path_questions.specs.Asked.{look_of, question_seen};
ghost use Rattle.path_questions.specs.Deciding.{entry_of, net_of};
ghost use Rattle.path_questions.specs.declared.looking.Look.TheVariants.{AtEnd, OnArrivals};
ghost use Rattle.queries.specs.Paths.{AreNoted, AreStatesOf, IsJudgedOn, IsPathRun};
ghost use Rattle.queries.specs.Judged.{IsWellSeen, SaysOf};

use crate::seen::Seen;
use crate::states::{PathRun, Stop, noted_at, state_at_end, states_at};
use path_questions::laws::the_formulas_of_questions_are_typed;
use path_questions::{Judged, Look, Question, Subject, judge_states, look_of};
use sefl_meaning::Place;
use sn_width::NoMemory;
use std::alloc::Global;
use sym_state::SymState;

/// What a path says of a question that speaks of these states of it.
fn judge_on(
    alloc: Global,
    subject: &Subject<'_>,
    question: &Question<'_>,
    run: &PathRun<'_>,
    states: &[SymState],
) -> Result<Judged, NoMemory>
    requires own { IsOfInjection (net_of subject.now) (entry_of subject.now) (question_seen question.now) }
    requires path { IsPathRun (net_of subject.now) (entry_of subject.now) subject.now.hops run.now }
    requires states { AreStatesOf (net_of subject.now) (entry_of subject.now) subject.now.hops
        (question_seen question.now) run.now.decisions.now states.now }
    ensures { IfOk result (IsJudgedOn (net_of subject.now) (entry_of subject.now) subject.now.hops
        (question_seen question.now) run.now.decisions.now) }
{
    the_formulas_of_questions_are_typed();
    judge_states(
        alloc,
        subject,
        question,
        run.state.condition(),
        run.state.domains(),
        states,
    )
}

/// What a path says of a question that looks on the arrivals at a port.
fn judge_at(
    alloc: Global,
    subject: &Subject<'_>,
    question: &Question<'_>,
    run: &PathRun<'_>,
    stops: &[Stop],
    place: Place,
) -> Result<Judged, NoMemory>
    requires job { AreOfOneJob (net_of subject.now) (entry_of subject.now) }
    requires own { IsOfInjection (net_of subject.now) (entry_of subject.now) (question_seen question.now) }
    requires path { IsPathRun (net_of subject.now) (entry_of subject.now) subject.now.hops run.now }
    requires stops { AreNoted (net_of subject.now) (entry_of subject.now) subject.now.hops run.now.decisions.now
        stops.now }
    requires looks { look_of (question_seen question.now) ≡ OnArrivals place }
    ensures { IfOk result (IsJudgedOn (net_of subject.now) (entry_of subject.now) subject.now.hops
        (question_seen question.now) run.now.decisions.now) }
{
    if let Some(states) = noted_at(stops, place) {
        return judge_on(alloc, subject, question, run, states);
    }
    let states = states_at(alloc, subject, run, place)?;
    judge_on(alloc, subject, question, run, &states)
}

/// What a path says of a question that looks at its end, where it is delivered at this port.
fn judge_at_end(
    alloc: Global,
    subject: &Subject<'_>,
    question: &Question<'_>,
    run: &PathRun<'_>,
    place: Place,
) -> Result<Judged, NoMemory>
    requires own { IsOfInjection (net_of subject.now) (entry_of subject.now) (question_seen question.now) }
    requires path { IsPathRun (net_of subject.now) (entry_of subject.now) subject.now.hops run.now }
    requires looks { look_of (question_seen question.now) ≡ AtEnd place }
    ensures { IfOk result (IsJudgedOn (net_of subject.now) (entry_of subject.now) subject.now.hops
        (question_seen question.now) run.now.decisions.now) }
{
    let states = state_at_end(alloc, run, place)?;
    judge_on(alloc, subject, question, run, &states)
}

/// What a path says of a question.
fn judge_path(
    alloc: Global,
    subject: &Subject<'_>,
    question: &Question<'_>,
    run: &PathRun<'_>,
    stops: &[Stop],
) -> Result<Judged, NoMemory>
    requires job { AreOfOneJob (net_of subject.now) (entry_of subject.now) }
    requires own { IsOfInjection (net_of subject.now) (entry_of subject.now) (question_seen question.now) }
    requires path { IsPathRun (net_of subject.now) (entry_of subject.now) subject.now.hops run.now }
    requires stops { AreNoted (net_of subject.now) (entry_of subject.now) subject.now.hops run.now.decisions.now
        stops.now }
    ensures { IfOk result (IsJudgedOn (net_of subject.now) (entry_of subject.now) subject.now.hops
        (question_seen question.now) run.now.decisions.now) }
{
    match look_of(question) {
        Look::OnArrivals { place } => judge_at(alloc, subject, question, run, stops, place),
        Look::AtEnd { place } => judge_at_end(alloc, subject, question, run, place),
    }
}

/// What a record says of a question.
pub(crate) fn judge(
    alloc: Global,
    subject: &Subject<'_>,
    question: &Question<'_>,
    seen: &Seen<'_>,
) -> Result<Judged, NoMemory>
    requires job { AreOfOneJob (net_of subject.now) (entry_of subject.now) }
    requires own { IsOfInjection (net_of subject.now) (entry_of subject.now) (question_seen question.now) }
    requires path { IsWellSeen (net_of subject.now) (entry_of subject.now) subject.now.hops seen.now }
    ensures { IfOk result (SaysOf (net_of subject.now) (entry_of subject.now) subject.now.hops
        (question_seen question.now) seen.now) }
{
    match seen {
        Seen::Path { run, stops } => judge_path(alloc, subject, question, run, stops),
        Seen::Untried => Ok(Judged::Open),
        Seen::Nothing => Ok(Judged::RuledOut),
    }
}
