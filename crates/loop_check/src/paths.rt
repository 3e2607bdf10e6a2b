//! What is found of one path that is cut.

ghost use Rattle.std.specs.Prelude.{◌≡◌, IfOk, List, map};
ghost use Rattle.net_check.specs.Network.{entry, network};
ghost use Rattle.net_check.specs.Sound.{AreOfOneJob};
ghost use Rattle.exact_records.specs.Records.{SymCondition, decisions_of};
ghost use Rattle.exact_records.specs.View.{record_tree};
ghost use Rattle.loop_meaning.specs.Answers.{Arrival, IsAnswerOn};
ghost use Rattle.loop_meaning.specs.Loops.{IsRight};
ghost use Rattle.path_questions.specs.Deciding.{entry_of, net_of};
ghost use Rattle.loop_check.specs.Finding.{AnswersFor, IsCutPath};
ghost use Rattle.loop_check.specs.Seen.{AreSeenTo, HaveFields};

use crate::last::last_of;
use crate::visits::answer_from;
use lin_term::Term;
use loop_meaning::LoopAnswer;
use loop_meaning::laws::{a_cut_path_ends_at_its_last_port, loops_are_for_ever};
use net_check::{Injection, Net};
use path_exec::FollowFault;
use path_questions::Subject;
use path_records::Record;
use sefl_meaning::laws::the_first_closed_decision_is_one;
use sefl_meaning::{Decision, Place};
use sn_width::NoMemory;
use std::alloc::Global;
use sym_state::SymState;
use symbolic_engine::arrivals;
use term_values::Formulas;

/// What is found where no port is arrived at.
fn nothing_found(alloc: Global) -> LoopAnswer {
    LoopAnswer::Open {
        differs: Vec::new(alloc),
    }
}

/// What is found of a path that arrives in these states at its last port, behind these ports.
fn answer_at(
    alloc: Global,
    before: &[Place],
    port: Place,
    states: &[SymState],
) -> Result<LoopAnswer, NoMemory>
    requires { HaveFields states.now }
    ensures { IfOk result (λ answer. (c : SymCondition) (earlier : List Arrival) (last : Arrival)
        → map (λ (a : Arrival). a.0) earlier ≡ before.now
        → last.0 ≡ port → AreSeenTo port c earlier last states.now → IsAnswerOn c last earlier answer) }
{
    let Some((end, visits)) = states.split_last() else {
        return Ok(nothing_found(alloc));
    };
    let last = last_of(alloc, end, visits)?;
    answer_from(alloc, &last, before, port, visits)
}

/// What is found of the path of these decisions, which arrives at these ports.
pub(crate) fn answer_of(
    alloc: Global,
    subject: &Subject<'_>,
    decisions: &[Decision],
    places: &[Place],
) -> Result<LoopAnswer, NoMemory>
    requires { AreOfOneJob (net_of subject.now) (entry_of subject.now) }
    ensures { IfOk result (AnswersFor (net_of subject.now) (entry_of subject.now) subject.now.hops decisions.now
        places.now) }
{
    a_cut_path_ends_at_its_last_port();
    the_first_closed_decision_is_one::<Term, Formulas>();
    let Some((port, before)) = places.split_last() else {
        return Ok(nothing_found(alloc));
    };
    match arrivals(
        alloc,
        subject.net,
        subject.injection,
        subject.hops,
        decisions,
        *port,
    ) {
        Ok(states) => answer_at(alloc, before, *port, &states),
        Err(FollowFault::Impossible { .. }) => Ok(nothing_found(alloc)),
        Err(FollowFault::NoMemory) => Err(NoMemory),
    }
}

/// What is found of a path that is cut: the first earlier visit of its last port that does not differ from the last one, or why each differs.
/// The record is one of an exploration of the net from the injection, with `hops` hops.
pub fn loop_of(
    alloc: Global,
    net: &Net,
    injection: &Injection,
    hops: u32,
    found: &Record,
) -> Result<LoopAnswer, NoMemory>
    requires job { AreOfOneJob (network net.now) (entry injection.now) }
    requires cut { IsCutPath (network net.now) (entry injection.now) hops (record_tree found.now) }
    ensures { IfOk result (IsRight (network net.now) (entry injection.now) hops
        (decisions_of (record_tree found.now))) }
{
    loops_are_for_ever();
    let subject = Subject {
        net,
        injection,
        hops,
    };
    match found {
        Record::Path {
            decisions,
            places,
            ..
        } => answer_of(alloc, &subject, decisions, places),
        Record::Pruned { .. } => unreachable!(),
        Record::Unexplored { .. } => unreachable!(),
    }
}
