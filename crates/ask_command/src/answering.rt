//! The answers to the questions of a job.

ghost use Rattle.std.specs.Prelude.{◌≡◌, ◌<◌, IfOk, IfErr, string_bytes, map};
ghost use Rattle.net_check.specs.Network.{entry, network};
ghost use Rattle.net_check.specs.Sound.{AreOfOneJob};
ghost use Rattle.sefl_syntax.specs.Views.{ask_tree};
ghost use Rattle.path_exec.specs.declared.exploration.Ended.TheVariants.{Stopped};
ghost use Rattle.path_questions.specs.Deciding.{entry_of, net_of};
ghost use Rattle.queries.specs.Answers.{answer_seen};
ghost use Rattle.queries.specs.Holding.{AreOwn};
ghost use Rattle.ask_command.specs.Asks.{IsAnswersText, IsAskRefusal};
ghost use Rattle.ask_command.specs.Answering.{AreAnswers, ending_of, fault_of};

use crate::text::answers_text;
use command_edge::{Ending, OwnFault};
use hop_bounds::laws::{right_answers_go_beyond, uncut_records_go_beyond};
use net_check::Accepted;
use path_exec::Ended;
use path_questions::laws::kept_outcomes_are_right;
use queries::{
    Answer, AskFault, Asking, BadAsk, Mark, Question, Subject, answers_of, nothing_kept,
    questions_of,
};
use sn_width::{NoMemory, Steps};
use std::alloc::Global;
use std::marker::{Brand, PhantomData};
use std::sync::ledger::{Blank, Ledger};
use symbolic_engine::observe;

/// The refusal of a question.
fn fault_of(bad: BadAsk) -> OwnFault
    ensures { result ≡ fault_of bad }
{
    let number = bad.number;
    match bad.fault {
        AskFault::NoPlace => OwnFault::BadAsk { number, kind: 1 },
        AskFault::NoField => OwnFault::BadAsk { number, kind: 2 },
        AskFault::NoMemory => OwnFault::NoMemory,
    }
}

/// How a text ends that is made of an exploration which ended so. An observer that looks at all that is found never stops.
pub fn ending_of(ended: Ended) -> Ending
    requires { ended ≡ Stopped → ⊥ }
    ensures { result ≡ ending_of ended }
{
    match ended {
        Ended::Whole => Ending::Done,
        Ended::Partial => Ending::Partial,
        Ended::Stopped => unreachable!(),
    }
}

/// The answers, from one exploration.
fn answer_with<M: Mark, L: Ledger>(
    alloc: Global,
    subject: &Subject<'_>,
    limit: u32,
    questions: Vec<Question<'_>>,
    blank: Blank,
) -> Result<(Ending, Vec<Answer>), NoMemory>
    requires job { AreOfOneJob (net_of subject.now) (entry_of subject.now) }
    requires limit { 0 < limit }
    requires net { net_of subject.now ≡ M.net }
    requires entry { entry_of subject.now ≡ M.entry }
    requires hops { subject.now.hops ≡ M.hops }
    requires questions { questions.items ≡ M.questions }
    requires own { AreOwn (net_of subject.now) (entry_of subject.now) questions.items }
    requires name { blank.name ≡ L.name }
    requires parts { blank.parts ≡ L.parts }
    requires some { 0 < blank.parts }
    ensures { IfOk result (λ r. AreAnswers M.hops limit M.net M.entry M.questions r.0 (map answer_seen r.1.items)) }
{
    kept_outcomes_are_right();
    let mut steps = Steps::<L>::new(blank);
    let kept = nothing_kept(alloc, questions.len())?;
    let mut asking: Asking<'_, M> = Asking {
        alloc,
        subject: *subject,
        questions,
        kept,
        count: 0,
        failed: false,
        of: PhantomData,
    };
    let ended = observe(
        alloc,
        subject.net,
        subject.injection,
        subject.hops,
        limit,
        &mut asking,
        &mut steps,
    )?;
    let Asking {
        questions,
        kept,
        failed,
        ..
    } = asking;
    // Neither comes: where memory ended in the midst of the questions, `observe` has answered so.
    if failed || questions.len() != kept.len() {
        return Err(NoMemory);
    }
    let answers = answers_of(alloc, &questions, kept)?;
    Ok((ending_of(ended), answers))
}

/// The text of the answers, with its ending; or the first question that is refused.
pub(crate) fn text_of_answers(
    alloc: Global,
    job: &Accepted,
    hops: u32,
    limit: u32,
) -> Result<(Ending, String), OwnFault>
    requires job { AreOfOneJob (network job.now.net) (entry job.now.injection) }
    requires limit { 0 < limit }
    ensures text { IfOk result (λ t. IsAnswersText hops limit (network job.now.net) (entry job.now.injection)
        (map ask_tree job.now.asks.items) t.0 (string_bytes t.1)) }
    ensures refused { IfErr result (IsAskRefusal (network job.now.net) (entry job.now.injection)
        (map ask_tree job.now.asks.items)) }
{
    uncut_records_go_beyond();
    right_answers_go_beyond();
    let questions = match questions_of(alloc, &job.net, &job.injection, &job.asks) {
        Ok(questions) => questions,
        Err(bad) => return Err(fault_of(bad)),
    };
    let subject = Subject {
        net: &job.net,
        injection: &job.injection,
        hops,
    };
    let (ending, answers) = answer_with::<Brand, Brand>(
        alloc,
        &subject,
        limit,
        questions,
        Blank::new(1),
    )?;
    let text = answers_text(alloc, &answers)?;
    Ok((ending, text))
}
