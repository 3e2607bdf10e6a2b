//! What is kept of questions while records come.

ghost use Rattle.std.specs.Prelude.{◌≡◌, ◌++◌, ◌∷◌, [], IfOk, List, length};
ghost use Rattle.net_check.specs.Sound.{AreOfOneJob};
ghost use Rattle.exact_records.specs.Records.{RecordTree};
ghost use Rattle.path_questions.specs.Laws.{IsOfInjection};
ghost use Rattle.path_questions.specs.Asked.{question_seen};
ghost use Rattle.path_questions.specs.Deciding.{entry_of, net_of};
ghost use Rattle.path_questions.specs.Known.{outcome_seen};
ghost use Rattle.queries.specs.Judged.{IsSeenOf, IsWellSeen};
ghost use Rattle.queries.specs.Holding.{AreKept, AreOwn, IsKeptOf, left_open_with, outcome_with};

use crate::saying::judge;
use crate::seen::Seen;
use path_questions::{Judged, Kept, Question, Subject};
use path_solver::laws::verdicts_on_trees_are_exact;
use sn_width::NoMemory;
use std::alloc::Global;

/// Notes what the record of this number says of a question that has no hit.
fn take_in(number: u64, judged: Judged, kept: &mut Kept) -> Result<(), NoMemory>
    ensures { IfOk result (λ done. outcome_seen kept.new ≡ outcome_with number judged (outcome_seen kept.old)) }
{
    match judged {
        Judged::Hit { values } => {
            *kept = Kept::Found { number, values };
            Ok(())
        }
        Judged::Open => leave_open(number, kept),
        Judged::RuledOut => Ok(()),
    }
}

/// Notes one number more of records that leave a question open.
fn leave_open(number: u64, kept: &mut Kept) -> Result<(), NoMemory>
    ensures { IfOk result (λ done. outcome_seen kept.new ≡ left_open_with number (outcome_seen kept.old)) }
{
    match kept {
        Kept::Found { .. } => Ok(()),
        Kept::LeftOpen { numbers } => {
            numbers.push(number)?;
            Ok(())
        }
    }
}

/// Takes one record more into account, unless the question has its hit.
pub(crate) fn keep(
    alloc: Global,
    subject: &Subject<'_>,
    question: &Question<'_>,
    number: u64,
    seen: &Seen<'_>,
    kept: &mut Kept,
) -> Result<(), NoMemory>
    requires job { AreOfOneJob (net_of subject.now) (entry_of subject.now) }
    requires own { IsOfInjection (net_of subject.now) (entry_of subject.now) (question_seen question.now) }
    requires path { IsWellSeen (net_of subject.now) (entry_of subject.now) subject.now.hops seen.now }
    ensures { IfOk result (λ done. (items : List RecordTree) (x : RecordTree) → number ≡ length items
        → IsSeenOf (net_of subject.now) (entry_of subject.now) subject.now.hops x seen.now
        → IsKeptOf (net_of subject.now) (entry_of subject.now) subject.now.hops items (question_seen question.now)
        kept.old
        → IsKeptOf (net_of subject.now) (entry_of subject.now) subject.now.hops (items ++ x ∷ [])
        (question_seen question.now) kept.new) }
{
    verdicts_on_trees_are_exact();
    if kept.is_found() {
        return Ok(());
    }
    let judged = judge(alloc, subject, question, seen)?;
    take_in(number, judged, kept)
}

/// Takes one record more into account for each question.
pub(crate) fn keep_all(
    alloc: Global,
    subject: &Subject<'_>,
    questions: &[Question<'_>],
    number: u64,
    seen: &Seen<'_>,
    kept: &mut [Kept],
) -> Result<(), NoMemory>
    requires one_each { length questions.now ≡ length kept.old }
    requires job { AreOfOneJob (net_of subject.now) (entry_of subject.now) }
    requires own { AreOwn (net_of subject.now) (entry_of subject.now) questions.now }
    requires path { IsWellSeen (net_of subject.now) (entry_of subject.now) subject.now.hops seen.now }
    ensures one_each { length kept.new ≡ length kept.old }
    ensures keeps { IfOk result (λ done. (items : List RecordTree) (x : RecordTree) → number ≡ length items
        → IsSeenOf (net_of subject.now) (entry_of subject.now) subject.now.hops x seen.now
        → AreKept (net_of subject.now) (entry_of subject.now) subject.now.hops items questions.now kept.old
        → AreKept (net_of subject.now) (entry_of subject.now) subject.now.hops (items ++ x ∷ []) questions.now
        kept.new) }
{
    for i in 0..questions.len() {
        keep(alloc, subject, &questions[i], number, seen, &mut kept[i])?;
    }
    Ok(())
}
