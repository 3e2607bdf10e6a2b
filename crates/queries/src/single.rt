//! The answer to one question, from records.

ghost use Rattle.std.specs.Prelude.{◌≡◌, ◌++◌, ◌∷◌, [], ℕ, IfErr, IfOk, List, length};
ghost use Rattle.net_check.specs.Network.{entry, network};
ghost use Rattle.net_check.specs.Sound.{AreOfOneJob};
ghost use Rattle.sefl_syntax.specs.Views.{ask_tree};
ghost use Rattle.exact_records.specs.Packets.{AreExactFor};
ghost use Rattle.exact_records.specs.Records.{RecordTree};
ghost use Rattle.exact_records.specs.View.{record_tree, record_trees};
ghost use Rattle.path_questions.specs.Laws.{IsOfInjection};
ghost use Rattle.path_questions.specs.Asked.{IsFault, question_seen};
ghost use Rattle.path_questions.specs.Deciding.{entry_of, net_of};
ghost use Rattle.queries.specs.Answers.{IsAnswerTo, answer_seen};
ghost use Rattle.queries.specs.Holding.{IsKeptOf};

use crate::answer::{Answer, answer_of};
use crate::keeping::keep;
use crate::seen::see;
use net_check::{Injection, Net};
use path_questions::laws::kept_outcomes_are_right;
use path_questions::{AskFault, Kept, Question, Subject, question_of};
use path_records::Record;
use sefl_syntax::Ask;
use sn_width::NoMemory;
use std::alloc::Global;

/// Takes the record of this number into account for one question.
fn keep_one(
    alloc: Global,
    subject: &Subject<'_>,
    question: &Question<'_>,
    number: u64,
    item: &Record,
    kept: &mut Kept,
) -> Result<(), NoMemory>
    requires job { AreOfOneJob (net_of subject.now) (entry_of subject.now) }
    requires own { IsOfInjection (net_of subject.now) (entry_of subject.now) (question_seen question.now) }
    ensures { IfOk result (λ done. (items : List RecordTree) → number ≡ length items
        → IsKeptOf (net_of subject.now) (entry_of subject.now) subject.now.hops items (question_seen question.now)
        kept.old
        → IsKeptOf (net_of subject.now) (entry_of subject.now) subject.now.hops (items ++ record_tree item.now ∷ [])
        (question_seen question.now) kept.new) }
{
    let seen = see(alloc, subject, &[], &[], item)?;
    keep(alloc, subject, question, number, &seen, kept)
}

/// What records tell of a question.
fn told(
    alloc: Global,
    subject: &Subject<'_>,
    question: &Question<'_>,
    records: &[Record],
) -> Result<Kept, NoMemory>
    requires job { AreOfOneJob (net_of subject.now) (entry_of subject.now) }
    requires own { IsOfInjection (net_of subject.now) (entry_of subject.now) (question_seen question.now) }
    ensures { IfOk result (IsKeptOf (net_of subject.now) (entry_of subject.now) subject.now.hops
        (record_trees records.now) (question_seen question.now)) }
{
    let mut number: u64 = 0;
    let mut kept = Kept::LeftOpen {
        numbers: Vec::new(alloc),
    };
    for record in records {
        keep_one(alloc, subject, question, number, record, &mut kept)?;
        let Some(next) = number.checked_add(1) else {
            return Err(NoMemory);
        };
        number = next;
    }
    Ok(kept)
}

/// The answer to the question of these words from the records of an exploration of a net and an injection with `hops` hops; or
/// why the words ask none.
pub fn ask(
    alloc: Global,
    net: &Net,
    injection: &Injection,
    hops: u32,
    records: &[Record],
    words: &Ask,
) -> Result<Answer, AskFault>
    requires job { AreOfOneJob (network net.now) (entry injection.now) }
    requires exact { (limit : ℕ) × AreExactFor (network net.now) (entry injection.now) hops limit
        (record_trees records.now) }
    ensures answered { IfOk result (λ answer. IsAnswerTo (network net.now) (entry injection.now) hops
        (record_trees records.now) (ask_tree words.now) (answer_seen answer)) }
    ensures refused { IfErr result (IsFault (network net.now) (entry injection.now) (ask_tree words.now)) }
{
    kept_outcomes_are_right();
    let question = question_of(net, injection, words)?;
    let subject = Subject {
        net,
        injection,
        hops,
    };
    let kept = told(alloc, &subject, &question, records)?;
    Ok(answer_of(&question, kept))
}
