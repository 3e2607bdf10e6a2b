//! Answers.

ghost use Rattle.std.specs.Prelude.{◌≡◌, IfOk, length, map};
ghost use Rattle.path_questions.specs.Asked.{question_seen};
ghost use Rattle.path_questions.specs.Known.{outcome_seen};
ghost use Rattle.queries.specs.Answers.{answer_seen, not_shown_reply, replies_of, reply_of, shown_reply};

use path_questions::{Kept, Question};
use refutation_check::Listed;
use sn_width::{NoMemory, Num};
use std::alloc::Global;

/// A path that shows the answer, by the number of its record, and values of a packet with a walk that has the path's decisions.
#[derive(Drop)]
pub struct Hit {
    pub number: u64,
    pub values: Listed<Num>,
}

/// The answer to a question.
#[derive(Drop)]
pub enum Answer {
    Yes { found: Option<Hit> },
    No { found: Option<Hit> },
    /// No path shows a hit, and the records of these numbers leave the question open.
    Unknown { numbers: Vec<u64> },
}

/// The answer where a path shows it.
fn answer_shown(question: &Question<'_>, hit: Hit) -> Answer
    ensures { answer_seen result ≡ shown_reply (question_seen question.now) (hit.number, hit.values) }
{
    match question {
        Question::Reach { .. } => Answer::Yes { found: Some(hit) },
        Question::Invariant { .. } | Question::Visible { .. } => Answer::No { found: Some(hit) },
    }
}

/// The answer where none does, and nothing is open.
fn answer_not_shown(question: &Question<'_>) -> Answer
    ensures { answer_seen result ≡ not_shown_reply (question_seen question.now) }
{
    match question {
        Question::Reach { .. } => Answer::No { found: None },
        Question::Invariant { .. } | Question::Visible { .. } => Answer::Yes { found: None },
    }
}

/// The answer from what is known of a question.
pub(crate) fn answer_of(question: &Question<'_>, kept: Kept) -> Answer
    ensures { answer_seen result ≡ reply_of (question_seen question.now) (outcome_seen kept) }
{
    match kept {
        Kept::Found { number, values } => answer_shown(question, Hit { number, values }),
        Kept::LeftOpen { numbers } => {
            if numbers.is_empty() {
                return answer_not_shown(question);
            }
            Answer::Unknown { numbers }
        }
    }
}

/// The answers, in the order of the questions.
pub fn answers_of(
    alloc: Global,
    questions: &[Question<'_>],
    kept: Vec<Kept>,
) -> Result<Vec<Answer>, NoMemory>
    requires { length questions.now ≡ length kept.items }
    ensures { IfOk result (λ answers. map answer_seen answers.items ≡ replies_of questions.now kept.items) }
{
    let mut answers = Vec::new(alloc);
    let mut at = 0;
    for known in kept {
        answers.push(answer_of(&questions[at], known))?;
        at += 1;
    }
    Ok(answers)
}
