//! What the states of a path say of a question.

ghost use Rattle.std.specs.Prelude.{◌≡◌, IfOk, true};
ghost use Rattle.std.specs.List.{AllByRecursion};
ghost use Rattle.interval_solver.specs.Domains.{AreDomainsBeforeLast, AreDomainsOf};
ghost use Rattle.path_cond.specs.Seen.{seen};
ghost use Rattle.path_formula.specs.Typed.{IsTyped};
ghost use Rattle.path_formula.specs.View.{view};
ghost use Rattle.exact_records.specs.Records.{with_test};
ghost use Rattle.path_questions.specs.Formulas.{formula_of};
ghost use Rattle.path_questions.specs.Asked.{question_seen};
ghost use Rattle.path_questions.specs.Deciding.{IsJudged, Says, conditions_with, entry_of, is_hit, judged_by, net_of, open_with};

use crate::formula::formula_of;
use crate::question::Question;
use crate::subject::Subject;
use interval_solver::Domains;
use interval_solver::laws::one_formula_more_may_be_met;
use path_cond::PathCond;
use path_solver::laws::verdicts_on_trees_are_exact;
use path_solver::{Decided, decide};
use refutation_check::Listed;
use refutation_check::laws::a_condition_is_judged_by_its_trees;
use sn_width::{NoMemory, Num};
use std::alloc::Global;
use sym_state::SymState;

/// What states, or a whole record, say of a question.
#[derive(Drop)]
pub enum Judged {
    /// They show a hit, with these values.
    Hit { values: Listed<Num> },
    /// They show none, and leave the question open.
    Open,
    /// They rule the question out.
    RuledOut,
}

impl Judged {
    /// Whether it is a hit, behind which no state is looked at.
    fn is_hit(&self) -> bool
        ensures { result ≡ is_hit self.now }
    {
        match self {
            Judged::Hit { .. } => true,
            Judged::Open => false,
            Judged::RuledOut => false,
        }
    }
}

/// What the decision of a condition says.
fn judged_by(decided: Decided) -> Judged
    ensures { result ≡ judged_by decided }
{
    match decided {
        Decided::Sat { values } => Judged::Hit { values },
        Decided::Unsat { .. } => Judged::RuledOut,
        Decided::Undecided { .. } => Judged::Open,
    }
}

/// Whether a condition is undecided, this one or, as is given, one before it.
fn open_with(before: bool, judged: Judged) -> bool
    ensures { result ≡ open_with before judged }
{
    match judged {
        Judged::Hit { .. } => before,
        Judged::Open => true,
        Judged::RuledOut => before,
    }
}

/// What a condition with these domains says.
fn judge_condition(
    alloc: Global,
    condition: &PathCond,
    domains: &Domains,
) -> Result<Judged, NoMemory>
    requires { AreDomainsOf condition.now domains.now }
    ensures { IfOk result (Says (seen view condition.now)) }
{
    a_condition_is_judged_by_its_trees();
    condition.formulas_are_typed();
    let decided = decide(alloc, condition, domains)?;
    Ok(judged_by(decided))
}

/// The same of a condition that has one formula more than the one whose domains these are.
fn judge_longer(alloc: Global, longer: &PathCond, domains: &Domains) -> Result<Judged, NoMemory>
    requires { AreDomainsBeforeLast longer.now domains.now }
    ensures { IfOk result (Says (seen view longer.now)) }
{
    let met = domains.meet(alloc, longer)?;
    let judged = judge_condition(alloc, longer, &met);
    drop(met);
    judged
}

/// What the condition says that has the formula of the state more.
fn judge_state(
    alloc: Global,
    subject: &Subject<'_>,
    question: &Question<'_>,
    condition: &PathCond,
    domains: &Domains,
    state: &SymState,
) -> Result<Judged, NoMemory>
    requires domains { AreDomainsOf condition.now domains.now }
    requires typed { IsTyped condition.now.widths (formula_of (net_of subject.now) (entry_of subject.now)
        subject.now.hops (question_seen question.now) state.now.carried) }
    ensures { IfOk result (Says (with_test (seen view condition.now)
        (formula_of (net_of subject.now) (entry_of subject.now) subject.now.hops (question_seen question.now)
        state.now.carried) true)) }
{
    one_formula_more_may_be_met();
    let formula = formula_of(alloc, subject, question, state)?;
    let longer = condition.with(alloc, formula, true)?;
    let judged = judge_longer(alloc, &longer, domains);
    drop(longer);
    judged
}

/// What the conditions say that have the formula of one of the states more each: the first that is met, or one that is undecided, or
/// that each is refuted.
pub fn judge_states(
    alloc: Global,
    subject: &Subject<'_>,
    question: &Question<'_>,
    condition: &PathCond,
    domains: &Domains,
    states: &[SymState],
) -> Result<Judged, NoMemory>
    requires domains { AreDomainsOf condition.now domains.now }
    requires typed { AllByRecursion (λ x. IsTyped condition.now.widths
        (formula_of (net_of subject.now) (entry_of subject.now) subject.now.hops (question_seen question.now)
        x.carried)) states.now }
    ensures { IfOk result (IsJudged (conditions_with (net_of subject.now) (entry_of subject.now) subject.now.hops
        (question_seen question.now) (seen view condition.now) states.now)) }
{
    verdicts_on_trees_are_exact();
    let mut open = false;
    for state in states {
        let judged = judge_state(alloc, subject, question, condition, domains, state)?;
        if judged.is_hit() {
            return Ok(judged);
        }
        open = open_with(open, judged);
    }
    if open {
        return Ok(Judged::Open);
    }
    Ok(Judged::RuledOut)
}
