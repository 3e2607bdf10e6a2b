//! The formula of a question in a state.

ghost use Rattle.std.specs.Prelude.{◌≡◌, IfOk};
ghost use Rattle.net_check.specs.Network.{network};
ghost use Rattle.path_formula.specs.View.{view};
ghost use Rattle.sefl_meaning.specs.Carried.{scene_at};
ghost use Rattle.sefl_meaning.specs.View.{carried_of};
ghost use Rattle.sefl_meaning.specs.Terms.{truth_in};
ghost use Rattle.sefl_syntax.specs.Views.{cond_tree};
ghost use Rattle.term_values.specs.TermValues.{terms};
ghost use Rattle.path_questions.specs.Formulas.{differs, formula_of, held_or};
ghost use Rattle.path_questions.specs.Sentences.{injected_value};
ghost use Rattle.path_questions.specs.Asked.{field_seen, question_seen};
ghost use Rattle.path_questions.specs.Deciding.{entry_of, net_of};

use crate::question::{InjectedField, Question};
use crate::reading::read;
use crate::subject::Subject;
use instr_steps::{Arithmetic, Scene, truth_of};
use lin_term::Term;
use net_check::Net;
use path_formula::Formula;
use sefl_meaning::{Carried, Place};
use sefl_syntax::Cond;
use sn_tree::Shared;
use sn_width::{NoMemory, NodeId, Rel, StepFault};
use std::alloc::Global;
use sym_state::SymState;
use term_values::Terms;

/// What a state carries.
fn carried_in(state: &SymState) -> Result<Carried<Term>, NoMemory>
    ensures { IfOk result (λ carried. carried_of carried ≡ state.now.carried) }
{
    let scopes = state.scopes().fork()?;
    let layers = state.layers().fork()?;
    Ok(Carried { layers, scopes })
}

/// The test of a node's code where this is carried; false where it faults.
fn tested(
    alloc: Global,
    net: &Net,
    unknowns: u64,
    node: NodeId,
    test: &Cond,
    carried: &Carried<Term>,
) -> Result<Formula, NoMemory>
    ensures { IfOk result (λ f. view f ≡ held_or ((terms unknowns).negation (terms unknowns).always)
        (truth_in (terms unknowns) (scene_at (network net.now) node) (cond_tree test.now) (carried_of carried.now))) }
{
    let o = Terms { unknowns };
    let iterations = Shared::empty();
    let at = Scene {
        net,
        node,
        iterations: &iterations,
    };
    match truth_of(alloc, &o, &at, carried, test) {
        Ok(formula) => Ok(formula),
        Err(StepFault::Layout(_)) => o.negation(alloc, o.always()),
        Err(StepFault::NoMemory) => Err(NoMemory),
    }
}

/// The test of a place in a state; false where it faults.
fn test_formula(
    alloc: Global,
    net: &Net,
    unknowns: u64,
    place: Place,
    test: &Cond,
    state: &SymState,
) -> Result<Formula, NoMemory>
    ensures { IfOk result (λ f. view f ≡ held_or ((terms unknowns).negation (terms unknowns).always)
        (truth_in (terms unknowns) (scene_at (network net.now) place.node) (cond_tree test.now) state.now.carried)) }
{
    let carried = carried_in(state)?;
    let formula = tested(alloc, net, unknowns, place.node, test, &carried);
    drop(carried);
    formula
}

/// The value of a field of the injection.
fn injected(alloc: Global, unknowns: u64, field: &InjectedField<'_>) -> Result<Term, NoMemory>
    ensures { IfOk result (λ t. t ≡ injected_value (terms unknowns) (field_seen field.now)) }
{
    let o = Terms { unknowns };
    let width = field.target.width();
    match field.given {
        None => o.unknown(alloc, width, field.number),
        Some(number) => o.constant(alloc, width, number),
    }
}

/// That the field reads otherwise than it was injected, where the code of a node begins; so it does where the read faults.
fn difference(
    alloc: Global,
    net: &Net,
    unknowns: u64,
    node: NodeId,
    field: &InjectedField<'_>,
    state: &SymState,
) -> Result<Formula, NoMemory>
    ensures { IfOk result (λ f. view f ≡ differs (terms unknowns) (network net.now) node (field_seen field.now)
        state.now.carried) }
{
    let o = Terms { unknowns };
    let width = field.target.width();
    match read(net, node, state, width, field.target) {
        Ok(value) => {
            let left = value.copy(alloc)?;
            let right = injected(alloc, unknowns, field)?;
            Ok(o.compare(width, Rel::Ne, left, right))
        }
        Err(_) => Ok(o.always()),
    }
}

/// The formula of a question in a state.
pub(crate) fn formula_of(
    alloc: Global,
    subject: &Subject<'_>,
    question: &Question<'_>,
    state: &SymState,
) -> Result<Formula, NoMemory>
    ensures { IfOk result (λ f. view f ≡ formula_of (net_of subject.now) (entry_of subject.now) subject.now.hops
        (question_seen question.now) state.now.carried) }
{
    let unknowns = subject.injection.unknowns() as u64;
    match question {
        Question::Reach { place, test } => {
            test_formula(alloc, subject.net, unknowns, *place, test, state)
        }
        Question::Invariant { place, field } => {
            difference(alloc, subject.net, unknowns, place.node, field, state)
        }
        Question::Visible { place, field } => {
            difference(alloc, subject.net, unknowns, place.node, field, state)
        }
    }
}
