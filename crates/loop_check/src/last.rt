//! The last visit of a port, and whether an earlier one differs from it.

ghost use Rattle.std.specs.Prelude.{◌≡◌, ◌↔◌, IfOk, IfSome, IsTrue, map};
ghost use Rattle.std.specs.List.{AllByRecursion};
ghost use Rattle.sn_width.specs.declared.rel.Rel.TheVariants.{Ne};
ghost use Rattle.path_formula.specs.Formulas.{compared};
ghost use Rattle.path_formula.specs.Typed.{IsTyped};
ghost use Rattle.path_solver.specs.Bases.{IsBaseOf};
ghost use Rattle.sym_state.specs.Symbolic.{held_of};
ghost use Rattle.symbolic_engine.specs.Origins.{condition_seen};
ghost use Rattle.loop_meaning.specs.Visits.{difference, paired};
ghost use Rattle.loop_check.specs.Lasting.{AreOfOneStart, IsLast};
ghost use Rattle.loop_check.specs.Lists.{terms_of};
ghost use Rattle.loop_check.specs.Seen.{SaysOf};
ghost use Rattle.loop_check.specs.Telling.{FirstTells};

use crate::differing::{Differing, compare_terms, why_of};
use crate::lists::{Lists, lists_of, values_of};
use crate::shapes::have_same_shape;
use lin_term::Term;
use loop_meaning::Why;
use loop_meaning::laws::listed_tags_fix_the_tags;
use path_cond::PathCond;
use path_solver::laws::the_values_of_a_decision_are_a_base;
use path_solver::{Base, Decided, decide};
use sn_width::{NoMemory, SymId};
use std::alloc::Global;
use sym_state::SymState;
use term_values::laws::the_tests_of_fitting_terms;

/// The last visit of a port, in the state at the end of the path.
pub(crate) struct Last<'a> {
    pub(crate) state: &'a SymState,
    /// What the decision of the path's condition found, where it is wanted.
    pub(crate) base: Option<Base>,
    pub(crate) lists: Lists<'a>,
    pub(crate) values: Vec<&'a Term>,
}

// Written out, and not derived, so that the proof of a function that lets one go sees a call.
impl Drop for Last<'_> {
    fn drop(self) {
        let Last {
            state: _,
            base,
            lists,
            values,
        } = self;
        drop(base);
        drop(lists);
        drop(values);
    }
}

/// The least values of the path's condition, as a base of conditions with a formula more.
fn decided_base(alloc: Global, state: &SymState) -> Result<Option<Base>, NoMemory>
    ensures { IfOk result (λ base. IfSome base (IsBaseOf state.now.condition)) }
{
    the_values_of_a_decision_are_a_base();
    let condition = state.condition();
    condition.formulas_are_typed();
    let Ok(formulas) = u32::try_from(condition.len()) else {
        return Ok(None);
    };
    match decide(alloc, condition, state.domains())? {
        Decided::Sat { values } => Ok(Some(Base {
            formulas,
            least: values,
            broken: None,
        })),
        Decided::Unsat { .. } => Ok(None),
        Decided::Undecided { .. } => Ok(None),
    }
}

/// The same where some visit has as many symbols as the end, so that terms may be compared; else none.
fn base_for(alloc: Global, state: &SymState, visits: &[SymState]) -> Result<Option<Base>, NoMemory>
    ensures { IfOk result (λ base. IfSome base (IsBaseOf state.now.condition)) }
{
    let Some(visit) = visits.last() else {
        return Ok(None);
    };
    if visit.condition().symbols() != state.condition().symbols() {
        return Ok(None);
    }
    decided_base(alloc, state)
}

/// The last visit of a port, behind these earlier ones.
pub(crate) fn last_of<'a>(
    alloc: Global,
    state: &'a SymState,
    visits: &[SymState],
) -> Result<Last<'a>, NoMemory>
    ensures last { IfOk result IsLast }
    ensures state { IfOk result (λ last. last.state.now ≡ state.now) }
{
    let lists = lists_of(alloc, state)?;
    let values = values_of(alloc, &lists)?;
    let base = base_for(alloc, state, visits)?;
    Ok(Last {
        state,
        base,
        lists,
        values,
    })
}

/// Whether two conditions have as many symbols, of the same widths.
fn have_same_symbols(first: &PathCond, second: &PathCond) -> bool
    ensures { IsTrue result ↔ (first.now.widths ≡ second.now.widths) }
{
    if first.symbols() != second.symbols() {
        return false;
    }
    for symbol in 0..first.symbols() {
        if first.width(SymId(symbol)) != second.width(SymId(symbol)) {
            return false;
        }
    }
    true
}

/// Whether each of these values is that at its place among the later ones, or what the first other one tells.
fn compare_values(
    alloc: Global,
    state: &SymState,
    base: Option<&Base>,
    earlier: &[&Term],
    later: &[&Term],
) -> Result<Differing, NoMemory>
    requires base { IfSome base (λ b. IsBaseOf state.now.condition b.now) }
    requires typed { AllByRecursion (λ p. IsTyped state.now.condition.widths (compared Ne p.0 p.1))
        (paired (terms_of earlier.now) (terms_of later.now)) }
    ensures { IfOk result (FirstTells (map (difference (condition_seen state.now))
        (paired (terms_of earlier.now) (terms_of later.now)))) }
{
    let count = earlier.len().min(later.len());
    for place in 0..count {
        let found = compare_terms(
            alloc,
            state.condition(),
            state.domains(),
            base,
            earlier[place],
            later[place],
        )?;
        if !found.is_never() {
            return Ok(found);
        }
    }
    Ok(Differing::Never)
}

/// Why a visit differs from the last one of its port; None where it does not.
pub(crate) fn differs(
    alloc: Global,
    last: &Last<'_>,
    visit: &SymState,
) -> Result<Option<Why>, NoMemory>
    requires last { IsLast last.now }
    requires start { AreOfOneStart last.now.state.now visit.now }
    ensures { IfOk result (SaysOf (condition_seen last.now.state.now) (held_of last.now.state.now) visit.now) }
{
    listed_tags_fix_the_tags();
    the_tests_of_fitting_terms();
    if !have_same_symbols(visit.condition(), last.state.condition()) {
        return Ok(Some(Why::Choice));
    }
    let lists = lists_of(alloc, visit)?;
    if !have_same_shape(&lists, &last.lists) {
        return Ok(Some(Why::Layout));
    }
    visit.terms_are_typed();
    last.state.terms_are_typed();
    let values = values_of(alloc, &lists)?;
    let found = compare_values(alloc, last.state, last.base.as_ref(), &values, &last.values)?;
    Ok(why_of(found))
}
