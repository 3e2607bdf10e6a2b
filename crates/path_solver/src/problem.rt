//! The choices of cases of a condition.

ghost use Rattle.std.specs.Prelude.{◌≡◌, ◌≤◌, ◌++◌, ◌∷◌, [], true, List, length, map, slice_get, OnOk, IfOk, IfSome};
ghost use Rattle.path_cond.specs.Conditions.{Condition};
ghost use Rattle.path_formula.specs.Bounds.{lists_of as cases_seen};
ghost use Rattle.path_formula.specs.Cases.{cases_of};
ghost use Rattle.path_formula.specs.Splits.{CanSplit};
ghost use Rattle.path_formula.specs.View.{view};
ghost use Rattle.path_cond.specs.Coupled.{coupled_symbols};
ghost use Rattle.path_cond.specs.Picks.{is_inside_pick};
ghost use Rattle.interval_solver.specs.Domains.{AreDomainsOf};
ghost use Rattle.path_solver.specs.Origins.{IsMemberAt, behind_domains, cases_from, formula_origins, origins_of, whole};
ghost use Rattle.path_solver.specs.Problems.{AreChoices, AreGiven, IsProblem};
ghost use Rattle.path_solver.specs.Unknowns.{is_listed};
ghost use Rattle.refutation_check.specs.declared.steps.Refute.{Refute as Step};
ghost use Rattle.refutation_check.specs.declared.steps.Refute.TheVariants.{Domain, Split};

use crate::below::facts;
use crate::unknowns::choice_of;
use difference_solver::Choice;
use interval_solver::Domains;
use path_cond::{PathCond, inside_picks};
use path_formula::{Formula, SymBound, case_count_of, cases, member_at, range_cases};
use refutation_check::{Listed, Refute};
use sn_width::{NoMemory, SymId};
use std::alloc::Global;

/// The most cases of one member that are listed; where there are more the answer is `NoMemory`.
const MOST_LISTED: u64 = 1 << 20;

/// Choices of cases, and for each the step that splits it.
#[derive(Drop)]
pub struct Problem {
    pub steps: Vec<Refute>,
    pub choices: Vec<Choice>,
}

/// The ranges of the domain of a coupled symbol, as cases.
pub(crate) fn ranges_of(
    alloc: Global,
    cond: &PathCond,
    domains: &Domains,
    symbol: SymId,
) -> Result<Vec<Vec<SymBound>>, NoMemory>
    requires domains { AreDomainsOf cond.now domains.now }
    requires coupled { is_listed (coupled_symbols cond.now) symbol ≡ true }
    ensures { IfOk result (λ found. cases_seen found.items ≡ cases_from cond.now (Domain symbol)) }
{
    facts();
    cond.formulas_are_typed();
    match domains.get(symbol) {
        None => unreachable!(),
        Some(set) => range_cases(alloc, symbol, set),
    }
}

/// The cases of a formula that has cases.
fn listed_cases(
    alloc: Global,
    formula: &Formula,
    holds: bool,
) -> Result<Vec<Vec<SymBound>>, NoMemory>
    requires { CanSplit (view formula.now) }
    ensures { IfOk result (λ found. cases_seen found.items ≡ cases_of (view formula.now) holds) }
{
    if case_count_of(alloc, formula, holds)? > MOST_LISTED {
        return Err(NoMemory);
    }
    cases(alloc, formula, holds)
}

impl Problem {
    /// Adds a choice of these cases.
    fn push(
        &mut self,
        alloc: Global,
        symbols: &[SymId],
        step: Refute,
        cases: &[Vec<SymBound>],
    ) -> Result<(), NoMemory>
        requires { length symbols.now ≤ 64 }
        ensures steps { OnOk result (self.new.steps.items ≡ self.old.steps.items ++ step ∷ []) }
        ensures choices { OnOk result ((cond : Condition) → symbols.now ≡ coupled_symbols cond
            → cases_seen cases.now ≡ cases_from cond step → AreChoices cond self.old → AreChoices cond self.new) }
    {
        let choice = choice_of(alloc, symbols, cases)?;
        self.choices.push(choice)?;
        self.steps.push(step)?;
        Ok(())
    }

    /// The choices of the ranges of each coupled symbol.
    pub(crate) fn of_domains(
        alloc: Global,
        cond: &PathCond,
        domains: &Domains,
        symbols: &[SymId],
    ) -> Result<Problem, NoMemory>
        requires domains { AreDomainsOf cond.now domains.now }
        requires symbols { symbols.now ≡ coupled_symbols cond.now }
        requires few { length symbols.now ≤ 64 }
        ensures { IfOk result (AreGiven cond.now []) }
    {
        let mut problem = Problem {
            steps: Vec::new(alloc),
            choices: Vec::new(alloc),
        };
        for symbol in symbols {
            let ranges = ranges_of(alloc, cond, domains, *symbol)?;
            problem.push(
                alloc,
                symbols,
                Refute::Domain { symbol: *symbol },
                ranges.as_slice(),
            )?;
        }
        Ok(problem)
    }

    /// Adds the cases of the member to which the way leads in the formula of a pick, which is inside.
    pub(crate) fn add_member(
        &mut self,
        alloc: Global,
        cond: &PathCond,
        symbols: &[SymId],
        pick: u32,
        way: Listed<u32>,
    ) -> Result<(), NoMemory>
        requires symbols { symbols.now ≡ coupled_symbols cond.now }
        requires few { length symbols.now ≤ 64 }
        requires member { IsMemberAt cond.now pick way }
        ensures steps { OnOk result (self.new.steps.items ≡ self.old.steps.items ++ Split pick way ∷ []) }
        ensures choices { OnOk result (AreChoices cond.now self.old → AreChoices cond.now self.new) }
    {
        facts();
        cond.formulas_are_typed();
        let Some((formula, holds)) = cond.entry(pick) else {
            unreachable!()
        };
        match member_at(formula, holds, way.as_slice()) {
            None => unreachable!(),
            Some((member, holds)) => {
                let found = listed_cases(alloc, member, holds)?;
                self.push(
                    alloc,
                    symbols,
                    Refute::Split { pick, way },
                    found.as_slice(),
                )
            }
        }
    }

    /// The choices of the ranges of each coupled symbol, and of the cases of each inside formula.
    pub(crate) fn of(
        alloc: Global,
        cond: &PathCond,
        domains: &Domains,
        symbols: &[SymId],
    ) -> Result<Problem, NoMemory>
        requires domains { AreDomainsOf cond.now domains.now }
        requires symbols { symbols.now ≡ coupled_symbols cond.now }
        requires few { length symbols.now ≤ 64 }
        ensures { IfOk result (AreGiven cond.now (formula_origins 0 cond.now.entries)) }
    {
        let mut problem = Problem::of_domains(alloc, cond, domains, symbols)?;
        let picks = inside_picks(alloc, cond)?;
        for pick in &picks {
            let way = Listed::from_vec(Vec::new(alloc));
            problem.add_member(alloc, cond, symbols, *pick, way)?;
        }
        Ok(problem)
    }
}
