//! The bounds of choices that have one case each.

ghost use Rattle.std.specs.Prelude.{◌≡◌, ◌≤◌, ◌++◌, ◌∷◌, [], List, length, map, IsTrue, OnOk, IfOk, IfSome};
ghost use Rattle.path_cond.specs.Conditions.{Condition};
ghost use Rattle.path_formula.specs.Bounds.{lists_of as cases_seen};
ghost use Rattle.path_cond.specs.Coupled.{coupled_symbols};
ghost use Rattle.path_cond.specs.Counts.{formula_choices};
ghost use Rattle.interval_solver.specs.Domains.{AreDomainsOf};
ghost use Rattle.path_solver.specs.Origins.{cases_from, origins_of, refute_of};
ghost use Rattle.path_solver.specs.Singles.{AreSinglesOf};
ghost use Rattle.path_solver.specs.Unknowns.{IsTableOf, bound_of, case_of};
ghost use Rattle.sn_width.specs.declared.ids.SymId.{SymId as Symbol};
ghost use Rattle.refutation_check.specs.declared.steps.Refute.{Refute as Step};

use crate::origin::Origin;
use crate::problem::ranges_of;
use crate::unknowns::{bound_in, table_of};
use difference_solver::Bound;
use interval_solver::Domains;
use path_cond::{PathCond, Single};
use path_formula::SymBound;
use sn_width::{NoMemory, SymId};
use std::alloc::Global;

/// The bounds of all choices, one case each, and where each bound comes from.
#[derive(Drop)]
pub(crate) struct Singles {
    pub bounds: Vec<Bound>,
    pub origins: Vec<Origin>,
}

/// The only case, where there is one.
fn only_case(cases: &[Vec<SymBound>]) -> Option<&[SymBound]>
    ensures { IfSome result (λ case. cases_seen cases.now ≡ case.now ∷ []) }
{
    if cases.len() == 1 {
        Some(cases[0].as_slice())
    } else {
        None
    }
}

impl Singles {
    /// Adds the bounds of a case, by the table of the symbols.
    fn push_case(
        &mut self,
        table: &[u32],
        origin: Origin,
        case: &[SymBound],
    ) -> Result<(), NoMemory>
        ensures { OnOk result ((symbols : List Symbol) → IsTableOf symbols table.now
            → self.new.bounds.items ≡ self.old.bounds.items ++ case_of symbols case.now) }
    {
        for bound in case {
            self.bounds.push(bound_in(table, bound))?;
            self.origins.push(origin)?;
        }
        Ok(())
    }

    /// Adds the bounds of a choice of these cases, where there is one case alone.
    fn push(
        &mut self,
        table: &[u32],
        origin: Origin,
        cases: &[Vec<SymBound>],
    ) -> Result<bool, NoMemory>
        ensures { IfOk result (λ yes. (cond : Condition) (origins : List Step) → IsTrue yes
            → IsTableOf (coupled_symbols cond) table.now → cases_seen cases.now ≡ cases_from cond (refute_of origin)
            → AreSinglesOf cond origins self.old → AreSinglesOf cond (origins ++ refute_of origin ∷ []) self.new) }
    {
        match only_case(cases) {
            None => Ok(false),
            Some(case) => {
                self.push_case(table, origin, case)?;
                Ok(true)
            }
        }
    }

    /// Adds the bounds of formulas that have one case alone.
    fn push_singles(&mut self, table: &[u32], singles: &[Single]) -> Result<(), NoMemory>
        ensures { OnOk result ((symbols : List Symbol) → IsTableOf symbols table.now
            → self.new.bounds.items ≡ self.old.bounds.items ++ map (λ s. bound_of symbols s.bound) singles.now) }
    {
        for single in singles {
            self.bounds.push(bound_in(table, &single.bound))?;
            self.origins.push(Origin::Cases { pick: single.pick })?;
        }
        Ok(())
    }

    /// The bounds of the ranges of each coupled symbol, where it has one alone, and of the cases of each inside formula, which
    /// has one alone.
    pub(crate) fn of(
        alloc: Global,
        cond: &PathCond,
        domains: &Domains,
        symbols: &[SymId],
    ) -> Result<Option<Singles>, NoMemory>
        requires domains { AreDomainsOf cond.now domains.now }
        requires symbols { symbols.now ≡ coupled_symbols cond.now }
        requires few { length symbols.now ≤ 64 }
        requires one { formula_choices cond.now ≡ 1 }
        ensures { IfOk result (λ found. IfSome found (AreSinglesOf cond.now (origins_of cond.now))) }
    {
        let Some(table) = table_of(alloc, symbols, cond.symbols())? else {
            return Ok(None);
        };
        let mut singles = Singles {
            bounds: Vec::new(alloc),
            origins: Vec::new(alloc),
        };
        for symbol in symbols {
            let ranges = ranges_of(alloc, cond, domains, *symbol)?;
            let origin = Origin::Ranges { symbol: *symbol };
            if !singles.push(table.as_slice(), origin, ranges.as_slice())? {
                return Ok(None);
            }
        }
        let formulas = cond.singles(alloc)?;
        singles.push_singles(table.as_slice(), formulas.as_slice())?;
        Ok(Some(singles))
    }
}
