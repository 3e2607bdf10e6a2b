//! Conditions with more symbols and more formulas, and their domains.

ghost use Rattle.std.specs.Prelude.{◌≡◌, IfOk, map};
ghost use Rattle.std.specs.List.{AllByRecursion};
ghost use Rattle.interval_solver.specs.Domains.{AreDomainsOf};
ghost use Rattle.path_cond.specs.Seen.{AllTyped, itself, seen};
ghost use Rattle.path_formula.specs.Typed.{IsTyped};
ghost use Rattle.path_formula.specs.View.{view};
ghost use Rattle.refutation_check.specs.Longer.{with_entries};
ghost use Rattle.net_compare.specs.Joining.{IsReady, each_with, one_more};
ghost use Rattle.net_compare.specs.Rows.{row_seen};

use interval_solver::Domains;
use interval_solver::laws::one_formula_more_may_be_met;
use path_cond::PathCond;
use path_formula::Formula;
use sn_width::NoMemory;
use std::alloc::Global;

/// A condition with its domains.
#[derive(Drop)]
pub struct Decidable {
    pub condition: PathCond,
    pub domains: Domains,
}

/// With one formula more, which must have this truth.
pub fn with_formula(
    alloc: Global,
    start: &Decidable,
    formula: Formula,
    holds: bool,
) -> Result<Decidable, NoMemory>
    requires ready { IsReady start.now }
    requires typed { IsTyped start.now.condition.widths (view formula) }
    ensures ready { IfOk result IsReady }
    ensures longer { IfOk result (λ next. next.condition ≡ one_more start.now.condition (formula, holds)) }
{
    one_formula_more_may_be_met();
    let condition = start.condition.with(alloc, formula, holds)?;
    let domains = start.domains.meet(alloc, &condition)?;
    Ok(Decidable { condition, domains })
}

/// With these formulas, which must all have this truth.
pub fn with_each(
    alloc: Global,
    start: Decidable,
    formulas: &[Formula],
    holds: bool,
) -> Result<Decidable, NoMemory>
    requires ready { IsReady start }
    requires typed { AllByRecursion (λ f. IsTyped start.condition.widths (view f)) formulas.now }
    ensures ready { IfOk result IsReady }
    ensures longer { IfOk result (λ next. seen view next.condition
        ≡ with_entries (seen view start.condition) (each_with holds (map view formulas.now))) }
{
    let mut now = start;
    for formula in formulas {
        let copy = formula.copy(alloc)?;
        now = with_formula(alloc, &now, copy, holds)?;
    }
    Ok(now)
}

/// With all formulas of a row, and their truths.
pub fn with_row(
    alloc: Global,
    start: Decidable,
    row: &[(&Formula, bool)],
) -> Result<Decidable, NoMemory>
    requires ready { IsReady start }
    requires typed { AllTyped itself start.condition.widths (row_seen row.now) }
    ensures ready { IfOk result IsReady }
    ensures longer { IfOk result (λ next. seen view next.condition
        ≡ with_entries (seen view start.condition) (row_seen row.now)) }
{
    let mut now = start;
    for (formula, holds) in row {
        let copy = formula.copy(alloc)?;
        now = with_formula(alloc, &now, copy, *holds)?;
    }
    Ok(now)
}
