//! Whether a cell may have other values at two visits.

ghost use Rattle.std.specs.Prelude.{◌≡◌, IfOk, IfSome};
ghost use Rattle.sn_width.specs.declared.rel.Rel.TheVariants.{Ne};
ghost use Rattle.interval_solver.specs.Domains.{AreDomainsBeforeLast, AreDomainsOf};
ghost use Rattle.path_cond.specs.Seen.{seen};
ghost use Rattle.path_formula.specs.Formulas.{compared};
ghost use Rattle.path_formula.specs.Typed.{IsTyped};
ghost use Rattle.path_formula.specs.View.{view};
ghost use Rattle.path_solver.specs.Bases.{IsBaseOf};
ghost use Rattle.loop_meaning.specs.Visits.{difference};
ghost use Rattle.loop_check.specs.Telling.{Tells, is_never, told_by, why_of};

use interval_solver::Domains;
use interval_solver::laws::one_formula_more_may_be_met;
use lin_term::Term;
use loop_meaning::Why;
use loop_meaning::laws::the_same_terms_are_ruled_out;
use path_cond::PathCond;
use path_formula::Formula;
use path_solver::laws::a_base_stays_one;
use path_solver::{Base, Decided, decide_after};
use refutation_check::laws::a_condition_is_judged_by_its_trees;
use refutation_check::{Cause, Listed};
use sn_width::{NoMemory, Num, Rel};
use std::alloc::Global;

/// Whether a cell may have other values at two visits.
#[derive(Drop)]
pub(crate) enum Differing {
    /// It has the same value, whatever takes the path.
    Never,
    /// These are the least values with which it has another.
    With { values: Listed<Num> },
    /// It is left undecided, by this cause.
    Open { cause: Cause },
}

impl Differing {
    /// Whether it has the same value, so that the next cell is looked at.
    pub(crate) fn is_never(&self) -> bool
        ensures { result ≡ is_never self.now }
    {
        match self {
            Differing::Never => true,
            Differing::With { .. } => false,
            Differing::Open { .. } => false,
        }
    }
}

/// What the decision of a difference tells.
fn told_by(decided: Decided) -> Differing
    ensures { result ≡ told_by decided }
{
    match decided {
        Decided::Sat { values } => Differing::With { values },
        Decided::Unsat { .. } => Differing::Never,
        Decided::Undecided { cause } => Differing::Open { cause },
    }
}

/// Why a visit differs, by what the first cell that may have other values tells; None where there is no such cell.
pub(crate) fn why_of(found: Differing) -> Option<Why>
    ensures { result ≡ why_of found }
{
    match found {
        Differing::Never => None,
        Differing::With { values } => Some(Why::Cell { values }),
        Differing::Open { cause } => Some(Why::Unknown { cause }),
    }
}

/// What a condition tells that has one formula more than the one whose domains these are. A base of it is known, or none.
fn decide_longer(
    alloc: Global,
    longer: &PathCond,
    domains: &Domains,
    base: Option<&Base>,
) -> Result<Differing, NoMemory>
    requires domains { AreDomainsBeforeLast longer.now domains.now }
    requires base { IfSome base (λ b. IsBaseOf longer.now b.now) }
    ensures { IfOk result (Tells (seen view longer.now)) }
{
    a_condition_is_judged_by_its_trees();
    longer.formulas_are_typed();
    let met = domains.meet(alloc, longer)?;
    let decided = decide_after(alloc, longer, &met, base)?;
    drop(met);
    Ok(told_by(decided))
}

/// That the one term differs from the other.
fn not_equal(left: Term, right: Term) -> Formula
    ensures { view result ≡ compared Ne left right }
{
    let rel = Rel::Ne;
    Formula::Compare { rel, left, right }
}

/// Whether these two terms may have other values where a path with this condition is taken, where they are not the same. A base of the
/// condition is known, or none.
fn compare_others(
    alloc: Global,
    condition: &PathCond,
    domains: &Domains,
    base: Option<&Base>,
    earlier: &Term,
    later: &Term,
) -> Result<Differing, NoMemory>
    requires domains { AreDomainsOf condition.now domains.now }
    requires base { IfSome base (λ b. IsBaseOf condition.now b.now) }
    requires typed { IsTyped condition.now.widths (compared Ne earlier.now later.now) }
    ensures { IfOk result (Tells (difference (seen view condition.now) (earlier.now, later.now))) }
{
    one_formula_more_may_be_met();
    a_base_stays_one();
    let left = earlier.copy(alloc)?;
    let right = later.copy(alloc)?;
    let longer = condition.with(alloc, not_equal(left, right), true)?;
    let told = decide_longer(alloc, &longer, domains, base);
    drop(longer);
    told
}

/// Whether these two terms may have other values where a path with this condition is taken. A base of the condition is known, or
/// none. Terms that are the same are not decided.
pub(crate) fn compare_terms(
    alloc: Global,
    condition: &PathCond,
    domains: &Domains,
    base: Option<&Base>,
    earlier: &Term,
    later: &Term,
) -> Result<Differing, NoMemory>
    requires domains { AreDomainsOf condition.now domains.now }
    requires base { IfSome base (λ b. IsBaseOf condition.now b.now) }
    requires typed { IsTyped condition.now.widths (compared Ne earlier.now later.now) }
    ensures { IfOk result (Tells (difference (seen view condition.now) (earlier.now, later.now))) }
{
    a_condition_is_judged_by_its_trees();
    the_same_terms_are_ruled_out();
    condition.formulas_are_typed();
    if earlier.same(later) {
        return Ok(Differing::Never);
    }
    compare_others(alloc, condition, domains, base, earlier, later)
}
