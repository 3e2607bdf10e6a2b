//! The decision of a condition.

ghost use Rattle.std.specs.Prelude.{◌≡◌, ◌↔◌, ◌∷◌, ◌++◌, [], ℕ, false, List, None, length, drop, IfOk, IfSome};
ghost use Rattle.path_cond.specs.Conditions.{first_broken, holds_at};
ghost use Rattle.interval_solver.specs.Domains.{AreDomainsOf};
ghost use Rattle.interval_solver.specs.Verdicts.{AreLeastValues};
ghost use Rattle.refutation_check.specs.Decisions.{AreManyCoupled, IsMetBy, IsRefuted, IsSimplyOpen, IsUndecidedBy, IsWithinLimits};
ghost use Rattle.refutation_check.specs.Least.{AreLeast, first_broken_outside};
ghost use Rattle.refutation_check.specs.Longer.{zeros};
ghost use Rattle.refutation_check.specs.declared.outcome.Cause.{Cause as CauseOf};
ghost use Rattle.path_cond.specs.Coupled.{coupled_symbols};
ghost use Rattle.path_solver.specs.Bases.{IsBaseOf, IsExcessOf};
ghost use Rattle.path_solver.specs.Origins.{whole};
ghost use Rattle.path_solver.specs.Decisions.{IsDecisionOn, IsSat, IsUnsat, IsUndecided, IsSettled, IsInFragment, HasNoInside, HasLeastValues};

use crate::base::{Base, OnBase, broken_on, values_on};
use crate::below::facts;
use crate::choices::count_choices;
use crate::laws::{
    sat_exactly_where_met, settled_in_the_fragment, simple_conditions_have_the_least_values,
    undecided_exactly_where_undecided, unsat_exactly_where_refuted,
};
use crate::outside::first_broken_outside;
use crate::solve::{Solved, solve_cases};
use interval_solver::laws::each_symbol_of_filled_domains_has_a_value;
use interval_solver::{Domains, SimpleVerdict, decide_simple};
use path_cond::laws::each_formula_is_typed;
use path_cond::{PathCond, coupled_symbols};
use refutation_check::laws::an_accepted_refutation_refutes;
use refutation_check::{Cause, Listed, MOST_COUPLED, Refutation, Refute};
use sn_width::{NoMemory, Num, SymId};
use std::alloc::{AllocError, Global};

/// What is decided of a condition.
#[derive(Drop)]
pub enum Decided {
    /// These values, one for each symbol, are the least that satisfy every formula that is not outside, and they make the
    /// condition true.
    Sat { values: Listed<Num> },
    /// No values make the condition true.
    Unsat { refutation: Refutation },
    /// The condition is left undecided, by this cause.
    Undecided { cause: Cause },
}

/// The decision of a condition that has these domains. What an earlier decision found of its first symbols and formulas may be given as a
/// base. The constant formulas come first, then the domains, the number of coupled symbols, the number of choices of cases, the cases, and last
/// the formulas that are outside.
///
/// It is Sat or Unsat where each formula is constant or simple, and where each is constant, simple or inside, at most
/// `MOST_COUPLED` symbols are coupled and there are no more choices of cases than are tried.
///
/// Where the least values of the base satisfy each formula that is newer, they stay, and nothing is searched. Where one formula is newer,
/// simple, and no formula is inside, one value alone moves.
pub fn decide_after(
    alloc: Global,
    cond: &PathCond,
    domains: &Domains,
    base: Option<&Base>,
) -> Result<Decided, NoMemory>
    requires domains { AreDomainsOf cond.now domains.now }
    requires base { IfSome base (λ b. IsBaseOf cond.now b.now) }

    ensures decision { IfOk result (IsDecisionOn cond.now) }
    ensures sat { IfOk result (λ decided. (values : List ℕ) → IsSat values decided ↔ IsMetBy cond.now values) }
    ensures unsat { IfOk result (λ decided. IsUnsat decided ↔ IsRefuted cond.now) }
    ensures undecided { IfOk result (λ decided. (cause : CauseOf)
        → IsUndecided cause decided ↔ IsUndecidedBy cond.now cause) }
    ensures settled { IfOk result (λ decided. IsInFragment cond.now → IsSettled decided) }
    ensures least { IfOk result (λ decided. HasNoInside cond.now → HasLeastValues cond.now decided) }
    ensures never { IfOk result (λ decided. IsUnsat decided → (values : List ℕ) → holds_at cond.now values ≡ false) }
{
    sat_exactly_where_met();
    unsat_exactly_where_refuted();
    undecided_exactly_where_undecided();
    settled_in_the_fragment();
    simple_conditions_have_the_least_values();
    an_accepted_refutation_refutes();
    cond.formulas_are_typed();
    decide_from(alloc, cond, domains, base)
}

/// The decision of a condition that has these domains, with no base: that of `decide_after`.
pub fn decide(alloc: Global, cond: &PathCond, domains: &Domains) -> Result<Decided, NoMemory>
    requires { AreDomainsOf cond.now domains.now }

    ensures decision { IfOk result (IsDecisionOn cond.now) }
    ensures sat { IfOk result (λ decided. (values : List ℕ) → IsSat values decided ↔ IsMetBy cond.now values) }
    ensures unsat { IfOk result (λ decided. IsUnsat decided ↔ IsRefuted cond.now) }
    ensures undecided { IfOk result (λ decided. (cause : CauseOf)
        → IsUndecided cause decided ↔ IsUndecidedBy cond.now cause) }
    ensures settled { IfOk result (λ decided. IsInFragment cond.now → IsSettled decided) }
    ensures least { IfOk result (λ decided. HasNoInside cond.now → HasLeastValues cond.now decided) }
    ensures never { IfOk result (λ decided. IsUnsat decided → (values : List ℕ) → holds_at cond.now values ≡ false) }
{
    decide_after(alloc, cond, domains, None)
}

/// The number of coupled symbols of a condition that has these domains, where it is too many and constants and domains do
/// not refute the condition. Nothing but what the condition and the domains keep is looked at.
fn crowd_of(cond: &PathCond, domains: &Domains) -> Option<u64>
    requires { AreDomainsOf cond.now domains.now }
    ensures { IfSome result (AreManyCoupled cond.now) }
{
    each_symbol_of_filled_domains_has_a_value();
    let count = cond.coupled_count();
    if count <= MOST_COUPLED {
        return None;
    }
    if cond.first_broken().is_some() {
        return None;
    }
    if domains.first_empty().is_some() {
        return None;
    }
    Some(count)
}

/// The decision of a condition that has these domains, from the base or with none.
fn decide_from(
    alloc: Global,
    cond: &PathCond,
    domains: &Domains,
    base: Option<&Base>,
) -> Result<Decided, NoMemory>
    requires domains { AreDomainsOf cond.now domains.now }
    requires base { IfSome base (λ b. IsBaseOf cond.now b.now) }
    ensures { IfOk result (IsDecisionOn cond.now) }
{
    if let Some(count) = crowd_of(cond, domains) {
        let cause = Cause::Coupled { count };
        return Ok(Decided::Undecided { cause });
    }
    match base {
        None => decide_in_order(alloc, cond, domains),
        Some(base) => decide_on(alloc, cond, domains, base),
    }
}

/// The decision of a condition that has these domains, from the base.
fn decide_on(
    alloc: Global,
    cond: &PathCond,
    domains: &Domains,
    base: &Base,
) -> Result<Decided, NoMemory>
    requires domains { AreDomainsOf cond.now domains.now }
    requires base { IsBaseOf cond.now base.now }
    ensures { IfOk result (IsDecisionOn cond.now) }
{
    let found = values_on(alloc, cond, domains, base)?;
    match found {
        OnBase::Unknown => decide_in_order(alloc, cond, domains),
        OnBase::Stay { values } => decide_staying(alloc, cond, domains, base, values),
        OnBase::Moved { values } => decide_moved(alloc, cond, domains, values),
    }
}

/// The decision of a condition that has these domains, where the values of the base stay.
fn decide_staying(
    alloc: Global,
    cond: &PathCond,
    domains: &Domains,
    base: &Base,
    values: Vec<Num>,
) -> Result<Decided, NoMemory>
    requires domains { AreDomainsOf cond.now domains.now }
    requires base { IsBaseOf cond.now base.now }
    requires least { AreLeast cond.now values.items }
    requires padded { values.items ≡ base.now.least ++ zeros (drop (length base.now.least) cond.now.widths) }
    ensures { IfOk result (IsDecisionOn cond.now) }
{
    let broken = broken_on(alloc, cond, base, values.as_slice())?;
    decide_by(alloc, cond, domains, values, broken)
}

/// The decision of a condition that has these domains, where these are its least values.
fn decide_moved(
    alloc: Global,
    cond: &PathCond,
    domains: &Domains,
    values: Vec<Num>,
) -> Result<Decided, NoMemory>
    requires domains { AreDomainsOf cond.now domains.now }
    requires least { AreLeast cond.now values.items }
    ensures { IfOk result (IsDecisionOn cond.now) }
{
    let broken = first_broken_outside(alloc, cond, values.as_slice())?;
    decide_by(alloc, cond, domains, values, broken)
}

/// The decision of a condition that has these domains, where these are its least values, and this is the first outside formula that
/// they break.
fn decide_by(
    alloc: Global,
    cond: &PathCond,
    domains: &Domains,
    values: Vec<Num>,
    broken: Option<u32>,
) -> Result<Decided, NoMemory>
    requires domains { AreDomainsOf cond.now domains.now }
    requires least { AreLeast cond.now values.items }
    requires broken { broken ≡ first_broken_outside cond.now values.items }
    ensures { IfOk result (IsDecisionOn cond.now) }
{
    facts();
    let symbols = coupled_symbols(alloc, cond)?;
    match excess_of(alloc, cond, domains, symbols.as_slice())? {
        Some(cause) => Ok(Decided::Undecided { cause }),
        None => Ok(settled(cond, values, broken)),
    }
}

/// The limit that a condition of these coupled symbols does not keep, where constants and domains do not refute it.
fn excess_of(
    alloc: Global,
    cond: &PathCond,
    domains: &Domains,
    symbols: &[SymId],
) -> Result<Option<Cause>, NoMemory>
    requires domains { AreDomainsOf cond.now domains.now }
    requires symbols { symbols.now ≡ coupled_symbols cond.now }
    requires simply_open { IsSimplyOpen cond.now }
    ensures { IfOk result (IsExcessOf cond.now) }
{
    let count = symbols.len() as u64;
    if count > MOST_COUPLED {
        return Ok(Some(Cause::Coupled { count }));
    }
    let count = count_choices(alloc, cond, domains, symbols)?;
    if count > cond.tried_choices() {
        return Ok(Some(Cause::Cases { count }));
    }
    Ok(None)
}

/// The decision of a condition that has these domains, step by step.
fn decide_in_order(alloc: Global, cond: &PathCond, domains: &Domains) -> Result<Decided, NoMemory>
    requires { AreDomainsOf cond.now domains.now }
    ensures { IfOk result (IsDecisionOn cond.now) }
{
    facts();
    cond.formulas_are_typed();
    match decide_simple(alloc, cond, domains)? {
        SimpleVerdict::False { pick } => Ok(Decided::Unsat {
            refutation: split_whole(alloc, pick)?,
        }),
        SimpleVerdict::Empty { symbol, picks } => {
            let picks = Listed::from_vec(picks);
            Ok(Decided::Unsat {
                refutation: one_step(alloc, Refute::Empty { symbol, picks })?,
            })
        }
        SimpleVerdict::Values { values } => decide_open(alloc, cond, domains, values),
    }
}

fn one_step(alloc: Global, step: Refute) -> Result<Refutation, AllocError>
    ensures { IfOk result (λ refutation. refutation ≡ step ∷ []) }
{
    Ok(Listed::from_vec(vec![in alloc; step]?))
}

/// The refutation that splits the formula of the pick, which has no cases.
fn split_whole(alloc: Global, pick: u32) -> Result<Refutation, AllocError>
    ensures { IfOk result (λ refutation. refutation ≡ whole pick ∷ []) }
{
    let way = Listed::from_vec(Vec::new(alloc));
    one_step(alloc, Refute::Split { pick, way })
}

/// The decision of a condition that the constant and the simple formulas do not refute.
fn decide_open(
    alloc: Global,
    cond: &PathCond,
    domains: &Domains,
    leasts: Vec<Num>,
) -> Result<Decided, NoMemory>
    requires domains { AreDomainsOf cond.now domains.now }
    requires unbroken { first_broken cond.now ≡ None }
    requires leasts { AreLeastValues cond.now leasts.items }
    ensures { IfOk result (IsDecisionOn cond.now) }
{
    let symbols = coupled_symbols(alloc, cond)?;
    match excess_of(alloc, cond, domains, symbols.as_slice())? {
        Some(cause) => Ok(Decided::Undecided { cause }),
        None => decide_within(alloc, cond, domains, symbols.as_slice(), leasts),
    }
}

/// The decision of such a condition, of these coupled symbols, that keeps the limits.
fn decide_within(
    alloc: Global,
    cond: &PathCond,
    domains: &Domains,
    symbols: &[SymId],
    leasts: Vec<Num>,
) -> Result<Decided, NoMemory>
    requires domains { AreDomainsOf cond.now domains.now }
    requires symbols { symbols.now ≡ coupled_symbols cond.now }
    requires within { IsWithinLimits cond.now }
    requires unbroken { first_broken cond.now ≡ None }
    requires leasts { AreLeastValues cond.now leasts.items }
    ensures { IfOk result (IsDecisionOn cond.now) }
{
    // A formula without cases is not looked into, nor are the cases of the others.
    if let Some(pick) = cond.first_without_cases() {
        facts();
        each_formula_is_typed();
        cond.formulas_are_typed();
        let refutation = split_whole(alloc, pick)?;
        return Ok(Decided::Unsat { refutation });
    }
    match solve_cases(alloc, cond, domains, symbols, leasts)? {
        Solved::Refuted { refutation } => Ok(Decided::Unsat { refutation }),
        Solved::Values { values } => {
            let broken = first_broken_outside(alloc, cond, values.as_slice())?;
            Ok(settled(cond, values, broken))
        }
    }
}

/// The decision where these are the least values that satisfy every formula that is not outside, and this is the first outside formula
/// that they break.
fn settled(cond: &PathCond, values: Vec<Num>, broken: Option<u32>) -> Decided
    requires within { IsWithinLimits cond.now }
    requires least { AreLeast cond.now values.items }
    requires broken { broken ≡ first_broken_outside cond.now values.items }
    ensures { IsDecisionOn cond.now result }
{
    let values = Listed::from_vec(values);
    match broken {
        None => Decided::Sat { values },
        Some(pick) => Decided::Undecided {
            cause: Cause::Outside { pick, values },
        },
    }
}
