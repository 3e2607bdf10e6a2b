//! Which paths of the other net face a path, and their formulas.

ghost use Rattle.std.specs.Prelude.{◌≡◌, IfOk, map};
ghost use Rattle.std.specs.List.{AllByRecursion};
ghost use Rattle.interval_solver.specs.Domains.{AreDomainsOf};
ghost use Rattle.path_cond.specs.Seen.{seen};
ghost use Rattle.path_formula.specs.View.{view};
ghost use Rattle.compare_meaning.specs.Clashes.{Agree};
ghost use Rattle.compare_meaning.specs.Facing.{AreMissing, IsFacingFormula, joined};
ghost use Rattle.net_compare.specs.Facings.{FitTogether, FitsWith, IsSound, KnowsOpen, TellsFacing, TellsOpen, is_open, weighed_open};
ghost use Rattle.net_compare.specs.Joining.{IsReady};
ghost use Rattle.net_compare.specs.Saying.{IsFaced, seen_path};

use crate::cells::add_equalities;
use crate::delivery::Delivery;
use crate::domains::are_domains_apart;
use crate::formulas::missing;
use crate::joining::{Decidable, with_row};
use crate::judged::{Judged, judge};
use crate::layout::{same_exit, same_layout};
use crate::marks::Places;
use crate::torn::are_torn;
use crate::weighing::{Weighed, Whole, weigh};
use crate::widths::{with_more_symbols, with_symbols_of};
use compare_typing::laws::{
    candidates_leave_a_condition_open, joined_conditions_are_typed, miss_conditions_are_typed,
    paths_with_domains_apart_do_not_face,
};
use path_formula::Formula;
use path_formula::laws::more_symbols_keep_types;
use path_solver::laws::verdicts_on_trees_are_exact;
use sn_width::NoMemory;
use std::alloc::Global;

/// Conditions with as few formulas as this in all are joined at once.
const FEW: usize = 4;

/// The formulas of the paths that face a path, in order, and its condition with their symbols.
#[derive(Drop)]
pub(crate) struct Faced {
    pub(crate) start: Decidable,
    pub(crate) formulas: Vec<Formula>,
}

/// The formulas of those of these paths that face a path.
pub(crate) fn facing_formulas(
    alloc: Global,
    path: &Delivery<'_>,
    others: &[Delivery<'_>],
) -> Result<Faced, NoMemory>
    requires sound { IsSound path.now }
    requires others_sound { AllByRecursion IsSound others.now }
    requires fits { AllByRecursion (FitsWith (seen_path path.now)) (map seen_path others.now) }
    requires together { FitTogether (map seen_path others.now) }
    ensures { IfOk result (IsFaced (map seen_path others.now) (seen_path path.now)) }
{
    miss_conditions_are_typed();
    let places = Places::of(alloc, &path.marks)?;
    let mut start = decidable(path)?;
    let mut formulas = Vec::new(alloc);
    for other in others {
        if faces(alloc, path, other, &places)? {
            start = with_symbols_of(alloc, start, other.condition)?;
            formulas.push(facing_formula(alloc, path, other, &places)?)?;
        }
    }
    Ok(Faced { start, formulas })
}

/// The condition of a path, with its domains.
fn decidable(path: &Delivery<'_>) -> Result<Decidable, NoMemory>
    requires { AreDomainsOf path.now.condition.now path.now.domains.now }
    ensures ready { IfOk result IsReady }
    ensures same { IfOk result (λ start. start.condition ≡ path.now.condition.now) }
{
    let condition = path.condition.fork()?;
    let domains = path.domains.fork()?;
    Ok(Decidable { condition, domains })
}

/// That the other path is taken, and that its cells are those of this one.
fn facing_formula(
    alloc: Global,
    path: &Delivery<'_>,
    other: &Delivery<'_>,
    places: &Places,
) -> Result<Formula, NoMemory>
    requires path { IsSound path.now }
    requires other { IsSound other.now }
    ensures { IfOk result (λ f. IsFacingFormula (seen_path path.now) (seen_path other.now) (view f)) }
{
    let mut members = lacking(alloc, path, other, places)?;
    add_equalities(alloc, path.heads, other.heads, &mut members)?;
    Ok(Formula::And(members))
}

/// The formulas of the other path that this one does not have.
fn lacking(
    alloc: Global,
    path: &Delivery<'_>,
    other: &Delivery<'_>,
    places: &Places,
) -> Result<Vec<Formula>, NoMemory>
    requires path { IsSound path.now }
    requires other { IsSound other.now }
    ensures { IfOk result (λ formulas. AreMissing (seen_path path.now).condition.entries
        (seen_path other.now).condition.entries (map view formulas.items)) }
{
    missing(
        alloc,
        path.formulas.as_slice(),
        other.formulas.as_slice(),
        &other.marks,
        places,
    )
}

/// Whether the other path is delivered at the same port, with the same layout, and the two conditions are not refuted together.
fn faces(
    alloc: Global,
    path: &Delivery<'_>,
    other: &Delivery<'_>,
    places: &Places,
) -> Result<bool, NoMemory>
    requires path { IsSound path.now }
    requires other { IsSound other.now }
    requires fits { FitsWith (seen_path path.now) (seen_path other.now) }
    ensures { IfOk result (TellsFacing (seen_path path.now) (seen_path other.now)) }
{
    if !same_exit(other, path) {
        return Ok(false);
    }
    if are_torn(path, other, places) {
        return Ok(false);
    }
    if !same_layout(other.heads, path.heads) {
        return Ok(false);
    }
    are_open(alloc, path, other)
}

/// Whether the conditions of two paths are not refuted together. Where the domains of a symbol are apart they are; else some of their
/// formulas are looked at, and all of them only where these do not tell.
fn are_open(alloc: Global, path: &Delivery<'_>, other: &Delivery<'_>) -> Result<bool, NoMemory>
    requires path { IsSound path.now }
    requires other { IsSound other.now }
    requires agree { Agree (seen_path path.now) (seen_path other.now) }
    ensures { IfOk result (TellsOpen (joined (seen_path path.now) (seen_path other.now))) }
{
    paths_with_domains_apart_do_not_face();
    verdicts_on_trees_are_exact();
    if are_domains_apart(alloc, path, other)? {
        return Ok(false);
    }
    if let Some(open) = known_open(alloc, path, other)? {
        return Ok(open);
    }
    let both = join(alloc, path, other)?;
    let judged = judge(alloc, &both.condition, &both.domains)?;
    Ok(is_open(judged))
}

fn is_open(judged: Judged) -> bool
    ensures { result ≡ is_open judged }
{
    match judged {
        Judged::Met { .. } => true,
        Judged::Open => true,
        Judged::Out => false,
    }
}

/// The same, where some formulas of both tell it.
fn known_open(
    alloc: Global,
    path: &Delivery<'_>,
    other: &Delivery<'_>,
) -> Result<Option<bool>, NoMemory>
    requires path { IsSound path.now }
    requires other { IsSound other.now }
    requires agree { Agree (seen_path path.now) (seen_path other.now) }
    ensures { IfOk result (KnowsOpen (joined (seen_path path.now) (seen_path other.now))) }
{
    joined_conditions_are_typed();
    candidates_leave_a_condition_open();
    if path.formulas.len().saturating_add(other.formulas.len()) <= FEW {
        return Ok(None);
    }
    let whole = Whole {
        symbols: with_more_symbols(path.condition, other.condition),
        most: path.condition.most_choices(),
        firsts: path.formulas.as_slice(),
        seconds: other.formulas.as_slice(),
    };
    let weighed = weigh(alloc, &whole)?;
    Ok(weighed_open(weighed))
}

fn weighed_open(weighed: Weighed) -> Option<bool>
    ensures { result ≡ weighed_open weighed }
{
    match weighed {
        Weighed::Least { .. } => Some(true),
        Weighed::Never => Some(false),
        Weighed::Unknown => None,
    }
}

/// The conditions of two paths, joined, with its domains.
fn join(alloc: Global, path: &Delivery<'_>, other: &Delivery<'_>) -> Result<Decidable, NoMemory>
    requires path { IsSound path.now }
    requires other { IsSound other.now }
    requires agree { Agree (seen_path path.now) (seen_path other.now) }
    ensures ready { IfOk result IsReady }
    ensures joined { IfOk result (λ both. seen view both.condition
        ≡ joined (seen_path path.now) (seen_path other.now)) }
{
    more_symbols_keep_types();
    let start = decidable(path)?;
    let wider = with_symbols_of(alloc, start, other.condition)?;
    with_row(alloc, wider, other.formulas.as_slice())
}
