//! The number of cases of a formula.

ghost use Rattle.std.specs.Prelude.{◌≡◌, ◌≤◌, length, IfOk};
ghost use Rattle.sn_width.specs.declared.ids.SymId.{SymId};
ghost use Rattle.path_formula.specs.Atoms.{comparison_kind, membership_kind};
ghost use Rattle.path_formula.specs.Formulas.{compared, belongs, truth_at};
ghost use Rattle.path_formula.specs.Solutions.{IsOver, agrees, alone};
ghost use Rattle.path_formula.specs.View.{view, views};
ghost use Rattle.path_formula.specs.Cases.{constant_cases, single_cases, relation_with, cases_of_all, cases_of_any};
ghost use Rattle.path_formula.specs.CaseCounts.{capped, case_count};
ghost use Rattle.path_formula.specs.Pairs.{regions_of, list_of, relation_cases, pair_cases};
ghost use Rattle.path_formula.specs.Splits.{AtomCanSplit, CanSplit, EachCanSplit};
ghost use Rattle.path_formula.specs.declared.pairs.Region.{Region};

use crate::atoms::agree;
use crate::pairs::constant_of;
use crate::{AtomKind, Formula, Shape};
use lin_term::Term;
use sn_ranges::Ranges;
use sn_width::{NoMemory, Rel, SymId, Width};
use std::alloc::Global;

/// The number of cases of the formula with the truth `holds`, and `2^64 - 1` where there are more. The cases
/// are not made. The formula has cases (`can_split`).
#[cycle(count)]
pub fn case_count_of(alloc: Global, formula: &Formula, holds: bool) -> Result<u64, NoMemory>
    requires { CanSplit (view formula.now) }
    ensures { IfOk result (λ count. count ≡ case_count (view formula.now) holds) }
{
    match formula {
        Formula::Truth(truth) => Ok(count_constant(agree(holds, *truth))),
        Formula::Compare { rel, left, right } => {
            count_comparison(alloc, formula, *rel, left, right, holds)
        }
        Formula::Member { value, ranges } => {
            count_membership(alloc, formula, value, ranges, holds)
        }
        Formula::And(parts) => {
            if holds {
                count_all(alloc, parts, true)
            } else {
                count_any(alloc, parts, false)
            }
        }
        Formula::Or(parts) => {
            if holds {
                count_any(alloc, parts, true)
            } else {
                count_all(alloc, parts, false)
            }
        }
        Formula::Not(part) => case_count_of(alloc, part, !holds),
    }
}

/// The product of the numbers of cases of the formulas.
#[cycle(count)]
pub(crate) fn count_all(alloc: Global, parts: &Vec<Formula>, holds: bool) -> Result<u64, NoMemory>
    requires { EachCanSplit (views parts.now.items) }
    ensures { IfOk result (λ count. count ≡ capped (length (cases_of_all (views parts.now.items) holds))) }
{
    let mut count: u64 = 1;
    for part in parts {
        let more = case_count_of(alloc, part, holds)?;
        count = count.saturating_mul(more);
    }
    Ok(count)
}

/// The sum of the numbers of cases of the formulas.
#[cycle(count)]
fn count_any(alloc: Global, parts: &Vec<Formula>, holds: bool) -> Result<u64, NoMemory>
    requires { EachCanSplit (views parts.now.items) }
    ensures { IfOk result (λ count. count ≡ capped (length (cases_of_any (views parts.now.items) holds))) }
{
    let mut count: u64 = 0;
    for part in parts {
        let more = case_count_of(alloc, part, holds)?;
        count = count.saturating_add(more);
    }
    Ok(count)
}

fn count_constant(truth: bool) -> u64
    ensures { result ≡ capped (length (constant_cases truth)) }
{
    if truth { 1 } else { 0 }
}

fn count_single(
    alloc: Global,
    atom: &Formula,
    symbol: SymId,
    width: Width,
    holds: bool,
) -> Result<u64, NoMemory>
    requires { IsOver symbol width (view atom.now) }
    ensures { IfOk result (λ count. count ≡ capped (length
        (single_cases symbol width (λ x. agrees holds (truth_at (view atom.now) (alone symbol x)))))) }
{
    let set = atom.solutions(alloc, symbol, width, holds)?;
    Ok(set.len() as u64)
}

/// The number of regions of a symbol plus the constant of the term.
fn region_count(term: &Term) -> u64
    ensures count { (symbol : SymId) → result ≡ length (list_of (regions_of symbol term.now)) }
    ensures few { result ≤ 2 }
{
    if constant_of(term) == 0 { 1 } else { 2 }
}

/// The number of cases of the relation in one region.
fn relation_count(rel: Rel, holds: bool) -> u64
    ensures count { (left right : Region) → length (relation_cases (relation_with holds rel) left right) ≡ result }
    ensures few { result ≤ 2 }
{
    match (rel, holds) {
        (Rel::Ne, true) => 2,
        (Rel::Eq, false) => 2,
        _ => 1,
    }
}

fn count_pair(rel: Rel, left: &Term, right: &Term, holds: bool) -> u64
    ensures { (s r : SymId) → result ≡ capped (length (pair_cases (relation_with holds rel)
        (list_of (regions_of s left.now)) (list_of (regions_of r right.now)))) }
{
    let lefts = region_count(left);
    let rights = region_count(right);
    let each = relation_count(rel, holds);
    lefts.saturating_mul(rights.saturating_mul(each))
}

fn count_comparison(
    alloc: Global,
    atom: &Formula,
    rel: Rel,
    left: &Term,
    right: &Term,
    holds: bool,
) -> Result<u64, NoMemory>
    requires is { view atom.now ≡ compared rel left.now right.now }
    requires splits { AtomCanSplit (comparison_kind left.now right.now) left.now.width right.now.width }
    ensures { IfOk result (λ count. count ≡ case_count (compared rel left.now right.now) holds) }
{
    match AtomKind::of_comparison(left, right) {
        AtomKind::Constant => Ok(count_constant(agree(holds, atom.truth(&[])))),
        AtomKind::Single { symbol } => count_single(alloc, atom, symbol, left.width(), holds),
        AtomKind::Pair => match (Shape::of(left), Shape::of(right)) {
            (Shape::Symbol { .. }, Shape::Symbol { .. }) => Ok(count_pair(rel, left, right, holds)),
            _ => Ok(0),
        },
        AtomKind::Outside => Ok(0),
    }
}

fn count_membership(
    alloc: Global,
    atom: &Formula,
    value: &Term,
    set: &Ranges,
    holds: bool,
) -> Result<u64, NoMemory>
    requires is { view atom.now ≡ belongs value.now set.now }
    requires splits { AtomCanSplit (membership_kind value.now) value.now.width set.now.width }
    ensures { IfOk result (λ count. count ≡ case_count (belongs value.now set.now) holds) }
{
    match AtomKind::of_membership(value) {
        AtomKind::Constant => Ok(count_constant(agree(holds, atom.truth(&[])))),
        AtomKind::Single { symbol } => count_single(alloc, atom, symbol, value.width(), holds),
        AtomKind::Pair => Ok(0),
        AtomKind::Outside => Ok(0),
    }
}
