//! The cases of a comparison of two symbols plus constants.

ghost use Rattle.std.specs.Prelude.{◌≡◌, ◌≤◌, ◌<◌, ◌^◌, ◌%◌, [], ◌∷◌, ◌++◌, pos, IfOk, OnOk, IfSome, option_to_list};
ghost use Rattle.path_formula.specs.Bounds.{lists_of};
ghost use Rattle.path_formula.specs.Pairs.{IsNear, AreNear, weak_bound, strict_bound, low_region, high_region, regions_of, list_of, in_regions, region_cases, row_cases, pair_cases};

use crate::sym_bound::SymBound;
use lin_term::Term;
use sn_width::{NoMemory, Num, Rel, SymId, Width};
use std::alloc::Global;

/// Values of a symbol, for which its sum with a constant is the symbol plus the offset.
#[derive(Clone, Copy)]
pub(crate) struct Region {
    symbol: SymId,
    /// What bounds the values, if anything does.
    bound: Option<SymBound>,
    offset: i128,
}

/// All values of a symbol.
#[derive(Clone, Copy)]
pub(crate) struct Regions {
    /// Those for which the sum does not pass the width.
    low: Region,
    /// Those for which it does, if there are any.
    high: Option<Region>,
}

/// `2^w`.
fn size(width: Width) -> i128
    requires { width ≤ 64 }
    ensures value { result ≡ pos (2 ^ width) }
    ensures most { 2 ^ width ≤ 2 ^ 64 }
{
    width.max() as i128 + 1
}

/// The values of the symbol whose sum with the constant is a number of the width.
fn low(symbol: SymId, width: Width, constant: Num) -> Region
    requires narrow { width ≤ 64 }
    requires fits { constant < 2 ^ width }
    ensures region { result ≡ low_region symbol width constant }
    ensures near { IsNear result.offset }
{
    let at_most = size(width) - constant as i128 - 1;
    let bound = SymBound {
        plus: Some(symbol),
        minus: None,
        at_most,
    };
    Region {
        symbol,
        bound: if constant == 0 { None } else { Some(bound) },
        offset: constant as i128,
    }
}

/// The other values; None where there are none.
fn high(symbol: SymId, width: Width, constant: Num) -> Option<Region>
    requires narrow { width ≤ 64 }
    requires fits { constant < 2 ^ width }
    ensures region { result ≡ high_region symbol width constant }
    ensures near { IfSome result (λ region. IsNear region.offset) }
{
    if constant == 0 {
        return None;
    }
    let offset = constant as i128 - size(width);
    let bound = SymBound {
        plus: None,
        minus: Some(symbol),
        at_most: offset,
    };
    Some(Region {
        symbol,
        bound: Some(bound),
        offset,
    })
}

/// The constant of the term, which is a number of its width.
pub(crate) fn constant_of(term: &Term) -> Num
    ensures value { result ≡ term.now.constant % 2 ^ term.now.width }
    ensures fits { result < 2 ^ term.now.width }
{
    term.constant()
}

/// The regions of the symbol plus the constant of the term.
pub(crate) fn regions_with(symbol: SymId, term: &Term) -> Regions
    requires { term.now.width ≤ 64 }
    ensures regions { result ≡ regions_of symbol term.now }
    ensures near { AreNear result }
{
    let width = term.width();
    let constant = constant_of(term);
    Regions {
        low: low(symbol, width, constant),
        high: high(symbol, width, constant),
    }
}

/// The value in the first region is at most that in the second.
#[tactic(auto, unfolding(crate::specs::Pairs::weak_bound))]
fn at_most(first: Region, second: Region) -> SymBound
    requires first { IsNear first.offset }
    requires second { IsNear second.offset }
    ensures { result ≡ weak_bound first second }
{
    SymBound {
        plus: Some(first.symbol),
        minus: Some(second.symbol),
        at_most: second.offset - first.offset,
    }
}

/// The value in the first region is below that in the second.
#[tactic(auto, unfolding(crate::specs::Pairs::strict_bound))]
fn below(first: Region, second: Region) -> SymBound
    requires first { IsNear first.offset }
    requires second { IsNear second.offset }
    ensures { result ≡ strict_bound first second }
{
    SymBound {
        plus: Some(first.symbol),
        minus: Some(second.symbol),
        at_most: second.offset - first.offset - 1,
    }
}

fn push_bound(case: &mut Vec<SymBound>, bound: Option<SymBound>) -> Result<(), NoMemory>
    ensures { OnOk result (case.new.items ≡ case.old.items ++ option_to_list bound) }
{
    match bound {
        None => Ok(()),
        Some(bound) => {
            case.push(bound)?;
            Ok(())
        }
    }
}

/// Adds the case with the bounds of the two regions and these.
fn push_case(
    alloc: Global,
    cases: &mut Vec<Vec<SymBound>>,
    left: Region,
    right: Region,
    bounds: &[SymBound],
) -> Result<(), NoMemory>
    ensures { OnOk result (lists_of cases.new.items
        ≡ lists_of cases.old.items ++ in_regions left right bounds.now ∷ []) }
{
    let mut case = Vec::new(alloc);
    push_bound(&mut case, left.bound)?;
    push_bound(&mut case, right.bound)?;
    case.extend_from_slice(bounds)?;
    cases.push(case)?;
    Ok(())
}

/// Adds the cases with each symbol in its region.
fn push_region(
    alloc: Global,
    cases: &mut Vec<Vec<SymBound>>,
    rel: Rel,
    left: Region,
    right: Region,
) -> Result<(), NoMemory>
    requires left { IsNear left.offset }
    requires right { IsNear right.offset }
    ensures { OnOk result (lists_of cases.new.items
        ≡ lists_of cases.old.items ++ region_cases rel left right) }
{
    match rel {
        Rel::Lt => push_case(alloc, cases, left, right, &[below(left, right)]),
        Rel::Le => push_case(alloc, cases, left, right, &[at_most(left, right)]),
        Rel::Gt => push_case(alloc, cases, left, right, &[below(right, left)]),
        Rel::Ge => push_case(alloc, cases, left, right, &[at_most(right, left)]),
        Rel::Eq => {
            let bounds = [at_most(left, right), at_most(right, left)];
            push_case(alloc, cases, left, right, &bounds)
        }
        Rel::Ne => {
            push_case(alloc, cases, left, right, &[below(left, right)])?;
            push_case(alloc, cases, left, right, &[below(right, left)])
        }
    }
}

/// Adds the cases with the first symbol in its region, and the second in each of its two.
fn push_row(
    alloc: Global,
    cases: &mut Vec<Vec<SymBound>>,
    rel: Rel,
    left: Region,
    rights: Regions,
) -> Result<(), NoMemory>
    requires left { IsNear left.offset }
    requires rights { AreNear rights }
    ensures { OnOk result (lists_of cases.new.items
        ≡ lists_of cases.old.items ++ row_cases rel (list_of rights) left) }
{
    push_region(alloc, cases, rel, left, rights.low)?;
    match rights.high {
        None => Ok(()),
        Some(high) => push_region(alloc, cases, rel, left, high),
    }
}

/// The cases of the relation between the values in these regions.
pub(crate) fn pair(
    alloc: Global,
    rel: Rel,
    lefts: Regions,
    rights: Regions,
) -> Result<Vec<Vec<SymBound>>, NoMemory>
    requires lefts { AreNear lefts }
    requires rights { AreNear rights }
    ensures { IfOk result (λ cases. lists_of cases.items ≡ pair_cases rel (list_of lefts) (list_of rights)) }
{
    let mut cases = Vec::new(alloc);
    push_row(alloc, &mut cases, rel, lefts.low, rights)?;
    match lefts.high {
        None => Ok(cases),
        Some(high) => {
            push_row(alloc, &mut cases, rel, high, rights)?;
            Ok(cases)
        }
    }
}
