//! Formulas with more cases than can be listed, which nothing looks into where it need not.

ghost use Rattle.std.specs.Prelude.{IsTrue};
ghost use Rattle.path_formula.specs.Typed.{AreTyped, IsTyped};
ghost use Rattle.path_formula.specs.View.{view as tree_of, views};

use crate::build::Atom::*;
use crate::build::Side::*;
use crate::build::{bits, differ, formula, free, is_formula_of, let_go, with_formula};
use crate::decisions::Wanted::Refuted;
use crate::decisions::{check_decision, is_accepted};
use lin_term::Term;
use path_cond::PathCond;
use path_formula::Formula;
use refutation_check::{Listed, Refutation, Refute};
use sn_ranges::Ranges;
use sn_width::{Num, Rel, SymId};
use std::alloc::Global;
use std::process::Abort;

/// How many members a formula has.
const MEMBERS: usize = 40;

/// Whether each formula is one of the condition's.
fn are_formulas_of(cond: &PathCond, parts: &[Formula]) -> bool
    ensures { IsTrue result → AreTyped cond.now.widths (views parts.now) }
{
    for part in parts {
        if !is_formula_of(cond, part) {
            return false;
        }
    }
    true
}

/// That all of the formulas hold.
fn all_of(rt: &impl Abort, cond: &PathCond, parts: Vec<Formula>) -> Formula
    ensures { IsTyped cond.now.widths (tree_of result) }
{
    assert!(rt; are_formulas_of(cond, &parts));
    Formula::And(parts)
}

fn with_all(
    rt: &impl Abort,
    alloc: Global,
    cond: PathCond,
    parts: Vec<Formula>,
    holds: bool,
) -> PathCond {
    let formula = all_of(rt, &cond, parts);
    let next = with_formula(rt, alloc, &cond, formula, holds);
    let_go(cond);
    next
}

fn push(rt: &impl Abort, parts: &mut Vec<Formula>, part: Formula) {
    parts.push(part).expect(rt, "memory");
}

/// Forty times that the two symbols of 8 bits differ: 2^40 cases.
fn forty(rt: &impl Abort, alloc: Global) -> Vec<Formula> {
    let mut parts = Vec::new(alloc);
    for _ in 0..MEMBERS {
        push(rt, &mut parts, formula(rt, alloc, bits(8), differ(0, 1)));
    }
    parts
}

/// The same, and a falsehood: no case.
fn forty_and_false(rt: &impl Abort, alloc: Global) -> Vec<Formula> {
    let mut parts = forty(rt, alloc);
    push(rt, &mut parts, Formula::Truth(false));
    parts
}

/// That the two symbols differ, and that 1 is 2: no case.
fn differ_and_false(rt: &impl Abort, alloc: Global) -> Vec<Formula> {
    let mut parts = Vec::new(alloc);
    push(rt, &mut parts, formula(rt, alloc, bits(8), differ(0, 1)));
    let one_is_two = Compare(Number(1), Rel::Eq, Number(2));
    push(rt, &mut parts, formula(rt, alloc, bits(8), one_is_two));
    parts
}

#[test]
fn forty_members_without_a_case_are_refuted(rt: HostRuntime) {
    let parts = forty_and_false(&rt, rt.alloc());
    let cond = condition_of(&rt, rt.alloc(), parts, true);
    check_decision(&rt, rt.alloc(), cond, Refuted);
}

#[test]
fn forty_members_before_a_formula_without_cases(rt: HostRuntime) {
    let many = condition_of(&rt, rt.alloc(), forty(&rt, rt.alloc()), true);
    let parts = differ_and_false(&rt, rt.alloc());
    let cond = with_all(&rt, rt.alloc(), many, parts, true);
    check_decision(&rt, rt.alloc(), cond, Refuted);
}

fn push_step(rt: &impl Abort, steps: &mut Vec<Refute>, step: Refute) {
    steps.push(step).expect(rt, "memory");
}

/// A split of the first formula.
fn first_split(alloc: Global) -> Refute {
    Refute::Split {
        pick: 0,
        way: Listed::from_vec(Vec::new(alloc)),
    }
}

/// `count` splits of the first formula.
fn splits(rt: &impl Abort, alloc: Global, count: u32) -> Refutation {
    let mut steps = Vec::new(alloc);
    for _ in 0..count {
        push_step(rt, &mut steps, first_split(alloc));
    }
    Listed::from_vec(steps)
}

/// `count` times the ranges of the first symbol's domain.
fn divisions(rt: &impl Abort, alloc: Global, count: u32) -> Refutation {
    let mut steps = Vec::new(alloc);
    for _ in 0..count {
        push_step(rt, &mut steps, Refute::Domain { symbol: SymId(0) });
    }
    Listed::from_vec(steps)
}

/// A condition over two symbols of 8 bits, whose formulas together must have this truth.
fn condition_of(rt: &impl Abort, alloc: Global, parts: Vec<Formula>, holds: bool) -> PathCond {
    let cond = free(rt, alloc, bits(8), 2);
    with_all(rt, alloc, cond, parts, holds)
}

/// Whether `count` splits are accepted.
fn accepts_splits(rt: &impl Abort, alloc: Global, cond: &PathCond, count: u32) -> bool {
    let steps = splits(rt, alloc, count);
    is_accepted(rt, alloc, &steps, cond)
}

/// Asserts which numbers of splits are accepted.
fn check_counts(rt: &impl Abort, alloc: Global, cond: &PathCond, rows: &[(u32, bool)]) {
    for (count, wanted) in rows {
        let accepts = accepts_splits(rt, alloc, cond, *count);
        assert!(rt; accepts == *wanted, "{count}");
    }
}

/// The same of a condition over two symbols of 8 bits, whose formulas together must have this truth.
fn check_splits(
    rt: &impl Abort,
    alloc: Global,
    parts: Vec<Formula>,
    holds: bool,
    rows: &[(u32, bool)],
) {
    let cond = condition_of(rt, alloc, parts, holds);
    check_counts(rt, alloc, &cond, rows);
    let_go(cond);
}

#[test]
fn a_split_is_refused_where_it_has_more_cases_than_steps_are_left(rt: HostRuntime) {
    let parts = forty_and_false(&rt, rt.alloc());
    check_splits(&rt, rt.alloc(), parts, true, &[(1, true), (2, false)]);
}

#[test]
fn splits_of_forty_members_are_refused(rt: HostRuntime) {
    let parts = forty(&rt, rt.alloc());
    let rows = [(1, false), (2, false), (1000, false)];
    check_splits(&rt, rt.alloc(), parts, true, &rows);
}

#[test]
fn a_split_of_the_other_truth_is_refused(rt: HostRuntime) {
    let parts = forty_and_false(&rt, rt.alloc());
    check_splits(&rt, rt.alloc(), parts, false, &[(1, false)]);
}

/// A set of `count` ranges of one number each.
fn scattered(rt: &impl Abort, alloc: Global, count: u32) -> Ranges {
    let mut pairs = Vec::new(alloc);
    for place in 0..count {
        let value = Num::from(place) * 2;
        pairs.push((value, value)).expect(rt, "memory");
    }
    Ranges::from_list(alloc, bits(32), &pairs).expect(rt, "ranges")
}

/// That the first symbol of 32 bits is in 32,000 ranges.
fn is_in_many_ranges(rt: &impl Abort, alloc: Global) -> Formula {
    let value = Term::of_symbol(alloc, bits(32), SymId(0)).expect(rt, "memory");
    let ranges = scattered(rt, alloc, 32_000);
    Formula::member(alloc, value, ranges).expect(rt, "memory")
}

fn in_many_ranges(rt: &impl Abort, alloc: Global) -> PathCond {
    let mut parts = Vec::new(alloc);
    push(rt, &mut parts, is_in_many_ranges(rt, alloc));
    let cond = free(rt, alloc, bits(32), 1);
    with_all(rt, alloc, cond, parts, true)
}

/// Asserts that `count` divisions are refused.
fn check_divisions(rt: &impl Abort, alloc: Global, cond: &PathCond, count: u32) {
    let steps = divisions(rt, alloc, count);
    assert!(rt; !is_accepted(rt, alloc, &steps, cond));
}

#[test]
fn a_long_row_of_divisions_is_refused(rt: HostRuntime) {
    let cond = in_many_ranges(&rt, rt.alloc());
    for count in [1, 20_000, 40_000] {
        check_divisions(&rt, rt.alloc(), &cond, count);
    }
    let_go(cond);
}
