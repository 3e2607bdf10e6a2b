//! Truths of conditions.

ghost use Rattle.std.specs.Prelude.{◌≡◌, map};
ghost use Rattle.sefl_syntax.specs.Views.{cond_tree, cond_trees, expr_tree, summand_trees};
ghost use Rattle.job_items.specs.Atoms.{expr_reads, summand_reads, comparison, membership};
ghost use Rattle.job_items.specs.AtomRules.{atom_width};
ghost use Rattle.sefl_meaning.specs.Terms.{compared, looked_up, truth_in, truths_in};
ghost use Rattle.sefl_meaning.specs.View.{carried_of};
ghost use Rattle.instr_steps.specs.Scenes.{GivesBy, scene_of, first_width, width_or_64};

use crate::values::value_of;
use cell_values::{Arithmetic, Scene};
use sefl_meaning::Carried;
use sefl_syntax::{Cond, Expr, RangeList, Sign};
use sn_width::{Rel, StepFault, Width};
use std::alloc::Global;

/// The test of a condition, or its first fault. Every atom is evaluated, from left to right.
#[cycle(truth_of)]
pub fn truth_of<A: Arithmetic>(
    alloc: Global,
    o: &A,
    at: &Scene<'_>,
    state: &Carried<A::Value>,
    test: &Cond,
) -> Result<A::Test, StepFault>
    ensures { GivesBy A.truth (truth_in (A.values o.now) (scene_of at.now) (cond_tree test.now) (carried_of state.now))
        result }
{
    match test {
        Cond::True => Ok(o.always()),
        Cond::Compare { rel, left, right } => compare(alloc, o, at, state, *rel, left, right),
        Cond::Member { value, ranges } => look_up(alloc, o, at, state, value, ranges),
        Cond::And(members) => {
            let tests = truths_of(alloc, o, at, state, members)?;
            Ok(o.all_of(tests))
        }
        Cond::Or(members) => {
            let tests = truths_of(alloc, o, at, state, members)?;
            Ok(o.any_of(tests))
        }
        Cond::Not(member) => {
            let truth = truth_of(alloc, o, at, state, member)?;
            let opposite = o.negation(alloc, truth)?;
            Ok(opposite)
        }
    }
}

#[cycle(truth_of)]
fn truths_of<A: Arithmetic>(
    alloc: Global,
    o: &A,
    at: &Scene<'_>,
    state: &Carried<A::Value>,
    members: &[Cond],
) -> Result<Vec<A::Test>, StepFault>
    ensures { GivesBy (λ tests. map A.truth tests.items)
        (truths_in (A.values o.now) (scene_of at.now) (cond_trees members.now) (carried_of state.now)) result }
{
    let mut tests = Vec::new(alloc);
    for member in members {
        let truth = truth_of(alloc, o, at, state, member)?;
        tests.push(truth)?;
    }
    Ok(tests)
}

fn compare<A: Arithmetic>(
    alloc: Global,
    o: &A,
    at: &Scene<'_>,
    state: &Carried<A::Value>,
    rel: Rel,
    left: &Expr,
    right: &Expr,
) -> Result<A::Test, StepFault>
    ensures { GivesBy A.truth (compared (A.values o.now) (scene_of at.now)
        (atom_width (comparison (expr_tree left.now) (expr_tree right.now)))
        rel (expr_tree left.now) (expr_tree right.now) (carried_of state.now)) result }
{
    let width = compared_width(left, right);
    let left = value_of(alloc, o, at, state, width, left)?;
    let right = value_of(alloc, o, at, state, width, right)?;
    Ok(o.compare(width, rel, left, right))
}

fn look_up<A: Arithmetic>(
    alloc: Global,
    o: &A,
    at: &Scene<'_>,
    state: &Carried<A::Value>,
    value: &Expr,
    ranges: &RangeList,
) -> Result<A::Test, StepFault>
    ensures { GivesBy A.truth (looked_up (A.values o.now) (scene_of at.now)
        (atom_width (membership (expr_tree value.now) ranges.now))
        (expr_tree value.now) ranges.now (carried_of state.now)) result }
{
    let width = or_64(first_width(value));
    let value = value_of(alloc, o, at, state, width, value)?;
    let test = o.member(alloc, width, value, ranges)?;
    Ok(test)
}
/// The width of the first reference in a comparison, and 64 bits without one.
fn compared_width(left: &Expr, right: &Expr) -> Width
    ensures { result ≡ atom_width (comparison (expr_tree left.now) (expr_tree right.now)) }
{
    match first_width(left) {
        Some(width) => width,
        None => or_64(first_width(right)),
    }
}

fn or_64(width: Option<Width>) -> Width
    ensures { result ≡ width_or_64 width }
{
    match width {
        Some(width) => width,
        None => Width::new(64).unwrap(),
    }
}

/// The width of an expression's first reference; None without one.
#[cycle(first_width)]
fn first_width(expr: &Expr) -> Option<Width>
    ensures { result ≡ first_width (expr_reads (expr_tree expr.now)) }
{
    match expr {
        Expr::Const(_) => None,
        Expr::Read(target) => Some(target.width()),
        Expr::Sum { first, rest } => {
            if let Some(width) = first_width(first) {
                return Some(width);
            }
            first_width_among(rest)
        }
    }
}

#[cycle(first_width)]
fn first_width_among(summands: &[(Sign, Expr)]) -> Option<Width>
    ensures { result ≡ first_width (summand_reads (summand_trees summands.now)) }
{
    for (_, operand) in summands {
        if let Some(width) = first_width(operand) {
            return Some(width);
        }
    }
    None
}
