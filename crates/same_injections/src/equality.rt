//! Whether two injections are the same.

ghost use Rattle.std.specs.Prelude.{◌≡◌, ◌↔◌, IsTrue};
ghost use Rattle.net_check.specs.Network.{entry};
ghost use Rattle.sefl_syntax.specs.Views.{cond_tree, cond_trees, expr_tree, summand_trees};
ghost use Rattle.same_injections.specs.SameTests.{AreAlike, IsComparison, IsConstant, IsMembership, IsReading, SameCond, SameConds, SameExpr, SameFields, SameSummands};

use net_check::Injection;
use sefl_syntax::{Addr, Cond, Expr, Name, RangeList, RawField, RawInjection, Sign, Target};
use sn_width::{Num, Rel};

/// Whether the injections are the same as the jobs have them: node, port, tags, fields and tests, in their order.
#[tactic(auto, using(crate::proofs::SameLemmas::alike_is_same))]
pub fn same_injection(left: &Injection, right: &Injection) -> bool
    ensures { IsTrue result ↔ ((entry left.now).own ≡ (entry right.now).own) }
{
    are_alike(left.raw(), right.raw())
}

fn are_alike(left: &RawInjection, right: &RawInjection) -> bool
    ensures { IsTrue result ↔ AreAlike left.now right.now }
{
    same_name(&left.node, &right.node)
        && left.port == right.port
        && same_tags(&left.tags, &right.tags)
        && same_fields(&left.fields, &right.fields)
        && same_conds(&left.tests, &right.tests)
}

fn same_name(left: &Name, right: &Name) -> bool
    ensures { IsTrue result ↔ (left.now ≡ right.now) }
{
    left == right
}

fn same_tags(left: &[(Name, Addr)], right: &[(Name, Addr)]) -> bool
    ensures { IsTrue result ↔ (left.now ≡ right.now) }
{
    left == right
}

#[tactic(auto, using(crate::proofs::SameLemmas::as_many_fields))]
fn same_fields(fields: &Vec<RawField>, others: &Vec<RawField>) -> bool
    ensures { IsTrue result ↔ SameFields fields.now.items others.now.items }
{
    if fields.len() != others.len() {
        return false;
    }
    let mut at = 0;
    for field in fields {
        if !same_field(field, &others[at]) {
            return false;
        }
        at += 1;
    }
    true
}

#[tactic(auto, using(crate::proofs::SameLemmas::same_field_is))]
fn same_field(left: &RawField, right: &RawField) -> bool
    ensures { IsTrue result ↔ (left.now ≡ right.now) }
{
    same_target(&left.target, &right.target) && left.value == right.value
}

fn same_target(left: &Target, right: &Target) -> bool
    ensures { IsTrue result ↔ (left.now ≡ right.now) }
{
    left == right
}

fn same_ranges(left: &[(Num, Num)], right: &[(Num, Num)]) -> bool
    ensures { IsTrue result ↔ (left.now ≡ right.now) }
{
    left == right
}

#[cycle(same_cond)]
fn same_cond(left: &Cond, right: &Cond) -> bool
    ensures { IsTrue result ↔ SameCond (cond_tree left.now) (cond_tree right.now) }
{
    match left {
        Cond::True => match right {
            Cond::True => true,
            _ => false,
        },
        Cond::Compare {
            rel,
            left: first,
            right: second,
        } => is_comparison(*rel, first, second, right),
        Cond::Member { value, ranges } => is_membership(value, ranges, right),
        Cond::And(members) => match right {
            Cond::And(others) => same_conds(members, others),
            _ => false,
        },
        Cond::Or(members) => match right {
            Cond::Or(others) => same_conds(members, others),
            _ => false,
        },
        Cond::Not(member) => match right {
            Cond::Not(other) => same_cond(member, other),
            _ => false,
        },
    }
}

#[tactic(auto, using(crate::proofs::SameLemmas::as_many_conds))]
#[cycle(same_cond)]
fn same_conds(members: &Vec<Cond>, others: &Vec<Cond>) -> bool
    ensures { IsTrue result ↔ SameConds (cond_trees members.now.items) (cond_trees others.now.items) }
{
    if members.len() != others.len() {
        return false;
    }
    let mut at = 0;
    for member in members {
        if !same_cond(member, &others[at]) {
            return false;
        }
        at += 1;
    }
    true
}

/// Whether it is this comparison.
fn is_comparison(rel: Rel, left: &Expr, right: &Expr, cond: &Cond) -> bool
    ensures { IsTrue result ↔ IsComparison rel (expr_tree left.now) (expr_tree right.now) (cond_tree cond.now) }
{
    match cond {
        Cond::Compare {
            rel: relation,
            left: first,
            right: second,
        } => rel == *relation && same_expr(left, first) && same_expr(right, second),
        _ => false,
    }
}

/// Whether it is this membership.
fn is_membership(value: &Expr, ranges: &RangeList, cond: &Cond) -> bool
    ensures { IsTrue result ↔ IsMembership (expr_tree value.now) ranges.now (cond_tree cond.now) }
{
    match cond {
        Cond::Member {
            value: other,
            ranges: list,
        } => same_expr(value, other) && same_ranges(ranges.listed(), list.listed()),
        _ => false,
    }
}

#[tactic(auto, using(crate::proofs::SameLemmas::expr_tree_Sum))]
#[cycle(same_expr)]
fn same_expr(left: &Expr, right: &Expr) -> bool
    ensures { IsTrue result ↔ SameExpr (expr_tree left.now) (expr_tree right.now) }
{
    match left {
        Expr::Const(number) => is_constant(*number, right),
        Expr::Read(target) => is_reading(target, right),
        Expr::Sum { first, rest } => match right {
            Expr::Sum {
                first: start,
                rest: others,
            } => same_expr(first, start) && same_summands(rest, others),
            _ => false,
        },
    }
}

#[tactic(auto, using(crate::proofs::SameLemmas::as_many_summands))]
#[cycle(same_expr)]
fn same_summands(summands: &Vec<(Sign, Expr)>, others: &Vec<(Sign, Expr)>) -> bool
    ensures { IsTrue result ↔ SameSummands (summand_trees summands.now.items) (summand_trees others.now.items) }
{
    if summands.len() != others.len() {
        return false;
    }
    let mut at = 0;
    for (sign, operand) in summands {
        let (other_sign, other) = &others[at];
        if *sign != *other_sign || !same_expr(operand, other) {
            return false;
        }
        at += 1;
    }
    true
}

/// Whether it is this number.
fn is_constant(number: Num, expr: &Expr) -> bool
    ensures { IsTrue result ↔ IsConstant number (expr_tree expr.now) }
{
    match expr {
        Expr::Const(other) => number == *other,
        _ => false,
    }
}

/// Whether it reads this cell.
fn is_reading(target: &Target, expr: &Expr) -> bool
    ensures { IsTrue result ↔ IsReading target.now (expr_tree expr.now) }
{
    match expr {
        Expr::Read(other) => same_target(target, other),
        _ => false,
    }
}
