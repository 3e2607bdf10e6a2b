//! Equal formulas.

ghost use Rattle.std.specs.Prelude.{◌≡◌, ◌↔◌, IsTrue};
ghost use Rattle.path_formula.specs.View.{view, views};
ghost use Rattle.same_formulas.specs.Same.{AllSame, AreSame, IsComparison, IsMembership, IsTruth};

use lin_term::Term;
use path_formula::Formula;
use sn_ranges::Ranges;
use sn_width::Rel;

/// Whether the formulas are equal: the same connectives, terms and sets, in the same order.
#[tactic(auto, using(crate::proofs::Equal::same_is_equal))]
pub fn same_formula(left: &Formula, right: &Formula) -> bool
    ensures { IsTrue result ↔ (view left.now ≡ view right.now) }
{
    are_same(left, right)
}

#[cycle(same)]
fn are_same(left: &Formula, right: &Formula) -> bool
    ensures { IsTrue result ↔ AreSame (view left.now) (view right.now) }
{
    match left {
        Formula::Truth(truth) => is_truth(*truth, right),
        Formula::Compare {
            rel,
            left: first,
            right: second,
        } => is_comparison(*rel, first, second, right),
        Formula::Member { value, ranges } => is_membership(value, ranges, right),
        Formula::And(parts) => match right {
            Formula::And(others) => all_same(parts, others),
            _ => false,
        },
        Formula::Or(parts) => match right {
            Formula::Or(others) => all_same(parts, others),
            _ => false,
        },
        Formula::Not(part) => match right {
            Formula::Not(other) => are_same(part, other),
            _ => false,
        },
    }
}

#[tactic(auto, using(crate::proofs::Listed::same_length))]
#[cycle(same)]
fn all_same(parts: &Vec<Formula>, others: &Vec<Formula>) -> bool
    ensures { IsTrue result ↔ AllSame (views parts.now.items) (views others.now.items) }
{
    if parts.len() != others.len() {
        return false;
    }
    let mut at = 0;
    for part in parts {
        if !are_same(part, &others[at]) {
            return false;
        }
        at += 1;
    }
    true
}

/// Whether it is this truth.
fn is_truth(truth: bool, formula: &Formula) -> bool
    ensures { IsTrue result ↔ IsTruth truth (view formula.now) }
{
    match formula {
        Formula::Truth(other) => truth == *other,
        _ => false,
    }
}

/// Whether it is this comparison.
fn is_comparison(rel: Rel, left: &Term, right: &Term, formula: &Formula) -> bool
    ensures { IsTrue result ↔ IsComparison rel left.now right.now (view formula.now) }
{
    match formula {
        Formula::Compare {
            rel: relation,
            left: first,
            right: second,
        } => rel == *relation && left.same(first) && right.same(second),
        _ => false,
    }
}

/// Whether it is this membership.
fn is_membership(value: &Term, ranges: &Ranges, formula: &Formula) -> bool
    ensures { IsTrue result ↔ IsMembership value.now ranges.now (view formula.now) }
{
    match formula {
        Formula::Member {
            value: term,
            ranges: set,
        } => value.same(term) && same_ranges(ranges, set),
        _ => false,
    }
}

/// Whether the sets are equal.
fn same_ranges(left: &Ranges, right: &Ranges) -> bool
    ensures { IsTrue result ↔ (left.now ≡ right.now) }
{
    if left.width() != right.width() || left.len() != right.len() {
        return false;
    }
    for index in 0..left.len() {
        if left.range(index) != right.range(index) {
            return false;
        }
    }
    true
}
