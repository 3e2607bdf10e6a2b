//! The truth of a formula at values of its symbols.

ghost use Rattle.std.specs.Prelude.{◌≡◌};
ghost use Rattle.path_formula.specs.Formulas.{truth_at, all_true, any_true};
ghost use Rattle.path_formula.specs.View.{view, views};

use crate::formula::Formula;
use sn_width::Num;

#[cycle(truth)]
pub(crate) fn truth_of(formula: &Formula, values: &[Num]) -> bool
    ensures { result ≡ truth_at (view formula.now) values.now }
{
    match formula {
        Formula::Truth(truth) => *truth,
        Formula::Compare { rel, left, right } => rel.holds(left.value(values), right.value(values)),
        Formula::Member { value, ranges } => ranges.has(value.value(values)),
        Formula::And(parts) => all_hold(parts, values),
        Formula::Or(parts) => any_holds(parts, values),
        Formula::Not(part) => !truth_of(part, values),
    }
}

#[cycle(truth)]
fn all_hold(parts: &Vec<Formula>, values: &[Num]) -> bool
    ensures { result ≡ all_true (views parts.now.items) values.now }
{
    for part in parts {
        if !truth_of(part, values) {
            return false;
        }
    }
    true
}

#[cycle(truth)]
fn any_holds(parts: &Vec<Formula>, values: &[Num]) -> bool
    ensures { result ≡ any_true (views parts.now.items) values.now }
{
    for part in parts {
        if truth_of(part, values) {
            return true;
        }
    }
    false
}
