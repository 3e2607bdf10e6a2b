//! The order of the decisions that an instruction offers.

ghost use Rattle.std.specs.Prelude.{◌≡◌, ◌↔◌, ◌<◌, suc, drop, IsTrue};
ghost use Rattle.std.specs.List.{AllByRecursion};
ghost use Rattle.sefl_meaning.specs.Order.{rank};
ghost use Rattle.whole_checks.specs.Chains.{IsFirst, IsNext, base};

use sefl_meaning::Decision;

/// The place of a decision in the order of all.
fn rank(decision: Decision) -> u64
    ensures value { result ≡ rank decision }
    ensures few { result < 4294967300 }
{
    match decision {
        Decision::Then => 0,
        Decision::Else => 1,
        Decision::Pass => 2,
        Decision::Broken => 3,
        Decision::Copy(number) => 4 + u64::from(number),
    }
}

/// The least place of a decision that the same instruction offers.
fn base(decision: Decision) -> u64
    ensures { result ≡ base decision }
{
    match decision {
        Decision::Then => 0,
        Decision::Else => 0,
        Decision::Pass => 2,
        Decision::Broken => 2,
        Decision::Copy(_) => 4,
    }
}

/// Whether nothing that is offered beside a decision comes before it.
fn is_first(decision: Decision) -> bool
    ensures { IsTrue result ↔ IsFirst decision }
{
    rank(decision) == base(decision)
}

/// Whether nothing comes between two decisions of one instruction.
pub(crate) fn is_next(one: Decision, other: Decision) -> bool
    ensures { IsTrue result ↔ IsNext one other }
{
    rank(other) == rank(one) + 1
}

/// Whether each of these from a place on is the first that is offered.
pub(crate) fn are_first(decisions: &[Decision], from: usize) -> bool
    ensures { IsTrue result ↔ AllByRecursion IsFirst (drop from decisions.now) }
{
    for at in from..decisions.len() {
        if !is_first(decisions[at]) {
            return false;
        }
    }
    true
}
