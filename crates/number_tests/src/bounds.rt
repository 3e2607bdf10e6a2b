//! Bounds between unknowns, as the solvers take them.

ghost use Rattle.std.specs.Prelude.{◌<◌, IsTrue, All};
ghost use Rattle.difference_solver.specs.Bound.{IsInRange};

use difference_solver::Bound;
use std::alloc::Global;
use std::process::Abort;

/// The most that a bound's number may be.
pub(crate) const LARGEST: i128 = 1 << 66;

/// An unknown, less another one, and the most that this may be.
pub(crate) type Row = (u32, u32, i128);

pub(crate) fn at_most(row: Row) -> Bound {
    let (plus, minus, at_most) = row;
    Bound {
        plus,
        minus,
        at_most,
    }
}

pub(crate) fn push(rt: &impl Abort, bounds: &mut Vec<Bound>, row: Row) {
    bounds.push(at_most(row)).expect(rt, "memory");
}

pub(crate) fn bounds_of(rt: &impl Abort, alloc: Global, rows: &[Row]) -> Vec<Bound> {
    let mut bounds = Vec::new(alloc);
    for row in rows {
        push(rt, &mut bounds, *row);
    }
    bounds
}

fn is_in_range(bound: &Bound, count: u32) -> bool
    ensures { IsTrue result → IsInRange count bound.now }
{
    bound.plus <= count
        && bound.minus <= count
        && -LARGEST <= bound.at_most
        && bound.at_most <= LARGEST
}

pub(crate) fn are_in_range(bounds: &[Bound], count: u32) -> bool
    ensures { IsTrue result → All (IsInRange count) bounds.now }
{
    for bound in bounds {
        if !is_in_range(bound, count) {
            return false;
        }
    }
    true
}

/// Asserts that the integers are these.
pub(crate) fn same(rt: &impl Abort, found: &[i128], wanted: &[i128]) {
    assert_eq!(rt; found, wanted);
}
