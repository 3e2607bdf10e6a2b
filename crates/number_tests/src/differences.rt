//! Bounds on differences, and what solves them.

ghost use Rattle.std.specs.Prelude.{◌+◌, ◌<◌};

use crate::bounds::{LARGEST, Row, are_in_range, at_most, bounds_of, push, same};
use crate::choices::has_below;
use difference_solver::{Bound, DiffVerdict, solve};
use std::alloc::Global;
use std::process::Abort;

fn answer(rt: &impl Abort, alloc: Global, bounds: &[Bound], count: u32) -> DiffVerdict {
    assert!(rt; count <= 64);
    assert!(rt; bounds.len() < 1000);
    assert!(rt; are_in_range(bounds, count));
    solve(alloc, bounds, count).expect(rt, "memory")
}

/// Asserts the values or the cycle; the other of the two is empty.
fn check_verdict(rt: &impl Abort, verdict: &DiffVerdict, wanted: (&[i128], &[u32])) {
    match verdict {
        DiffVerdict::Values { values } => same(rt, values.as_slice(), wanted.0),
        DiffVerdict::Cycle { bounds } => assert_eq!(rt; bounds.as_slice(), wanted.1),
    }
}

fn check(rt: &impl Abort, alloc: Global, bounds: &[Bound], count: u32, wanted: (&[i128], &[u32])) {
    let verdict = answer(rt, alloc, bounds, count);
    check_verdict(rt, &verdict, wanted);
}

/// Whether the values are 0 and two numbers from 3 to 5, the first of them the lesser one.
fn are_between_three_and_five(verdict: &DiffVerdict) -> bool {
    match verdict {
        DiffVerdict::Values { values } => match values.as_slice() {
            [0, first, second] => 3 <= *first && *first < *second && *second <= 5,
            _ => false,
        },
        DiffVerdict::Cycle { .. } => false,
    }
}

#[test]
fn between_three_and_five(rt: HostRuntime) {
    let bounds = bounds_of(&rt, rt.alloc(), &[(1, 2, -1), (2, 0, 5), (0, 1, -3)]);
    let verdict = answer(&rt, rt.alloc(), bounds.as_slice(), 2);
    assert!(rt; are_between_three_and_five(&verdict));
}

/// Asserts the values or the cycle of the bounds.
fn check_row(rt: &impl Abort, alloc: Global, rows: &[Row], count: u32, wanted: (&[i128], &[u32])) {
    let bounds = bounds_of(rt, alloc, rows);
    check(rt, alloc, bounds.as_slice(), count, wanted);
}

#[test]
fn least_values_and_cycles(rt: HostRuntime) {
    // bounds, the number of unknowns, and the values or the cycle that are found
    const ROWS: &[(&[Row], u32, &[i128], &[u32])] = &[
        // the least of each
        (
            &[(1, 2, -1), (2, 0, 5), (0, 1, -3), (0, 2, 0)],
            2,
            &[0, 3, 4],
            &[],
        ),
        // each below the other
        (&[(1, 2, -1), (2, 1, -1)], 2, &[], &[0, 1]),
        // equal bounds on one pair
        (
            &[(0, 1, -2), (0, 1, -2), (0, 1, -1), (1, 0, 2), (1, 0, 2)],
            1,
            &[0, 2],
            &[],
        ),
        // bounds of an unknown on itself
        (&[(1, 1, 0), (0, 1, 7)], 1, &[0, -7], &[]),
        (&[(1, 1, 0), (1, 1, -1)], 1, &[], &[1]),
        (&[(0, 0, -1)], 0, &[], &[0]),
        (&[], 0, &[0], &[]),
    ];
    for (rows, count, values, cycle) in ROWS {
        check_row(&rt, rt.alloc(), rows, *count, (values, cycle));
    }
}

/// Each unknown from 1 to 64, less the one after it, is at most `step`, and each has a bound from
/// below.
fn chain(rt: &impl Abort, alloc: Global, step: i128) -> Vec<Bound> {
    let mut bounds = Vec::new(alloc);
    for unknown in 1..65 {
        push(rt, &mut bounds, (unknown - 1, unknown, step));
        push(rt, &mut bounds, (0, unknown, 0));
    }
    bounds
}

/// The multiples of `step` from 0 to 64 times.
fn multiples(rt: &impl Abort, alloc: Global, step: i128) -> Vec<i128> {
    let mut values = Vec::new(alloc);
    for times in 0..65u32 {
        values
            .push(step.wrapping_mul(i128::from(times)))
            .expect(rt, "memory");
    }
    values
}

/// Asserts that the values of a chain of this step are the multiples of its opposite.
fn check_chain(rt: &impl Abort, alloc: Global, step: i128, back: i128) {
    let bounds = chain(rt, alloc, back);
    let values = multiples(rt, alloc, step);
    check(rt, alloc, bounds.as_slice(), 64, (values.as_slice(), &[]));
}

#[test]
fn chain_of_64_unknowns(rt: HostRuntime) {
    for (step, back) in [(1, -1), (LARGEST, -LARGEST)] {
        check_chain(&rt, rt.alloc(), step, back);
    }
}

/// The indices around a cycle, and none where there are values.
fn cycle_of(verdict: &DiffVerdict) -> &[u32] {
    match verdict {
        DiffVerdict::Values { .. } => &[],
        DiffVerdict::Cycle { bounds } => bounds.as_slice(),
    }
}

fn closed_chain(rt: &impl Abort, alloc: Global) -> Vec<Bound> {
    let mut bounds = chain(rt, alloc, -1);
    push(rt, &mut bounds, (64, 0, 63));
    bounds
}

/// Asserts that the cycle is one of `length` bounds, and below zero.
fn check_cycle(rt: &impl Abort, bounds: &[Bound], cycle: &[u32], length: usize) {
    assert_eq!(rt; cycle.len(), length);
    assert!(rt; is_negative_cycle(bounds, cycle));
}

#[test]
fn chain_that_is_closed(rt: HostRuntime) {
    let bounds = closed_chain(&rt, rt.alloc());
    let verdict = answer(&rt, rt.alloc(), bounds.as_slice(), 64);
    check_cycle(&rt, bounds.as_slice(), cycle_of(&verdict), 65);
}

fn bound_at(bounds: &[Bound], index: u32) -> Bound {
    bounds
        .get(index as usize)
        .copied()
        .unwrap_or(at_most((0, 0, LARGEST)))
}

/// Whether the bounds at these indices join head to tail in a circle and sum below zero.
fn is_negative_cycle(bounds: &[Bound], indices: &[u32]) -> bool {
    let Some(last) = indices.last() else {
        return false;
    };
    let mut before = bound_at(bounds, *last);
    let mut sum = 0i128;
    for index in indices {
        let bound = bound_at(bounds, *index);
        if before.minus != bound.plus {
            return false;
        }
        sum = sum.saturating_add(bound.at_most);
        before = bound;
    }
    sum < 0
}

/// Numbers that follow one another in a fixed order.
#[derive(Drop)]
struct Generator {
    state: u64,
}

impl Generator {
    fn below(&mut self, limit: u64) -> u64
        requires { 0 < limit }
        ensures { result < limit }
    {
        self.state = self
            .state
            .wrapping_mul(6364136223846793005)
            .wrapping_add(1442695040888963407);
        (self.state >> 33) % limit
    }
}

/// A bound of `count` unknowns, with a number from -2 to 2.
fn small_row(generator: &mut Generator, count: u32) -> Row
    requires { count < 4 }
{
    let plus = generator.below(u64::from(count) + 1) as u32;
    let minus = generator.below(u64::from(count) + 1) as u32;
    let most = i128::from(generator.below(5)) - 2;
    (plus, minus, most)
}

fn small_system(rt: &impl Abort, alloc: Global, generator: &mut Generator, count: u32) -> Vec<Bound>
    requires { count < 4 }
{
    let mut bounds = Vec::new(alloc);
    for _ in 0..generator.below(9) {
        push(rt, &mut bounds, small_row(generator, count));
    }
    bounds
}

fn value_of(values: &[i128], unknown: u32) -> i128 {
    values.get(unknown as usize).copied().unwrap_or(0)
}

fn meet_all(values: &[i128], bounds: &[Bound]) -> bool {
    for bound in bounds {
        let plus = value_of(values, bound.plus);
        if plus.saturating_sub(value_of(values, bound.minus)) > bound.at_most {
            return false;
        }
    }
    true
}

/// A number from -6 to 6.
fn digit(code: u32) -> i128 {
    i128::from(code % 13) - 6
}

/// The least number of each unknown among all lists of numbers from -6 to 6, the first of them 0,
/// that meet all bounds. At most three unknowns with bounds from -2 to 2 need no others.
fn search(bounds: &[Bound], count: u32) -> Option<[i128; 4]> {
    let lists = match count {
        1 => 13,
        2 => 169,
        _ => 2197,
    };
    let mut least: Option<[i128; 4]> = None;
    for code in 0..lists {
        let values = [0, digit(code), digit(code / 13), digit(code / 169)];
        if meet_all(&values, bounds) {
            least = Some(least_of(least, values));
        }
    }
    least
}

fn least_of(before: Option<[i128; 4]>, values: [i128; 4]) -> [i128; 4] {
    match before {
        None => values,
        Some(least) => [
            least[0].min(values[0]),
            least[1].min(values[1]),
            least[2].min(values[2]),
            least[3].min(values[3]),
        ],
    }
}

fn are_bounded_below(bounds: &[Bound], count: u32) -> bool
    requires { count < 4 }
{
    for unknown in 0..count {
        if !has_below(bounds, unknown + 1) {
            return false;
        }
    }
    true
}

/// How many answers of each kind were compared.
#[derive(Drop)]
struct Tally {
    cycles: u32,
    values: u32,
    least: u32,
}

fn check_least(rt: &impl Abort, values: &[i128], count: u32, least: [i128; 4])
    requires { count < 4 }
{
    same(rt, values, &least[..count as usize + 1]);
}

fn check_values(rt: &impl Abort, bounds: &[Bound], count: u32, values: &[i128])
    requires { count < 4 }
{
    assert!(rt; values.len() == count as usize + 1, "{values:?}");
    assert!(rt;
        value_of(values, 0) == 0 && meet_all(values, bounds),
        "{values:?}"
    );
}

/// Compares a verdict with the least values of a plain search.
fn compare_verdict(
    rt: &impl Abort,
    bounds: &[Bound],
    count: u32,
    verdict: &DiffVerdict,
    tally: &mut Tally,
)
    requires { count < 4 }
{
    match (verdict, search(bounds, count)) {
        (DiffVerdict::Values { values }, Some(least)) => {
            check_values(rt, bounds, count, values.as_slice());
            tally.values = tally.values.saturating_add(1);
            if are_bounded_below(bounds, count) {
                check_least(rt, values.as_slice(), count, least);
                tally.least = tally.least.saturating_add(1);
            }
        }
        (DiffVerdict::Cycle { bounds: cycle }, None) => {
            assert!(rt; is_negative_cycle(bounds, cycle.as_slice()), "{cycle:?}");
            tally.cycles = tally.cycles.saturating_add(1);
        }
        (_, least) => panic!(rt; "another verdict beside {least:?}"),
    }
}

fn compare(rt: &impl Abort, alloc: Global, bounds: &[Bound], count: u32, tally: &mut Tally)
    requires { count < 4 }
{
    let verdict = answer(rt, alloc, bounds, count);
    compare_verdict(rt, bounds, count, &verdict, tally);
}

/// Compares the answer of the next system of `count` unknowns.
fn compare_next(
    rt: &impl Abort,
    alloc: Global,
    generator: &mut Generator,
    count: u32,
    tally: &mut Tally,
)
    requires { count < 4 }
{
    let bounds = small_system(rt, alloc, generator, count);
    compare(rt, alloc, bounds.as_slice(), count, tally);
}

#[test]
fn as_a_plain_search_says(rt: HostRuntime) {
    let mut generator = Generator { state: 1 };
    let mut tally = Tally {
        cycles: 0,
        values: 0,
        least: 0,
    };
    for number in 0..2000u32 {
        compare_next(&rt, rt.alloc(), &mut generator, 1 + number % 3, &mut tally);
    }
    assert!(rt; tally.cycles > 100 && tally.values > 100 && tally.least > 100);
}
