//! Choices of cases, and the least integers that meet them.

ghost use Rattle.std.specs.Prelude.{◌+◌, ◌<◌, ◌≤◌, IsTrue, All, length};
ghost use Rattle.difference_solver.specs.Bound.{IsInRange};
ghost use Rattle.difference_solver.specs.Choices.{lists_of, cases_of, HasBelow, EachHasBelow, OneHasBelow, AreBelow, AreInRange};

use crate::bounds;
use Plain::{OneOf, Within};
use Seen::{Cycle, Split};
use difference_solver::{Bound, Choice, Outcome, Step, find_least};
use std::alloc::Global;
use std::process::Abort;

fn choice_is_in_range(choice: &Choice, count: u32) -> bool
    ensures { IsTrue result → All (All (IsInRange count)) (cases_of choice.now) }
{
    for case in &choice.cases {
        if !bounds::are_in_range(case.as_slice(), count) {
            return false;
        }
    }
    true
}

fn are_in_range(choices: &[Choice], count: u32) -> bool
    ensures { IsTrue result → AreInRange count (lists_of choices.now) }
{
    for choice in choices {
        if !choice_is_in_range(choice, count) {
            return false;
        }
    }
    true
}

pub(crate) fn has_below(case: &[Bound], unknown: u32) -> bool
    ensures { IsTrue result → HasBelow unknown case.now }
{
    for bound in case {
        if bound.plus == 0 && bound.minus == unknown {
            return true;
        }
    }
    false
}

fn each_has_below(choice: &Choice, unknown: u32) -> bool
    ensures { IsTrue result → EachHasBelow unknown (cases_of choice.now) }
{
    for case in &choice.cases {
        if !has_below(case.as_slice(), unknown) {
            return false;
        }
    }
    true
}

fn one_has_below(choices: &[Choice], unknown: u32) -> bool
    ensures { IsTrue result → OneHasBelow unknown (lists_of choices.now) }
{
    for choice in choices {
        if each_has_below(choice, unknown) {
            return true;
        }
    }
    false
}

fn are_below(choices: &[Choice], count: u32) -> bool
    requires { count ≤ 64 }
    ensures { IsTrue result → AreBelow count (lists_of choices.now) }
{
    for unknown in 0..count {
        if !one_has_below(choices, unknown + 1) {
            return false;
        }
    }
    true
}

fn found(rt: &impl Abort, alloc: Global, choices: &[Choice], count: u32) -> Outcome {
    assert!(rt; count <= 64);
    assert!(rt; choices.len() < 1_000_000);
    assert!(rt; are_in_range(choices, count));
    assert!(rt; are_below(choices, count));
    find_least(alloc, choices, count).expect(rt, "memory")
}

/// A choice of plain rows.
#[derive(Clone, Copy)]
enum Plain<'a> {
    /// The unknown lies in one of the ranges.
    Within(u32, &'a [(i128, i128)]),
    /// One bound is to be met of these.
    OneOf(&'a [bounds::Row]),
}

fn within(rt: &impl Abort, alloc: Global, unknown: u32, range: (i128, i128)) -> Vec<Bound> {
    let low = (0, unknown, 0i128.wrapping_sub(range.0));
    bounds::bounds_of(rt, alloc, &[low, (unknown, 0, range.1)])
}

fn push_case(rt: &impl Abort, cases: &mut Vec<Vec<Bound>>, case: Vec<Bound>) {
    cases.push(case).expect(rt, "memory");
}

fn cases_within(
    rt: &impl Abort,
    alloc: Global,
    unknown: u32,
    ranges: &[(i128, i128)],
) -> Vec<Vec<Bound>> {
    let mut cases = Vec::new(alloc);
    for range in ranges {
        push_case(rt, &mut cases, within(rt, alloc, unknown, *range));
    }
    cases
}

fn cases_of_rows(rt: &impl Abort, alloc: Global, rows: &[bounds::Row]) -> Vec<Vec<Bound>> {
    let mut cases = Vec::new(alloc);
    for row in rows {
        push_case(rt, &mut cases, bounds::bounds_of(rt, alloc, &[*row]));
    }
    cases
}

fn choice_of(rt: &impl Abort, alloc: Global, plain: Plain<'_>) -> Choice {
    let cases = match plain {
        Plain::Within(unknown, ranges) => cases_within(rt, alloc, unknown, ranges),
        Plain::OneOf(rows) => cases_of_rows(rt, alloc, rows),
    };
    Choice { cases }
}

fn push(rt: &impl Abort, choices: &mut Vec<Choice>, choice: Choice) {
    choices.push(choice).expect(rt, "memory");
}

fn choices_of(rt: &impl Abort, alloc: Global, all: &[Plain<'_>]) -> Vec<Choice> {
    let mut choices = Vec::new(alloc);
    for plain in all {
        push(rt, &mut choices, choice_of(rt, alloc, *plain));
    }
    choices
}

/// Drops the choices, which is proved once here and not in each caller.
fn let_go(_choices: Vec<Choice>) {}

/// A step of a refutation: a split of a choice, or a cycle of this many bounds.
enum Seen {
    Split(u32),
    Cycle(usize),
}

fn is_seen(step: &Step, seen: &Seen) -> bool {
    match (step, seen) {
        (Step::Split { choice }, Seen::Split(wanted)) => choice == wanted,
        (Step::Cycle { bounds }, Seen::Cycle(length)) => bounds.len() == *length,
        _ => false,
    }
}

fn are_seen(steps: &[Step], seen: &[Seen]) -> bool {
    steps.len() == seen.len()
        && steps
            .iter()
            .zip(seen.iter())
            .all(|(step, wanted)| is_seen(step, wanted))
}

/// Choices, and what is found: values or steps; the other list is empty.
struct Row {
    choices: &'static [Plain<'static>],
    unknowns: u32,
    values: &'static [i128],
    steps: &'static [Seen],
}

fn check_outcome(rt: &impl Abort, outcome: &Outcome, row: &Row) {
    match outcome {
        Outcome::Least { values } => bounds::same(rt, values.as_slice(), row.values),
        Outcome::Refuted { steps } => assert!(rt; are_seen(steps.as_slice(), row.steps)),
    }
}

fn check_found(rt: &impl Abort, alloc: Global, choices: &[Choice], row: &Row) {
    let outcome = found(rt, alloc, choices, row.unknowns);
    check_outcome(rt, &outcome, row);
}

fn check(rt: &impl Abort, alloc: Global, row: &Row) {
    let choices = choices_of(rt, alloc, row.choices);
    check_found(rt, alloc, choices.as_slice(), row);
    let_go(choices);
}

const LEAST: &[Row] = &[
    // a later case has lesser values
    Row {
        choices: &[
            Within(1, &[(5, 9), (3, 4)]),
            Within(2, &[(0, 9)]),
            OneOf(&[(2, 1, -4), (1, 2, -2)]),
        ],
        unknowns: 2,
        values: &[0, 3, 5],
        steps: &[],
    },
    // the first unknown decides
    Row {
        choices: &[
            Within(1, &[(2, 2), (1, 1), (1, 1)]),
            Within(2, &[(0, 9)]),
            OneOf(&[(0, 2, -7), (1, 2, -1)]),
        ],
        unknowns: 2,
        values: &[0, 1, 2],
        steps: &[],
    },
    Row {
        choices: &[],
        unknowns: 0,
        values: &[0],
        steps: &[],
    },
    // two parts
    Row {
        choices: &[
            Within(1, &[(5, 9), (3, 4)]),
            Within(2, &[(2, 2), (1, 1)]),
            Within(3, &[(0, 9)]),
            Within(4, &[(0, 9)]),
            OneOf(&[(3, 1, -4), (1, 3, -2)]),
            OneOf(&[(0, 4, -7), (2, 4, -1)]),
        ],
        unknowns: 4,
        values: &[0, 3, 1, 5, 2],
        steps: &[],
    },
];

const REFUTED: &[Row] = &[
    // each less than the other; the range of the first is not used
    Row {
        choices: &[
            Within(1, &[(0, 255)]),
            Within(2, &[(0, 255)]),
            OneOf(&[(1, 2, -1)]),
            OneOf(&[(2, 1, -1), (0, 2, -256)]),
        ],
        unknowns: 2,
        values: &[],
        steps: &[Split(1), Split(2), Split(3), Cycle(2), Cycle(2)],
    },
    // a choice without cases, behind one of two, which is not used
    Row {
        choices: &[Within(1, &[(0, 1), (3, 4)]), OneOf(&[])],
        unknowns: 1,
        values: &[],
        steps: &[Split(1)],
    },
    // the second part is refuted
    Row {
        choices: &[
            Within(1, &[(0, 1), (3, 4)]),
            Within(2, &[(0, 255)]),
            Within(3, &[(0, 255)]),
            OneOf(&[(0, 1, -4)]),
            OneOf(&[(2, 3, -1)]),
            OneOf(&[(3, 2, -1), (0, 3, -256)]),
        ],
        unknowns: 3,
        values: &[],
        steps: &[Split(2), Split(4), Split(5), Cycle(2), Cycle(2)],
    },
    // no cases, beside two parts
    Row {
        choices: &[
            Within(1, &[(0, 1), (3, 4)]),
            Within(2, &[(0, 1), (3, 4)]),
            OneOf(&[]),
        ],
        unknowns: 2,
        values: &[],
        steps: &[Split(2)],
    },
];

#[test]
fn the_least_values_are_found(rt: HostRuntime) {
    for row in LEAST {
        check(&rt, rt.alloc(), row);
    }
}

#[test]
fn choices_that_none_meets_are_refuted(rt: HostRuntime) {
    for row in REFUTED {
        check(&rt, rt.alloc(), row);
    }
}

/// A list of `count` unknowns from 0 to `last`.
fn unknowns(rt: &impl Abort, alloc: Global, count: u32, last: i128) -> Vec<Choice>
    requires { count < 100 }
{
    let mut all = Vec::new(alloc);
    for unknown in 0..count {
        let ranges = [(0, last)];
        push(
            rt,
            &mut all,
            choice_of(rt, alloc, Within(unknown + 1, &ranges)),
        );
    }
    all
}

/// Adds that the one is less than the other, or greater.
fn push_differ(rt: &impl Abort, alloc: Global, choices: &mut Vec<Choice>, left: u32, right: u32) {
    let rows = [(left, right, -1), (right, left, -1)];
    push(rt, choices, choice_of(rt, alloc, OneOf(&rows)));
}

/// Ten unknowns from 0 to 9,999, and `choices` choices; each says which of an unknown and the next one is less.
fn coupled(rt: &impl Abort, alloc: Global, choices: u32) -> Vec<Choice> {
    let mut all = unknowns(rt, alloc, 10, 9999);
    for step in 0..choices {
        let left = step % 10 + 1;
        push_differ(rt, alloc, &mut all, left, left % 10 + 1);
    }
    all
}

fn steps_of(rt: &impl Abort, outcome: &Outcome) -> usize {
    match outcome {
        Outcome::Least { values } => panic!(rt; "values: {values:?}"),
        Outcome::Refuted { steps } => steps.len(),
    }
}

/// The number of steps that refute the choices.
fn steps_found(rt: &impl Abort, alloc: Global, choices: &[Choice], count: u32) -> usize {
    let outcome = found(rt, alloc, choices, count);
    steps_of(rt, &outcome)
}

/// The number of steps that refute the choices, with one more, which has this case.
fn steps_with(
    rt: &impl Abort,
    alloc: Global,
    mut choices: Vec<Choice>,
    more: bounds::Row,
    count: u32,
) -> usize {
    push(rt, &mut choices, choice_of(rt, alloc, OneOf(&[more])));
    let steps = steps_found(rt, alloc, choices.as_slice(), count);
    let_go(choices);
    steps
}

/// Asserts the number of these steps.
fn check_steps(
    rt: &impl Abort,
    alloc: Global,
    choices: Vec<Choice>,
    more: bounds::Row,
    count: u32,
    wanted: usize,
) {
    let steps = steps_with(rt, alloc, choices, more, count);
    assert_eq!(rt; steps, wanted);
}

fn least(rt: &impl Abort, alloc: Global, choices: &[Choice], count: u32) -> Vec<i128> {
    match found(rt, alloc, choices, count) {
        Outcome::Least { values } => values,
        Outcome::Refuted { .. } => panic!(rt; "refuted"),
    }
}

/// Asserts the least values.
fn check_least(rt: &impl Abort, alloc: Global, choices: &[Choice], count: u32, wanted: &[i128]) {
    let values = least(rt, alloc, choices, count);
    bounds::same(rt, values.as_slice(), wanted);
}

#[test]
fn choices_by_the_thousand(rt: HostRuntime) {
    let choices = coupled(&rt, rt.alloc(), 12);
    let values = [0, 0, 1, 0, 1, 0, 1, 0, 1, 0, 1];
    check_least(&rt, rt.alloc(), choices.as_slice(), 10, &values);
    // the range of the last unknown and the choice more, around one cycle
    check_steps(&rt, rt.alloc(), choices, (0, 10, -10_000), 10, 3);
}

/// Adds that unknown 1 is at least the number.
fn push_at_least(rt: &impl Abort, alloc: Global, choices: &mut Vec<Choice>, number: u32) {
    let row = (0, 1, 0i128.wrapping_sub(i128::from(number)));
    push(rt, choices, choice_of(rt, alloc, OneOf(&[row])));
}

/// One unknown in one of two ranges, and 100,000 choices of one case.
fn many(rt: &impl Abort, alloc: Global) -> Vec<Choice> {
    let mut choices = choices_of(rt, alloc, &[Within(1, &[(0, 9), (11, 19)])]);
    for step in 0..100_000u32 {
        push_at_least(rt, alloc, &mut choices, step % 13);
    }
    choices
}

#[test]
fn many_choices_of_one_case(rt: HostRuntime) {
    let choices = many(&rt, rt.alloc());
    check_least(&rt, rt.alloc(), choices.as_slice(), 1, &[0, 12]);
    let_go(choices);
}

/// 64 unknowns from 0 to 9, where each two in a row differ.
fn pairs(rt: &impl Abort, alloc: Global) -> Vec<Choice> {
    let mut all = unknowns(rt, alloc, 64, 9);
    for pair in 0..32 {
        push_differ(rt, alloc, &mut all, 2 * pair + 1, 2 * pair + 2);
    }
    all
}

/// Asserts that the even unknowns are 1, but for the first, and the others 0.
fn check_alternating(rt: &impl Abort, values: &[i128]) {
    for (unknown, value) in values.iter().enumerate() {
        assert_eq!(rt; *value, i128::from(unknown > 0 && unknown % 2 == 0));
    }
}

fn check_pairs(rt: &impl Abort, alloc: Global, choices: &[Choice]) {
    let values = least(rt, alloc, choices, 64);
    check_alternating(rt, values.as_slice());
}

/// Together the pairs have 2^32 choices of cases.
#[test]
fn pairs_are_searched_apart(rt: HostRuntime) {
    let choices = pairs(&rt, rt.alloc());
    check_pairs(&rt, rt.alloc(), choices.as_slice());
    let steps = steps_with(&rt, rt.alloc(), choices, (0, 64, -10), 64);
    assert!(rt; steps < 10);
}
