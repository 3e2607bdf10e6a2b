//! Sets of values as ranges.

ghost use Rattle.std.specs.Prelude.{◌≡◌, ◌<◌};

use crate::build::{bits, shows};
use sn_ranges::{RangeFault, Ranges, laws};
use sn_width::{Num, Width};
use std::alloc::Global;
use std::process::Abort;

/// A set as a list in any order, and the ranges of what is made of it.
#[derive(Drop)]
struct Row<'a> {
    list: &'a [(Num, Num)],
    ranges: &'a [(Num, Num)],
    other: &'a [(Num, Num)],
    /// How far the set is shifted.
    by: Num,
    shifted: &'a [(Num, Num)],
}

fn first_of(ranges: &[(Num, Num)]) -> Option<Num> {
    match ranges {
        [] => None,
        [range, ..] => Some(range.0),
    }
}

fn check_least(rt: &impl Abort, set: &Ranges, ranges: &[(Num, Num)]) {
    assert!(rt; set.is_empty() == ranges.is_empty());
    assert!(rt; set.least() == first_of(ranges));
}

/// Asserts what the set says of its ranges.
fn check_set(rt: &impl Abort, set: &Ranges, ranges: &[(Num, Num)]) {
    assert!(rt; shows(set, ranges));
    assert!(rt; set.range(ranges.len()).is_none());
    check_least(rt, set, ranges);
}

/// Asserts the ranges of the complement.
fn check_other(rt: &impl Abort, alloc: Global, set: &Ranges, ranges: &[(Num, Num)]) {
    let other = set.other(alloc).expect(rt, "memory");
    check_set(rt, &other, ranges);
}

/// Asserts the ranges of the complement's complement.
fn check_again(rt: &impl Abort, alloc: Global, set: &Ranges, ranges: &[(Num, Num)]) {
    let other = set.other(alloc).expect(rt, "memory");
    check_other(rt, alloc, &other, ranges);
}

/// Asserts the ranges of the set shifted.
fn check_shifted(rt: &impl Abort, alloc: Global, set: &Ranges, by: Num, ranges: &[(Num, Num)]) {
    assert!(rt; by <= set.width().max());
    let shifted = set.shift(alloc, by).expect(rt, "memory");
    check_set(rt, &shifted, ranges);
}

/// Asserts the ranges of a copy.
fn check_copy(rt: &impl Abort, alloc: Global, set: &Ranges, ranges: &[(Num, Num)]) {
    let copy = set.copy(alloc).expect(rt, "memory");
    check_set(rt, &copy, ranges);
}

/// Asserts the ranges of a set, and of what is made of it.
fn check(rt: &impl Abort, alloc: Global, width: Width, row: &Row<'_>) {
    let set = Ranges::from_list(alloc, width, row.list).expect(rt, "ranges");
    assert!(rt; set.width() == width);
    check_set(rt, &set, row.ranges);
    check_shifted(rt, alloc, &set, row.by, row.shifted);
    check_copy(rt, alloc, &set, row.ranges);
    check_other(rt, alloc, &set, row.other);
    check_again(rt, alloc, &set, row.ranges);
}

#[test]
fn a_list_in_any_order_is_its_least_ranges(rt: HostRuntime) {
    let row = Row {
        list: &[(5, 9), (0, 4), (20, 20)],
        ranges: &[(0, 9), (20, 20)],
        other: &[(10, 19), (21, 255)],
        by: 250,
        shifted: &[(0, 3), (14, 14), (250, 255)],
    };
    check(&rt, rt.alloc(), bits(8), &row);
}

/// Asserts what is made of all numbers up to the greatest one, and of that alone.
fn check_greatest(rt: &impl Abort, alloc: Global, width: Width, max: Num)
    requires { 0 < max }
{
    let full = Row {
        list: &[(0, max)],
        ranges: &[(0, max)],
        other: &[],
        by: max,
        shifted: &[(0, max)],
    };
    check(rt, alloc, width, &full);
    let top = Row {
        list: &[(max, max)],
        ranges: &[(max, max)],
        other: &[(0, max - 1)],
        by: max,
        shifted: &[(max - 1, max - 1)],
    };
    check(rt, alloc, width, &top);
}

#[test]
fn the_greatest_value_has_no_successor(rt: HostRuntime) {
    for (count, max) in [(1, 1), (64, 18446744073709551615), (128, Num::MAX)] {
        check_greatest(&rt, rt.alloc(), bits(count), max);
    }
}

fn bytes(rt: &impl Abort, alloc: Global, list: &[(Num, Num)]) -> Ranges
    ensures { result.width ≡ 8 }
{
    Ranges::from_list(alloc, bits(8), list).expect(rt, "ranges")
}

#[test]
fn members_lie_in_a_range(rt: HostRuntime) {
    let set = bytes(&rt, rt.alloc(), &[(0, 9), (20, 20)]);
    assert!(rt; set.has(9) && !set.has(10) && !set.has(256));
}

#[test]
fn sets_meet(rt: HostRuntime) {
    let set = bytes(&rt, rt.alloc(), &[(0, 9), (20, 20)]);
    let middle = bytes(&rt, rt.alloc(), &[(3, 12)]);
    let common = set.meet(rt.alloc(), &middle).expect(&rt, "memory");
    check_set(&rt, &middle, &[(3, 12)]);
    check_set(&rt, &common, &[(3, 9)]);
}

#[test]
fn sets_join(rt: HostRuntime) {
    let set = bytes(&rt, rt.alloc(), &[(0, 9), (20, 20)]);
    let between = bytes(&rt, rt.alloc(), &[(10, 19)]);
    let all = set.join(rt.alloc(), &between).expect(&rt, "memory");
    check_set(&rt, &all, &[(0, 20)]);
}

fn fault_of(alloc: Global, list: &[(Num, Num)]) -> Option<RangeFault> {
    Ranges::from_list(alloc, bits(8), list).err()
}

#[test]
fn the_first_fault_is_named(rt: HostRuntime) {
    const ROWS: &[(&[(Num, Num)], RangeFault)] = &[
        (&[(9, 5)], RangeFault::Reversed { index: 0 }),
        (&[(0, 256)], RangeFault::TooWide { index: 0 }),
        (&[(0, 256), (9, 5)], RangeFault::Reversed { index: 1 }),
        (&[(0, 1), (300, 256)], RangeFault::Reversed { index: 1 }),
    ];
    for (list, fault) in ROWS {
        assert!(rt; fault_of(rt.alloc(), list) == Some(*fault), "{list:?}");
    }
}

/// All ranges between a few numbers of 4 bits.
fn small_ranges(rt: &impl Abort, alloc: Global) -> Vec<(Num, Num)> {
    let ends = [0, 1, 7, 8, 15];
    let mut ranges = Vec::new(alloc);
    for first in ends {
        for last in ends {
            if first <= last {
                ranges.push((first, last)).expect(rt, "memory");
            }
        }
    }
    ranges
}

type Lists = Vec<Vec<(Num, Num)>>;

fn push(rt: &impl Abort, alloc: Global, lists: &mut Lists, list: &[(Num, Num)]) {
    let list = Vec::from_slice(alloc, list).expect(rt, "memory");
    lists.push(list).expect(rt, "memory");
}

/// A list of each range that is pushed, and of it and each of the ranges.
fn push_lists(
    rt: &impl Abort,
    alloc: Global,
    lists: &mut Lists,
    one: (Num, Num),
    ranges: &[(Num, Num)],
) {
    push(rt, alloc, lists, &[one]);
    for two in ranges {
        push(rt, alloc, lists, &[one, *two]);
    }
}

/// All lists of at most two of these ranges.
fn small_lists(rt: &impl Abort, alloc: Global) -> Lists {
    let ranges = small_ranges(rt, alloc);
    let mut lists = Vec::new(alloc);
    push(rt, alloc, &mut lists, &[]);
    for one in &ranges {
        push_lists(rt, alloc, &mut lists, *one, ranges.as_slice());
    }
    lists
}

fn holds(list: &[(Num, Num)], value: Num) -> bool {
    for (first, last) in list {
        if *first <= value && value <= *last {
            return true;
        }
    }
    false
}

/// Compares a set and its complement with membership in the set's list, for all numbers of 4 bits.
fn compare_other(rt: &impl Abort, list: &[(Num, Num)], set: &Ranges, other: &Ranges) {
    for number in 0..16u8 {
        let value = Num::from(number);
        let is_member = holds(list, value);
        assert!(rt;
            set.has(value) == is_member && other.has(value) != is_member,
            "{list:?}"
        );
    }
}

/// Compares a set shifted by a number with membership in the set's list.
fn compare_shifted(rt: &impl Abort, list: &[(Num, Num)], by: u8, shifted: &Ranges) {
    for number in 0..16u8 {
        let value = Num::from(number);
        let moved = value.wrapping_add(Num::from(by)) % 16;
        assert!(rt; shifted.has(moved) == holds(list, value), "{list:?} {by}");
    }
}

/// The same of the set shifted by a number.
fn compare_shift(rt: &impl Abort, alloc: Global, list: &[(Num, Num)], set: &Ranges, by: u8) {
    assert!(rt; Num::from(by) <= set.width().max());
    let shifted = set.shift(alloc, Num::from(by)).expect(rt, "memory");
    compare_shifted(rt, list, by, &shifted);
}

/// Compares what takes one set with membership in its list.
fn compare_one(rt: &impl Abort, alloc: Global, list: &[(Num, Num)], set: &Ranges) {
    let other = set.other(alloc).expect(rt, "memory");
    compare_other(rt, list, set, &other);
    for by in 0..16u8 {
        compare_shift(rt, alloc, list, set, by);
    }
}

/// Whether a number is among the common members of two sets, and among those of either, as it is by their lists.
fn is_member_as_listed(
    lists: (&[(Num, Num)], &[(Num, Num)]),
    value: Num,
    common: &Ranges,
    all: &Ranges,
) -> bool {
    let (is_left, is_right) = (holds(lists.0, value), holds(lists.1, value));
    common.has(value) == (is_left && is_right) && all.has(value) == (is_left || is_right)
}

/// Compares the common members of two sets, and those of either, with membership in their lists.
fn compare_members(
    rt: &impl Abort,
    lists: (&[(Num, Num)], &[(Num, Num)]),
    common: &Ranges,
    all: &Ranges,
) {
    for number in 0..16u8 {
        let is_right = is_member_as_listed(lists, Num::from(number), common, all);
        assert!(rt; is_right, "{lists:?}");
    }
}

/// The same for what takes two sets of one width.
fn compare_two(
    rt: &impl Abort,
    alloc: Global,
    lists: (&[(Num, Num)], &[(Num, Num)]),
    left: &Ranges,
    right: &Ranges,
) {
    assert!(rt; left.width() == right.width());
    let common = left.meet(alloc, right).expect(rt, "memory");
    let all = left.join(alloc, right).expect(rt, "memory");
    compare_members(rt, lists, &common, &all);
}

/// The set of a list, of 4 bits.
fn small(rt: &impl Abort, alloc: Global, list: &[(Num, Num)]) -> Ranges {
    Ranges::from_list(alloc, bits(4), list).expect(rt, "ranges")
}

/// Compares what takes the set of the first list and that of the second.
fn compare_with(
    rt: &impl Abort,
    alloc: Global,
    lists: (&[(Num, Num)], &[(Num, Num)]),
    left: &Ranges,
) {
    let right = small(rt, alloc, lists.1);
    compare_two(rt, alloc, lists, left, &right);
}

/// Compares what takes the set of a list alone, or beside that of each list.
fn compare_list(rt: &impl Abort, alloc: Global, list: &[(Num, Num)], lists: &Lists) {
    let set = small(rt, alloc, list);
    compare_one(rt, alloc, list, &set);
    for right in lists {
        compare_with(rt, alloc, (list, right), &set);
    }
}

#[test]
fn operations_agree_with_plain_membership(rt: HostRuntime) {
    let lists = small_lists(&rt, rt.alloc());
    for list in &lists {
        compare_list(&rt, rt.alloc(), list, &lists);
    }
}

/// 200,000 ranges of five numbers each, ten apart, the last one first.
fn many_ranges(rt: &impl Abort, alloc: Global, width: Width, start: Num) -> Ranges
    requires { start < 10 }
    ensures { result.width ≡ width }
{
    let mut list = Vec::new(alloc);
    for i in (0..200_000u64).rev() {
        let first = 10 * Num::from(i) + start;
        list.push((first, first + 4)).expect(rt, "memory");
    }
    Ranges::from_list(alloc, width, &list).expect(rt, "ranges")
}

/// Asserts the number of ranges.
fn check_len(rt: &impl Abort, set: &Ranges, len: usize) {
    assert_eq!(rt; set.len(), len);
}

/// Asserts one of the ranges.
fn check_range(rt: &impl Abort, set: &Ranges, index: usize, range: (Num, Num)) {
    assert!(rt; set.range(index) == Some(range));
}

/// Asserts the ranges that are in neither of two sets, and those ranges shifted.
fn check_gaps(rt: &impl Abort, alloc: Global, gaps: &Ranges) {
    check_len(rt, gaps, 200_000);
    check_range(rt, gaps, 0, (8, 9));
    assert!(rt; 8 <= gaps.width().max());
    let shifted = gaps.shift(alloc, 8).expect(rt, "memory");
    check_shifted_gaps(rt, &shifted);
}

fn check_shifted_gaps(rt: &impl Abort, shifted: &Ranges) {
    check_len(rt, shifted, 200_001);
    assert!(rt; shifted.has(16) && !shifted.has(18));
}

/// Asserts the last range of what two sets have in common.
fn check_common(rt: &impl Abort, alloc: Global, left: &Ranges, right: &Ranges)
    requires { left.now.width ≡ right.now.width }
{
    let common = left.meet(alloc, right).expect(rt, "memory");
    check_range(rt, &common, 199_999, (1_999_993, 1_999_994));
}

/// Asserts the last range of what is in either of two sets, and the ranges of what is in neither.
fn check_either(rt: &impl Abort, alloc: Global, left: &Ranges, right: &Ranges)
    requires { left.now.width ≡ right.now.width }
{
    let all = left.join(alloc, right).expect(rt, "memory");
    check_range(rt, &all, 199_999, (1_999_990, 1_999_997));
    let gaps = all.other(alloc).expect(rt, "memory");
    check_gaps(rt, alloc, &gaps);
}

#[test]
fn large_sets_are_ordinary(rt: HostRuntime) {
    let left = many_ranges(&rt, rt.alloc(), bits(64), 0);
    let right = many_ranges(&rt, rt.alloc(), bits(64), 3);
    check_common(&rt, rt.alloc(), &left, &right);
    check_either(&rt, rt.alloc(), &left, &right);
}

#[test]
fn laws_are_there_to_cite() {
    laws::one_list_for_each_set();
    laws::faultless_where_all_fit();
}
