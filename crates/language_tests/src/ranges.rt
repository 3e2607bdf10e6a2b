//! Ranges as memberships list them, and the sets that they keep.

use crate::jobs::same_count;
use sefl_syntax::RangeList;
use sn_ranges::Ranges;
use sn_width::{Num, Width};
use std::alloc::Global;
use std::process::Abort;

/// In no order; some overlap or touch, one is reversed, two are past 8 bits, and one of these past 16.
const LONG: &[(Num, Num)] = &[
    (40, 50),
    (7, 7),
    (45, 60),
    (3, 5),
    (6, 6),
    (200, 300),
    (9, 8),
    (100, 100),
    (101, 103),
    (65_000, 70_000),
];

const SHORT: &[(Num, Num)] = &[(45, 60), (200, 300), (40, 50)];

fn width_of(rt: &impl Abort, bits: u8) -> Width {
    Width::new(bits).expect(rt, "a width has 1 to 128 bits")
}

/// The ranges of a membership of `bits` bits.
fn list_of(rt: &impl Abort, alloc: Global, bits: u8, listed: &[(Num, Num)]) -> RangeList {
    let listed = Vec::from_slice(alloc, listed).expect(rt, "memory");
    RangeList::new(alloc, width_of(rt, bits), listed).expect(rt, "memory")
}

/// Whether these are the set's ranges.
fn has_ranges(set: &Ranges, wanted: &[(Num, Num)]) -> bool {
    for (index, range) in wanted.iter().enumerate() {
        if set.range(index) != Some(*range) {
            return false;
        }
    }
    set.len() == wanted.len()
}

fn assert_set(rt: &impl Abort, alloc: Global, ranges: &RangeList, bits: u8, wanted: &[(Num, Num)]) {
    let set = ranges.set(alloc, width_of(rt, bits)).expect(rt, "memory");
    assert!(rt; has_ranges(&set, wanted), "{bits} bits");
}

const AT_8_BITS: &[(Num, Num)] = &[(3, 7), (40, 60), (100, 103), (200, 255)];

const AT_16_BITS: &[(Num, Num)] = &[(3, 7), (40, 60), (100, 103), (200, 300), (65_000, 65_535)];

const AT_64_BITS: &[(Num, Num)] = &[(3, 7), (40, 60), (100, 103), (200, 300), (65_000, 70_000)];

/// The sets of lists of `bits` bits.
fn assert_sets(rt: &impl Abort, alloc: Global, bits: u8) {
    let long = list_of(rt, alloc, bits, LONG);
    assert_set(rt, alloc, &long, 8, AT_8_BITS);
    assert_set(rt, alloc, &long, 16, AT_16_BITS);
    assert_set(rt, alloc, &long, 64, AT_64_BITS);
    let short = list_of(rt, alloc, bits, SHORT);
    assert_set(rt, alloc, &short, 8, &[(40, 60), (200, 255)]);
}

#[test]
fn lists_have_their_set_at_any_width(rt: HostRuntime) {
    for bits in [8, 16, 64, 128] {
        assert_sets(&rt, rt.alloc(), bits);
    }
}

const NUMBERS: &[Num] = &[
    0,
    3,
    7,
    8,
    9,
    39,
    50,
    60,
    61,
    103,
    199,
    255,
    256,
    301,
    65_535,
    70_000,
    70_001,
    Num::MAX,
];

fn is_listed(listed: &[(Num, Num)], number: Num) -> bool {
    for (first, last) in listed {
        if *first <= number && number <= *last {
            return true;
        }
    }
    false
}

fn assert_member(rt: &impl Abort, ranges: &RangeList, number: Num) {
    let wanted = is_listed(ranges.listed(), number);
    assert!(rt; ranges.has(number) == wanted, "{number}");
}

fn assert_members(rt: &impl Abort, alloc: Global, bits: u8, listed: &[(Num, Num)]) {
    let ranges = list_of(rt, alloc, bits, listed);
    for number in NUMBERS {
        assert_member(rt, &ranges, *number);
    }
}

#[test]
fn numbers_lie_in_a_listed_range(rt: HostRuntime) {
    for bits in [8, 16, 128] {
        assert_members(&rt, rt.alloc(), bits, LONG);
        assert_members(&rt, rt.alloc(), bits, SHORT);
    }
}

/// `count` ranges, the last one first.
fn many(rt: &impl Abort, alloc: Global, count: u32) -> RangeList {
    let mut listed = Vec::new(alloc);
    for index in 0..count {
        let first = 4 * (Num::from(count) - Num::from(index));
        listed.push((first, first + 1)).expect(rt, "memory");
    }
    RangeList::new(alloc, width_of(rt, 32), listed).expect(rt, "memory")
}

/// The set has `wanted` ranges.
fn assert_length(rt: &impl Abort, alloc: Global, ranges: &RangeList, width: Width, wanted: u64) {
    let set = ranges.set(alloc, width).expect(rt, "memory");
    same_count(rt, set.len() as u64, wanted);
}

#[test]
fn a_set_is_shared_by_all_who_ask_for_it(rt: HostRuntime) {
    let ranges = many(&rt, rt.alloc(), 200_000);
    let width = width_of(&rt, 32);
    for _ in 0..1_000_000 {
        assert_length(&rt, rt.alloc(), &ranges, width, 200_000);
    }
}
