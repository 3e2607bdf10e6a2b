//! Stacks under keys, and stacks of cells.

use crate::cells::{Act, Answer, answered, values_are, width_of};
use crate::same::{same_answer, same_count};
use cell_stacks::{Cell, StackMap, Stacks, laws};
use sn_width::{LayoutFault, Num, Width};
use std::alloc::Global;
use std::process::Abort;

/// Asserts the member or the key that is found.
fn same(rt: &impl Abort, found: Option<u32>, wanted: Option<u32>) {
    assert_eq!(rt; found, wanted);
}

fn top(map: &StackMap<u32, u8>, key: u32) -> Option<u32> {
    Some(u32::from(*map.top(&key)?))
}

fn above(map: &StackMap<u32, u8>, key: u32) -> Option<u32> {
    Some(*map.above(&key)?.0)
}

fn below(map: &StackMap<u32, u8>, key: u32) -> Option<u32> {
    Some(*map.below(&key)?.0)
}

fn count(rt: &impl Abort, alloc: Global, map: &StackMap<u32, u8>) -> usize {
    map.pairs(alloc).expect(rt, "memory").count()
}

/// 10 and 11 under the key 4, and 12 under 9.
fn three_members(rt: &impl Abort, alloc: Global) -> StackMap<u32, u8> {
    let mut map = StackMap::new();
    map.push(alloc, 4, 10).expect(rt, "memory");
    map.push(alloc, 4, 11).expect(rt, "memory");
    map.replace_top(alloc, 9, 12).expect(rt, "memory");
    map
}

/// The top member under the key 4, once one more is removed there.
fn top_after_pop(rt: &impl Abort, alloc: Global, map: &mut StackMap<u32, u8>) -> Option<u32> {
    map.pop(alloc, 4).expect(rt, "memory");
    top(map, 4)
}

/// Replaces the top member under the key 4, and removes it and the one below.
fn check_changed(rt: &impl Abort, alloc: Global, map: &mut StackMap<u32, u8>) {
    map.replace_top(alloc, 4, 13).expect(rt, "memory");
    same(rt, top(map, 4), Some(13));
    same(rt, top_after_pop(rt, alloc, map), Some(10));
    same(rt, top_after_pop(rt, alloc, map), None);
    same_count(rt, count(rt, alloc, map), 1);
}

/// The three members are there.
fn check_kept(rt: &impl Abort, map: &StackMap<u32, u8>) {
    same(rt, top(map, 4), Some(11));
    same(rt, above(map, 4), Some(9));
    same(rt, below(map, 9), Some(4));
}

#[test]
fn members_lie_on_one_another(rt: HostRuntime) {
    let mut map = three_members(&rt, rt.alloc());
    let copy = map.fork().expect(&rt, "a copy");
    check_changed(&rt, rt.alloc(), &mut map);
    check_kept(&rt, &copy);
}

/// What is done under a key, at as many bits, and its answer.
type Row = (Act, u32, u8, Answer);

const ABSENT: LayoutFault = LayoutFault::NoField;

fn answer(
    rt: &impl Abort,
    alloc: Global,
    stacks: &mut Stacks<u32, Num>,
    act: Act,
    key: u32,
    width: Width,
) -> Answer {
    match act {
        Act::Allocate => answered(rt, stacks.push(alloc, key, width)),
        Act::Deallocate => answered(rt, stacks.pop(alloc, key, width, ABSENT)),
        Act::Assign(value) => answered(rt, stacks.set(alloc, key, width, value, ABSENT)),
        Act::Read => Ok(*stacks.top(&key, width, ABSENT)?),
    }
}

fn assert_rows(rt: &impl Abort, alloc: Global, stacks: &mut Stacks<u32, Num>, rows: &[Row]) {
    for (row, (act, key, bits, wanted)) in rows.iter().enumerate() {
        let found = answer(rt, alloc, stacks, *act, *key, width_of(rt, *bits));
        same_answer(rt, row, found, *wanted);
    }
}

fn above_cell(stacks: &Stacks<u32, Num>, key: u32) -> Option<u32> {
    Some(stacks.above(&key)?.0)
}

fn below_cell(stacks: &Stacks<u32, Num>, key: u32) -> Option<u32> {
    Some(stacks.below(&key)?.0)
}

/// There are cells under the key 3, and under no other.
fn check_keys(rt: &impl Abort, stacks: &Stacks<u32, Num>) {
    assert!(rt; stacks.has(&3));
    same(rt, above_cell(stacks, 2), Some(3));
    same(rt, below_cell(stacks, 3), None);
}

const PUSHED: &[Row] = &[
    (Act::Deallocate, 3, 8, Err(ABSENT)),
    (Act::Allocate, 3, 8, Ok(0)),
    (Act::Allocate, 3, 16, Err(LayoutFault::WidthDiffers)),
    (Act::Read, 3, 8, Err(LayoutFault::Unset)),
    (Act::Assign(7), 3, 8, Ok(0)),
    (Act::Allocate, 3, 8, Ok(0)),
    (Act::Assign(8), 3, 8, Ok(0)),
];

const POPPED: &[Row] = &[(Act::Deallocate, 3, 8, Ok(0)), (Act::Read, 3, 8, Ok(7))];

const KEPT: &[Row] = &[(Act::Read, 3, 8, Ok(8))];

#[test]
fn cells_are_pushed_set_read_and_popped(rt: HostRuntime) {
    let mut stacks = Stacks::empty();
    assert_rows(&rt, rt.alloc(), &mut stacks, PUSHED);
    let mut copy = stacks.fork().expect(&rt, "a copy");
    assert_rows(&rt, rt.alloc(), &mut stacks, POPPED);
    assert_rows(&rt, rt.alloc(), &mut copy, KEPT);
    check_keys(&rt, &copy);
}

const TWO_CELLS: &[Row] = &[
    (Act::Allocate, 5, 8, Ok(0)),
    (Act::Assign(7), 5, 8, Ok(0)),
    (Act::Allocate, 5, 8, Ok(0)),
];

/// The cells are those of the key 5.
fn check_cells(rt: &impl Abort, key: u32, cells: &[Cell<&Num>]) {
    assert!(rt; key == 5);
    assert!(rt; values_are(cells, &[Some(7), None]));
}

/// There are cells under one key.
fn check_listed(rt: &impl Abort, alloc: Global, stacks: &Stacks<u32, Num>) {
    let listed = stacks.all(alloc).expect(rt, "memory");
    same_count(rt, listed.len(), 1);
    for (key, cells) in listed.iter() {
        check_cells(rt, *key, cells);
    }
}

#[test]
fn all_cells_are_listed_from_bottom_to_top(rt: HostRuntime) {
    let mut stacks = Stacks::empty();
    assert_rows(&rt, rt.alloc(), &mut stacks, TWO_CELLS);
    check_listed(&rt, rt.alloc(), &stacks);
}

#[test]
fn laws_are_there_to_cite() {
    laws::change_of_a_stack::<u32, u8>();
    laws::valuing_commutes::<u32, u64, u8>();
    laws::set_then_read::<u32, u64>();
    laws::push_then_pop::<u32, u64>();
}
