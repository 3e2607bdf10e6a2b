//! Ten thousand calls, compared with lists in which things stand in the order in which they came.

use super::{listed_cells, listed_tags};
use crate::cells::width_of;
use crate::same::same_count;
use header_layers::Layers;
use sn_width::{Num, StepFault, TagId, Width};
use std::alloc::Global;
use std::process::Abort;

/// Tags with their addresses, and cells as address, width and value.
#[derive(Drop)]
struct Plain {
    tags: Vec<(u32, i32)>,
    cells: Vec<(i32, u8, Option<Num>)>,
}

/// A reference to an address, and what is done there: 0 and 1 allocate, 2 deallocates, 3 assigns,
/// 4 reads, 5 creates, 6 sets and 7 destroys a tag.
#[derive(Clone, Copy)]
struct Call {
    kind: u32,
    name: u32,
    tag: Option<u32>,
    offset: i32,
    bits: u8,
    value: Num,
    /// The number that the next call is made of.
    after: u64,
}

/// The next number of a fixed sequence.
fn next(number: u64) -> u64 {
    number
        .wrapping_mul(6_364_136_223_846_793_005)
        .wrapping_add(1_442_695_040_888_963_407)
}

fn small(number: u64) -> u32 {
    ((number >> 33) % 1024) as u32
}

fn call_of(number: u64) -> Call {
    let first = next(number);
    let second = next(first);
    let third = next(second);
    let fourth = next(third);
    let fifth = next(fourth);
    let tag = small(second) % 5;
    let place = small(third);
    let near = (place % 64) as i32 - 32;
    let offset = if place < 1000 {
        near
    } else {
        near.saturating_mul(65_536)
    };
    Call {
        kind: small(first) % 8,
        name: small(fourth) % 3,
        tag: if tag < 3 { Some(tag) } else { None },
        offset,
        bits: if small(fifth) % 16 < 12 { 4 } else { 8 },
        value: Num::from(small(fourth)) + 1,
        after: fifth,
    }
}

fn last_tag(tags: &[(u32, i32)], tag: u32) -> Option<usize> {
    let mut found = None;
    for (index, pair) in tags.iter().enumerate() {
        if pair.0 == tag {
            found = Some(index);
        }
    }
    found
}

/// The address, or the number of a fault.
fn address_of(tags: &[(u32, i32)], tag: Option<u32>, offset: i32) -> Result<i32, u8> {
    let mut base = if tag.is_none() { Some(0) } else { None };
    for pair in tags {
        if tag == Some(pair.0) {
            base = Some(pair.1);
        }
    }
    let sum = i64::from(base.ok_or(1)?) + i64::from(offset);
    if sum < -1_048_576 || sum > 1_048_575 {
        return Err(2);
    }
    i32::try_from(sum).ok().ok_or(2)
}

/// Where the top cell stands, or the number of a fault.
fn top_of(cells: &[(i32, u8, Option<Num>)], address: i32, bits: u8) -> Result<usize, u8> {
    let mut found = Err(3);
    for (index, cell) in cells.iter().enumerate() {
        if cell.0 == address {
            found = if cell.1 == bits { Ok(index) } else { Err(4) };
        }
    }
    found
}

/// Puts a cell on top, unless the top one there has other bits or one elsewhere shares a bit.
fn plain_allocate(
    rt: &impl Abort,
    cells: &mut Vec<(i32, u8, Option<Num>)>,
    address: i32,
    bits: u8,
    top: Result<usize, u8>,
) -> Result<Num, u8> {
    if top == Err(4) {
        return Err(4);
    }
    for cell in cells.iter() {
        let apart = i64::from(address) >= i64::from(cell.0) + i64::from(cell.1)
            || i64::from(cell.0) >= i64::from(address) + i64::from(bits);
        if cell.0 != address && !apart {
            return Err(5);
        }
    }
    cells.push((address, bits, None)).expect(rt, "memory");
    Ok(0)
}

fn plain_deallocate(
    cells: &mut Vec<(i32, u8, Option<Num>)>,
    top: Result<usize, u8>,
) -> Result<Num, u8> {
    let index = top?;
    if index < cells.len() {
        cells.remove(index);
    }
    Ok(0)
}

fn plain_assign(
    cells: &mut Vec<(i32, u8, Option<Num>)>,
    top: Result<usize, u8>,
    value: Num,
) -> Result<Num, u8> {
    let index = top?;
    if let Some(cell) = cells.get_mut(index) {
        cell.2 = Some(value);
    }
    Ok(0)
}

fn plain_read(cells: &[(i32, u8, Option<Num>)], top: Result<usize, u8>) -> Result<Num, u8> {
    cells.get(top?).ok_or(3)?.2.ok_or(6)
}

fn plain_destroy(tags: &mut Vec<(u32, i32)>, last: Option<usize>) -> Result<Num, u8> {
    let index = last.ok_or(1)?;
    if index < tags.len() {
        tags.remove(index);
    }
    Ok(0)
}

/// Does a call on a tag.
fn plain_tag(
    rt: &impl Abort,
    tags: &mut Vec<(u32, i32)>,
    call: Call,
    address: Result<i32, u8>,
) -> Result<Num, u8> {
    let last = last_tag(tags, call.name);
    if call.kind == 7 {
        return plain_destroy(tags, last);
    }
    let address = address?;
    if call.kind == 6 {
        let _ = plain_destroy(tags, last);
    }
    tags.push((call.name, address)).expect(rt, "memory");
    Ok(0)
}

/// Does the call on the lists: its value, 0 without one, or the number of a fault.
fn plain_step(rt: &impl Abort, plain: &mut Plain, call: Call) -> Result<Num, u8> {
    let address = address_of(&plain.tags, call.tag, call.offset);
    if call.kind > 4 {
        return plain_tag(rt, &mut plain.tags, call, address);
    }
    let address = address?;
    let top = top_of(&plain.cells, address, call.bits);
    match call.kind {
        2 => plain_deallocate(&mut plain.cells, top),
        3 => plain_assign(&mut plain.cells, top, call.value),
        4 => plain_read(&plain.cells, top),
        _ => plain_allocate(rt, &mut plain.cells, address, call.bits, top),
    }
}

fn answer_of(step: Result<(), StepFault>) -> Result<Num, u8> {
    match step {
        Ok(()) => Ok(0),
        Err(StepFault::Layout(fault)) => Err(fault.number()),
        Err(StepFault::NoMemory) => Err(99),
    }
}

/// Does the call on the layers.
fn step(alloc: Global, layers: &mut Layers<Num>, call: Call, width: Width) -> Result<Num, u8> {
    let tag = match call.tag {
        None => None,
        Some(tag) => Some(TagId(tag)),
    };
    match call.kind {
        0 | 1 => answer_of(layers.allocate(alloc, tag, call.offset, width)),
        2 => answer_of(layers.deallocate(alloc, tag, call.offset, width)),
        3 => answer_of(layers.assign(alloc, tag, call.offset, width, call.value)),
        4 => match layers.read(tag, call.offset, width) {
            Ok(value) => Ok(*value),
            Err(fault) => Err(fault.number()),
        },
        5 => answer_of(layers.create_tag(alloc, TagId(call.name), tag, call.offset)),
        6 => answer_of(layers.set_tag(alloc, TagId(call.name), tag, call.offset)),
        _ => answer_of(layers.destroy_tag(alloc, TagId(call.name))),
    }
}

/// The pairs ascending by tag, those of a tag in the order in which they came.
fn sorted_tags(rt: &impl Abort, alloc: Global, tags: &[(u32, i32)]) -> Vec<(u32, i32)> {
    let mut sorted = Vec::from_slice(alloc, tags).expect(rt, "memory");
    sorted.sort_by_key(|pair| pair.0).expect(rt, "memory");
    sorted
}

/// The cells ascending by address, those of an address in the order in which they came.
fn sorted_cells(
    rt: &impl Abort,
    alloc: Global,
    cells: &[(i32, u8, Option<Num>)],
) -> Vec<(i32, u8, Option<Num>)> {
    let mut sorted = Vec::from_slice(alloc, cells).expect(rt, "memory");
    sorted.sort_by_key(|cell| cell.0).expect(rt, "memory");
    sorted
}

/// The layers, the lists that tell the same, the number that the next call is made of, and each kind
/// of call with each answer that it had: a fault's number, or 0.
#[derive(Drop)]
struct Both {
    layers: Layers<Num>,
    plain: Plain,
    number: u64,
    seen: Vec<(u32, u8)>,
}

fn contains(seen: &[(u32, u8)], kind: u32, fault: u8) -> bool {
    for pair in seen {
        if pair.0 == kind && pair.1 == fault {
            return true;
        }
    }
    false
}

/// Notes that a kind of call was answered so.
fn note(rt: &impl Abort, both: &mut Both, kind: u32, answer: Result<Num, u8>) {
    let fault = answer.err().unwrap_or(0);
    if !contains(&both.seen, kind, fault) {
        both.seen.push((kind, fault)).expect(rt, "memory");
    }
}

fn check_same(rt: &impl Abort, answer: Result<Num, u8>, wanted: Result<Num, u8>) {
    assert!(rt; answer == wanted);
}

/// Does the next call on both, which answer the same.
fn answer(rt: &impl Abort, alloc: Global, both: &mut Both) {
    let call = call_of(both.number);
    both.number = call.after;
    let width = width_of(rt, call.bits);
    let answer = step(alloc, &mut both.layers, call, width);
    let wanted = plain_step(rt, &mut both.plain, call);
    check_same(rt, answer, wanted);
    note(rt, both, call.kind, answer);
}

/// The listing of tags is that of the list.
fn assert_tags(rt: &impl Abort, alloc: Global, both: &Both) {
    let listed = listed_tags(rt, alloc, &both.layers);
    let wanted = sorted_tags(rt, alloc, &both.plain.tags);
    assert!(rt; listed == wanted);
}

/// The listing of cells is that of the list.
fn assert_cells(rt: &impl Abort, alloc: Global, both: &Both) {
    let listed = listed_cells(rt, alloc, &both.layers);
    let wanted = sorted_cells(rt, alloc, &both.plain.cells);
    assert!(rt; listed == wanted);
}

fn nothing(alloc: Global) -> Both {
    Both {
        layers: Layers::new(),
        plain: Plain {
            tags: Vec::new(alloc),
            cells: Vec::new(alloc),
        },
        number: 1,
        seen: Vec::new(alloc),
    }
}

#[test]
fn calls_answer_as_on_plain_lists(rt: HostRuntime) {
    let alloc = rt.alloc();
    let mut both = nothing(alloc);
    for iteration in 0..10_000 {
        answer(&rt, alloc, &mut both);
        if iteration % 500 == 499 {
            assert_tags(&rt, alloc, &both);
            assert_cells(&rt, alloc, &both);
        }
    }
    // Each success and each fault that a kind of call can have: 5 twice, 5, 5, 6, 3, 3 and 2.
    same_count(&rt, both.seen.len(), 34);
}
