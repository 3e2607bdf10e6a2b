//! Tags and header cells.

mod plain;

use crate::cells::{Act, Answer, answered, width_of};
use crate::same::same_answer;
use header_layers::{Cell, Layers, laws};
use sn_width::{LayoutFault, Num, TagId, Width};
use std::alloc::Global;
use std::process::Abort;

/// What is done at this number of bits from a tag, or from 0, over this number of bits, and its answer.
pub type Row = (Act, Option<TagId>, i32, u8, Answer);

/// What is done with a tag, this number of bits from another, or from 0, and its answer.
pub type TagRow = (TagAct, TagId, Option<TagId>, i32, Answer);

/// The tag that most rows name.
const TAG: Option<TagId> = Some(TagId(0));

#[derive(Clone, Copy)]
pub enum TagAct {
    Create,
    Set,
    Destroy,
}

fn answer(
    rt: &impl Abort,
    alloc: Global,
    layers: &mut Layers<Num>,
    act: Act,
    tag: Option<TagId>,
    offset: i32,
    width: Width,
) -> Answer {
    match act {
        Act::Allocate => answered(rt, layers.allocate(alloc, tag, offset, width)),
        Act::Deallocate => answered(rt, layers.deallocate(alloc, tag, offset, width)),
        Act::Assign(value) => answered(rt, layers.assign(alloc, tag, offset, width, value)),
        Act::Read => Ok(*layers.read(tag, offset, width)?),
    }
}

fn tag_answer(
    rt: &impl Abort,
    alloc: Global,
    layers: &mut Layers<Num>,
    act: TagAct,
    name: TagId,
    base: Option<TagId>,
    offset: i32,
) -> Answer {
    match act {
        TagAct::Create => answered(rt, layers.create_tag(alloc, name, base, offset)),
        TagAct::Set => answered(rt, layers.set_tag(alloc, name, base, offset)),
        TagAct::Destroy => answered(rt, layers.destroy_tag(alloc, name)),
    }
}

pub fn assert_rows(rt: &impl Abort, alloc: Global, layers: &mut Layers<Num>, rows: &[Row]) {
    for (row, (act, tag, offset, bits, wanted)) in rows.iter().enumerate() {
        let width = width_of(rt, *bits);
        let found = answer(rt, alloc, layers, *act, *tag, *offset, width);
        same_answer(rt, row, found, *wanted);
    }
}

pub fn assert_tag_rows(rt: &impl Abort, alloc: Global, layers: &mut Layers<Num>, rows: &[TagRow]) {
    for (row, (act, name, base, offset, wanted)) in rows.iter().enumerate() {
        let found = tag_answer(rt, alloc, layers, *act, *name, *base, *offset);
        same_answer(rt, row, found, *wanted);
    }
}

/// The listing of tags, as plain pairs.
fn listed_tags(rt: &impl Abort, alloc: Global, layers: &Layers<Num>) -> Vec<(u32, i32)> {
    let tags = layers.tags(alloc).expect(rt, "memory");
    let mut listed = Vec::new(alloc);
    for (tag, address) in tags.iter() {
        listed.push((tag.0, *address)).expect(rt, "memory");
    }
    listed
}

/// Puts the cells of an address behind those that are there.
fn put_cells(
    rt: &impl Abort,
    listed: &mut Vec<(i32, u8, Option<Num>)>,
    address: i32,
    cells: &[Cell<&Num>],
) {
    for cell in cells {
        listed
            .push((address, cell.width.bits(), cell.value.copied()))
            .expect(rt, "memory");
    }
}

/// The listing of cells, as plain triples.
fn listed_cells(
    rt: &impl Abort,
    alloc: Global,
    layers: &Layers<Num>,
) -> Vec<(i32, u8, Option<Num>)> {
    let heads = layers.heads(alloc).expect(rt, "memory");
    let mut listed = Vec::new(alloc);
    for (address, cells) in heads.iter() {
        put_cells(rt, &mut listed, *address, cells);
    }
    listed
}

/// Tag 0 at address 0, and a byte with the value 7 there.
fn one_byte(rt: &impl Abort, alloc: Global) -> Layers<Num> {
    let mut layers = Layers::new();
    let tags = [(TagAct::Create, TagId(0), None, 0, Ok(0))];
    assert_tag_rows(rt, alloc, &mut layers, &tags);
    let rows = [
        (Act::Allocate, TAG, 0, 8, Ok(0)),
        (Act::Assign(7), TAG, 0, 8, Ok(0)),
    ];
    assert_rows(rt, alloc, &mut layers, &rows);
    layers
}

const REFUSED: &[Row] = &[
    (Act::Read, TAG, 4, 8, Err(LayoutFault::NoField)),
    (Act::Deallocate, None, 0, 16, Err(LayoutFault::WidthDiffers)),
    (Act::Allocate, Some(TagId(1)), 0, 8, Err(LayoutFault::NoTag)),
    (
        Act::Allocate,
        TAG,
        1_048_576,
        8,
        Err(LayoutFault::AddressRange),
    ),
    (Act::Allocate, TAG, 0, 16, Err(LayoutFault::WidthDiffers)),
    (Act::Allocate, TAG, 4, 8, Err(LayoutFault::Overlap)),
    (Act::Allocate, TAG, -4, 8, Err(LayoutFault::Overlap)),
    (Act::Allocate, TAG, 8, 8, Ok(0)),
    (Act::Allocate, TAG, -8, 8, Ok(0)),
];

const NO_TAG: &[TagRow] = &[(TagAct::Destroy, TagId(1), None, 0, Err(LayoutFault::NoTag))];

#[test]
fn calls_refuse_by_tag_range_field_width_and_overlap(rt: HostRuntime) {
    let mut layers = one_byte(&rt, rt.alloc());
    assert_tag_rows(&rt, rt.alloc(), &mut layers, NO_TAG);
    assert_rows(&rt, rt.alloc(), &mut layers, REFUSED);
}

const LOST: &[Row] = &[
    (Act::Deallocate, TAG, 0, 8, Ok(0)),
    (Act::Read, TAG, 0, 8, Err(LayoutFault::NoField)),
];

const KEPT: &[Row] = &[(Act::Read, TAG, 0, 8, Ok(7))];

#[test]
fn fork_keeps_what_its_copy_loses(rt: HostRuntime) {
    let mut layers = one_byte(&rt, rt.alloc());
    let mut copy = layers.fork().expect(&rt, "a copy");
    assert_rows(&rt, rt.alloc(), &mut copy, LOST);
    assert_rows(&rt, rt.alloc(), &mut layers, KEPT);
}

const OUTERMOST: &[Row] = &[
    (Act::Allocate, None, -1_048_576, 8, Ok(0)),
    (Act::Allocate, None, 1_048_575, 8, Ok(0)),
    (
        Act::Allocate,
        None,
        -1_048_577,
        8,
        Err(LayoutFault::AddressRange),
    ),
    (
        Act::Allocate,
        None,
        1_048_576,
        8,
        Err(LayoutFault::AddressRange),
    ),
];

const OUTERMOST_TAGS: &[TagRow] = &[
    (TagAct::Create, TagId(3), None, -1_048_576, Ok(0)),
    (
        TagAct::Create,
        TagId(4),
        Some(TagId(3)),
        -1,
        Err(LayoutFault::AddressRange),
    ),
];

#[test]
fn addresses_end_at_two_to_the_twenty(rt: HostRuntime) {
    let mut layers = Layers::new();
    assert_rows(&rt, rt.alloc(), &mut layers, OUTERMOST);
    assert_tag_rows(&rt, rt.alloc(), &mut layers, OUTERMOST_TAGS);
}

/// All cells, as address, width and value.
fn assert_cells(
    rt: &impl Abort,
    alloc: Global,
    layers: &Layers<Num>,
    wanted: &[(i32, u8, Option<Num>)],
) {
    let listed = listed_cells(rt, alloc, layers);
    assert!(rt; listed.as_slice() == wanted);
}

const PUSHED: &[Row] = &[
    (Act::Allocate, None, 0, 8, Ok(0)),
    (Act::Assign(8), None, 0, 8, Ok(0)),
    (Act::Allocate, None, 0, 8, Ok(0)),
    (Act::Read, None, 0, 8, Err(LayoutFault::Unset)),
];

const REMOVED: &[Row] = &[
    (Act::Deallocate, None, 0, 8, Ok(0)),
    (Act::Deallocate, None, 0, 8, Ok(0)),
    (Act::Read, None, 0, 8, Ok(7)),
];

#[test]
fn three_cells_lie_on_one_another(rt: HostRuntime) {
    let mut layers = one_byte(&rt, rt.alloc());
    assert_rows(&rt, rt.alloc(), &mut layers, PUSHED);
    let listed = [(0, 8, Some(7)), (0, 8, Some(8)), (0, 8, None)];
    assert_cells(&rt, rt.alloc(), &layers, &listed);
    assert_rows(&rt, rt.alloc(), &mut layers, REMOVED);
}

fn assert_tags(rt: &impl Abort, alloc: Global, layers: &Layers<Num>, wanted: &[(u32, i32)]) {
    let listed = listed_tags(rt, alloc, layers);
    assert!(rt; listed.as_slice() == wanted);
}

const PUSHED_TAGS: &[TagRow] = &[
    (TagAct::Set, TagId(5), None, 112, Ok(0)),
    (TagAct::Create, TagId(5), Some(TagId(5)), 160, Ok(0)),
    (TagAct::Create, TagId(2), Some(TagId(5)), 1, Ok(0)),
];

const SET_TAGS: &[TagRow] = &[(TagAct::Set, TagId(5), Some(TagId(5)), 8, Ok(0))];

const REMOVED_TAGS: &[TagRow] = &[
    (TagAct::Destroy, TagId(5), None, 0, Ok(0)),
    (TagAct::Destroy, TagId(5), None, 0, Ok(0)),
    (TagAct::Destroy, TagId(5), None, 0, Err(LayoutFault::NoTag)),
];

#[test]
fn tags_are_pushed_set_and_removed(rt: HostRuntime) {
    let alloc = rt.alloc();
    let mut layers = Layers::new();
    assert_tag_rows(&rt, alloc, &mut layers, PUSHED_TAGS);
    assert_tags(&rt, alloc, &layers, &[(2, 273), (5, 112), (5, 272)]);
    assert_tag_rows(&rt, alloc, &mut layers, SET_TAGS);
    assert_tags(&rt, alloc, &layers, &[(2, 273), (5, 112), (5, 280)]);
    assert_tag_rows(&rt, alloc, &mut layers, REMOVED_TAGS);
}

/// One more byte at the address.
fn push_byte(rt: &impl Abort, alloc: Global, layers: &mut Layers<Num>, address: i32) {
    let made = layers.allocate(alloc, None, address, width_of(rt, 8));
    assert!(rt; made.is_ok());
}

/// As many bytes at address 0, the top one with the value 7, and a byte at each of as many other addresses.
fn many_bytes(rt: &impl Abort, alloc: Global, count: i32) -> Layers<Num> {
    let mut layers = Layers::new();
    for place in 1..=count {
        push_byte(rt, alloc, &mut layers, 0);
        push_byte(rt, alloc, &mut layers, place.saturating_mul(8));
    }
    let rows = [(Act::Assign(7), None, 0, 8, Ok(0))];
    assert_rows(rt, alloc, &mut layers, &rows);
    layers
}

fn fork_often(rt: &impl Abort, layers: &Layers<Num>) {
    for _ in 0..1_000_000 {
        drop(layers.fork().expect(rt, "a copy"));
    }
}

#[test]
fn forks_of_many_cells_are_cheap(rt: HostRuntime) {
    const TOP: &[Row] = &[(Act::Read, None, 0, 8, Ok(7))];
    let mut layers = many_bytes(&rt, rt.alloc(), 100_000);
    fork_often(&rt, &layers);
    assert_rows(&rt, rt.alloc(), &mut layers, TOP);
}

#[test]
fn laws_are_there_to_cite() {
    laws::valuing_commutes::<u64, u8>();
    laws::assign_then_read::<u64>();
    laws::allocate_then_deallocate::<u64>();
    let layers: Layers<u64> = Layers::new();
    laws::one_address(&layers, TagId(0), None, 0);
}
