//! Metadata, global and local.

use crate::cells::{Act, Answer, answered, values_are, width_of};
use crate::same::{same_answer, same_count};
use cell_stacks::Cell;
use metadata_scopes::{Scopes, laws};
use sn_width::{LayoutFault, NameId, NodeId, Num, Width};
use std::alloc::Global;
use std::process::Abort;

/// What is done with metadata, by its owner and its name, at as many bits, and its answer.
pub type Row = (Act, Option<NodeId>, NameId, u8, Answer);

const ROUTER: NodeId = NodeId(0);

const SWITCH: NodeId = NodeId(1);

const COLOR: NameId = NameId(0);

const PRICE: NameId = NameId(1);

const VLAN: NameId = NameId(2);

fn answer(
    rt: &impl Abort,
    alloc: Global,
    scopes: &mut Scopes<Num>,
    act: Act,
    owner: Option<NodeId>,
    name: NameId,
    width: Width,
) -> Answer {
    match act {
        Act::Allocate => answered(rt, scopes.allocate(alloc, owner, name, width)),
        Act::Deallocate => answered(rt, scopes.deallocate(alloc, owner, name, width)),
        Act::Assign(value) => answered(rt, scopes.assign(alloc, owner, name, width, value)),
        Act::Read => Ok(*scopes.read(owner, name, width)?),
    }
}

pub fn assert_rows(rt: &impl Abort, alloc: Global, scopes: &mut Scopes<Num>, rows: &[Row]) {
    for (row, (act, owner, name, bits, wanted)) in rows.iter().enumerate() {
        let width = width_of(rt, *bits);
        let found = answer(rt, alloc, scopes, *act, *owner, *name, width);
        same_answer(rt, row, found, *wanted);
    }
}

/// Allocates the metadata with 8 bits and sets its value.
fn put(
    rt: &impl Abort,
    alloc: Global,
    scopes: &mut Scopes<Num>,
    owner: Option<NodeId>,
    name: NameId,
    value: Num,
) {
    let rows = [
        (Act::Allocate, owner, name, 8, Ok(0)),
        (Act::Assign(value), owner, name, 8, Ok(0)),
    ];
    assert_rows(rt, alloc, scopes, &rows);
}

/// Allocates each metadata with 8 bits and sets its value.
fn with(rt: &impl Abort, alloc: Global, values: &[(Option<NodeId>, NameId, Num)]) -> Scopes<Num> {
    let mut scopes = Scopes::new();
    for (owner, name, value) in values {
        put(rt, alloc, &mut scopes, *owner, *name, *value);
    }
    scopes
}

const OF_BOTH: &[(Option<NodeId>, NameId, Num)] = &[
    (Some(ROUTER), COLOR, 3),
    (Some(SWITCH), COLOR, 4),
];

const READ: &[Row] = &[
    (Act::Read, Some(ROUTER), COLOR, 8, Ok(3)),
    (Act::Read, Some(SWITCH), COLOR, 8, Ok(4)),
    (Act::Read, None, COLOR, 8, Err(LayoutFault::NoMeta)),
];

#[test]
fn local_of_two_boxes_is_read_in_its_own(rt: HostRuntime) {
    let mut scopes = with(&rt, rt.alloc(), OF_BOTH);
    assert_rows(&rt, rt.alloc(), &mut scopes, READ);
}

const MANY: &[(Option<NodeId>, NameId, Num)] = &[
    (Some(ROUTER), VLAN, 1),
    (Some(ROUTER), COLOR, 2),
    (Some(SWITCH), PRICE, 3),
    (None, VLAN, 4),
    (None, COLOR, 5),
];

const OF_ROUTER: &[(Option<NodeId>, NameId)] = &[
    (None, COLOR),
    (None, VLAN),
    (Some(ROUTER), COLOR),
    (Some(ROUTER), VLAN),
];

/// The metadata that the router sees.
fn check_present(
    rt: &impl Abort,
    alloc: Global,
    scopes: &Scopes<Num>,
    wanted: &[(Option<NodeId>, NameId)],
) {
    let names = [COLOR, PRICE, VLAN];
    let present = scopes.present(alloc, ROUTER, &names).expect(rt, "memory");
    assert!(rt; present.as_slice() == wanted);
}

#[test]
fn snapshot_has_globals_and_then_locals_of_the_box(rt: HostRuntime) {
    let scopes = with(&rt, rt.alloc(), MANY);
    check_present(&rt, rt.alloc(), &scopes, OF_ROUTER);
}

/// The cells of the global PRICE.
fn check_price(
    rt: &impl Abort,
    owner: Option<NodeId>,
    name: NameId,
    cells: &[Cell<&Num>],
    wanted: &[Option<Num>],
) {
    assert!(rt; owner.is_none());
    assert!(rt; name == PRICE);
    assert!(rt; values_are(cells, wanted));
}

/// The cells of the only metadata, which is the global PRICE.
fn assert_prices(rt: &impl Abort, alloc: Global, scopes: &Scopes<Num>, wanted: &[Option<Num>]) {
    let metas = scopes.metas(alloc).expect(rt, "memory");
    same_count(rt, metas.len(), 1);
    for (owner, name, cells) in metas.iter() {
        check_price(rt, *owner, *name, cells, wanted);
    }
}

const UNCOVERED: &[Row] = &[
    (Act::Read, None, PRICE, 8, Ok(7)),
    (Act::Deallocate, None, PRICE, 8, Ok(0)),
    (Act::Read, None, PRICE, 8, Ok(6)),
];

#[test]
fn cells_at_one_name_lie_on_one_another(rt: HostRuntime) {
    let mut scopes = with(&rt, rt.alloc(), &[(None, PRICE, 6), (None, PRICE, 7)]);
    assert_prices(&rt, rt.alloc(), &scopes, &[Some(6), Some(7)]);
    assert_rows(&rt, rt.alloc(), &mut scopes, UNCOVERED);
}

const REMOVED: &[Row] = &[
    (Act::Deallocate, Some(SWITCH), VLAN, 8, Ok(0)),
    (Act::Read, Some(SWITCH), VLAN, 8, Err(LayoutFault::NoMeta)),
];

const KEPT: &[Row] = &[(Act::Read, Some(SWITCH), VLAN, 8, Ok(9))];

#[test]
fn fork_keeps_what_its_copy_deallocates(rt: HostRuntime) {
    let mut scopes = with(&rt, rt.alloc(), &[(Some(SWITCH), VLAN, 9)]);
    let mut copy = scopes.fork().expect(&rt, "a copy");
    assert_rows(&rt, rt.alloc(), &mut copy, REMOVED);
    assert_rows(&rt, rt.alloc(), &mut scopes, KEPT);
}

const ABSENT: Answer = Err(LayoutFault::NoMeta);

const DIFFERS: Answer = Err(LayoutFault::WidthDiffers);

const FAULTS: &[Row] = &[
    (Act::Assign(1), None, COLOR, 8, ABSENT),
    (Act::Deallocate, None, COLOR, 8, ABSENT),
    (Act::Allocate, None, COLOR, 8, Ok(0)),
    (Act::Allocate, None, COLOR, 16, DIFFERS),
    (Act::Assign(1), None, COLOR, 16, DIFFERS),
    (Act::Deallocate, None, COLOR, 16, DIFFERS),
    (Act::Read, None, COLOR, 16, DIFFERS),
    (Act::Read, None, COLOR, 8, Err(LayoutFault::Unset)),
];

#[test]
fn faults_of_absent_other_and_unset_metadata(rt: HostRuntime) {
    let mut scopes = Scopes::new();
    assert_rows(&rt, rt.alloc(), &mut scopes, FAULTS);
}

#[test]
fn laws_are_there_to_cite() {
    laws::valuing_commutes::<u64, u8>();
    laws::assign_then_read::<u64>();
    laws::allocate_then_deallocate::<u64>();
    laws::snapshot_ascends::<u64>();
}
