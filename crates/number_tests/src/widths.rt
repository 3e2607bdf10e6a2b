//! Widths, relations, faults and steps.

ghost use Rattle.std.specs.Prelude.{◌≡◌, ◌<◌};

use crate::build::{bits, same};
use sn_width::{LayoutFault, NoMemory, Num, Rel, StepFault, Steps, Width};
use std::marker::Brand;
use std::process::Abort;
use std::sync::ledger::{Blank, Ledger};

fn check_width(rt: &impl Abort, width: Width, count: u8, max: Num) {
    assert!(rt; width.bits() == count);
    same(rt, width.max(), max);
}

fn check_no_width(rt: &impl Abort, count: u8) {
    assert!(rt; Width::new(count).is_none());
}

#[test]
fn widths_have_1_to_128_bits(rt: HostRuntime) {
    for (count, max) in [
        (1, 1),
        (8, 255),
        (64, 18446744073709551615),
        (128, Num::MAX),
    ] {
        check_width(&rt, bits(count), count, max);
    }
    check_no_width(&rt, 0);
    check_no_width(&rt, 129);
}

#[test]
fn arithmetic_wraps_at_each_width(rt: HostRuntime) {
    same(&rt, bits(8).add(250, 10), 4);
    same(&rt, bits(8).sub(4, 10), 250);
    same(&rt, bits(128).add(Num::MAX, 1), 0);
    same(&rt, bits(128).sub(0, Num::MAX), 1);
}

/// Relations, and whether each holds where the left number is less, where both are the same, and where the left is greater.
const RELATIONS: &[(Rel, (bool, bool, bool))] = &[
    (Rel::Eq, (false, true, false)),
    (Rel::Ne, (true, false, true)),
    (Rel::Lt, (true, false, false)),
    (Rel::Le, (true, true, false)),
    (Rel::Gt, (false, false, true)),
    (Rel::Ge, (false, true, true)),
];

/// Asserts whether the relation holds where the left number is less, the same and greater.
fn check_relation(rt: &impl Abort, rel: Rel, wanted: (bool, bool, bool)) {
    assert!(rt; rel.holds(4, 5) == wanted.0);
    assert!(rt; rel.holds(5, 5) == wanted.1);
    assert!(rt; rel.holds(6, 5) == wanted.2);
}

fn check_fault(rt: &impl Abort, fault: LayoutFault, number: u8) {
    assert!(rt; fault.number() == number);
}

#[test]
fn relations_and_faults_have_their_meaning(rt: HostRuntime) {
    for (rel, wanted) in RELATIONS {
        check_relation(&rt, *rel, *wanted);
    }
    check_fault(&rt, LayoutFault::NoTag, 1);
    check_fault(&rt, LayoutFault::NoMeta, 7);
    assert!(rt; StepFault::from(NoMemory) == StepFault::NoMemory);
}

fn count_two<L: Ledger>(blank: Blank)
    requires name { blank.name ≡ L.name }
    requires parts { blank.parts ≡ L.parts }
    requires some { 0 < blank.parts }
{
    let mut steps = Steps::<L>::new(blank);
    steps.tick();
    steps.tick();
}

#[test]
fn steps_are_counted_on_a_ledger() {
    count_two::<Brand>(Blank::new(1));
}
