//! The checker of covers: which steps show that rule 2 of a list decides nothing.

use acl_model::Cover::{Cut, Inside};
use acl_model::{Cover, read_acl};
use std::alloc::Global;
use std::process::Abort;

/// Rule 1 contains rule 2.
const ONE: &str = "permit 6 10.0.0.0/8 0.0.0.0/0 any 80
deny any 10.0.0.0/8 0.0.0.0/0 any any
permit 17 10.1.0.0/16 0.0.0.0/0 any 53
";

/// Rules 0 and 1 together cover rule 2.
const TWO: &str = "permit any 0.0.0.0/1 0.0.0.0/0 any any
permit any 128.0.0.0/1 0.0.0.0/0 any any
deny any 0.0.0.0/0 0.0.0.0/0 any any
";

/// The least address of the upper half of all addresses.
const HALF: u32 = 2_147_483_648;

fn accepts(rt: &impl Abort, alloc: Global, list: &str, cover: &[Cover]) -> bool {
    let acl = read_acl(alloc, list.as_bytes()).expect(rt, "the list is good");
    assert!(rt; acl.rules().len() > 2);
    acl.check_cover(alloc, 2, cover)
        .expect(rt, "there is memory")
}

fn compare(rt: &impl Abort, alloc: Global, list: &str, rows: &[(&[Cover], bool)]) {
    for (cover, wanted) in rows {
        assert!(rt; accepts(rt, alloc, list, cover) == *wanted);
    }
}

#[test]
fn one_rule_that_contains_another_covers_it(rt: HostRuntime) {
    let rows: [(&[Cover], bool); 6] = [
        (&[Inside { rule: 1 }], true),
        (&[Inside { rule: 0 }], false),
        (&[Inside { rule: 2 }], false),
        (&[Inside { rule: 3 }], false),
        (&[], false),
        (&[Inside { rule: 1 }, Inside { rule: 1 }], false),
    ];
    compare(&rt, rt.alloc(), ONE, &rows);
}

#[test]
fn two_rules_cover_what_is_cut_between_them(rt: HostRuntime) {
    let half = Cut { field: 1, at: HALF };
    let lower = Inside { rule: 0 };
    let upper = Inside { rule: 1 };
    let rows: [(&[Cover], bool); 7] = [
        (&[half, lower, upper], true),
        (&[half, upper, lower], false),
        (&[half, lower], false),
        (&[half, lower, upper, upper], false),
        (&[Cut { field: 5, at: 1 }, lower, upper], false),
        (&[Cut { field: 1, at: 0 }, lower, upper], false),
        (
            &[
                Cut {
                    field: 1,
                    at: HALF - 1,
                },
                lower,
                upper,
            ],
            false,
        ),
    ];
    compare(&rt, rt.alloc(), TWO, &rows);
}
