//! Sites behind blocks, and of each kind of item.

use super::asked::{Broken, check, check_all};
use crate::jobs::joined;
use job_items::Rule;
use std::alloc::Global;
use std::process::Abort;

/// Node `a` (item 0) with code (1): an If (2) with a block of two instructions (3 to 5), and else a
/// For of one (6, 7) and one more (8).
const NESTED: &str = "node a 2 -> 2 { in 1 { if true { { noop; noop; } } else { \
    for x in \"opt\" { noop; } noop; } ";

#[test]
fn items_stand_behind_blocks(rt: HostRuntime) {
    const ROWS: &[(&str, Broken)] = &[
        ("forward 9; } } inject a.0 { }", Some((9, Rule::PortRange))),
        ("noop; } } inject a.0 { }", None),
        ("noop; } } inject a.9 { }", Some((10, Rule::PortRange))),
    ];
    check_all(&rt, rt.alloc(), NESTED, ROWS, "");
}

#[test]
fn items_stand_within_blocks(rt: HostRuntime) {
    const ROWS: &[(&str, Broken)] = &[
        (
            "if true { { noop; forward 9; } } else { forward 9; }",
            Some((5, Rule::PortRange)),
        ),
        (
            "if true { noop; } else { for x in \"opt\" { forward 9; } }",
            Some((5, Rule::PortRange)),
        ),
        (
            "noop; if head 0:8 == 256 { } else { }",
            Some((3, Rule::TooWide)),
        ),
    ];
    check_all(
        &rt,
        rt.alloc(),
        "node a 2 -> 2 { in 1 { ",
        ROWS,
        " } } inject a.0 { }",
    );
}

/// Node `a` (item 0) with code at two ports (1 to 4), and nodes `b` and `c` without code (5, 6).
const NODES: &str = "node a 2 -> 2 { in 0 { forward 1; } out 1 { noop; } } \
    node b 1 -> 1 { } node c 1 -> 0 { } ";

/// Two links (7, 8).
const LINKS: &str = "link a.1 -> b.0; link b.0 -> c.0; ";

/// The injection (9) with a tag (10).
const INJECT: &str = "inject a.0 { tag L = 0; ";

/// The same by a port that is not there.
const BAD_INJECT: &str = "inject a.2 { tag L = 0; ";

/// Two fields (11, 12).
const FIELDS: &str = "field head 0:8; field global m:8; ";

/// A test (13).
const TEST: &str = "where head 0:8 == 1; ";

/// Two asks (14, 15).
const ASKS: &str = "} ask reach in q.0; ask reach in q.0 with head 0:8 == 1; ";

/// Checks what the job of these pieces breaks.
fn check_pieces(rt: &impl Abort, alloc: Global, pieces: &[&str], broken: Broken) {
    let text = joined(rt, alloc, pieces);
    check(rt, alloc, text.as_str(), broken);
}

#[test]
fn each_kind_of_item_has_sites(rt: HostRuntime) {
    const ROWS: &[(&[&str], Broken)] = &[
        (&[NODES, LINKS, INJECT, FIELDS, TEST, ASKS], None),
        (
            &[
                NODES,
                "node b 1 -> 0 { } ",
                LINKS,
                INJECT,
                FIELDS,
                TEST,
                ASKS,
            ],
            Some((7, Rule::TwiceNode)),
        ),
        (
            &[
                NODES,
                LINKS,
                "link c.0 -> a.0; ",
                INJECT,
                FIELDS,
                TEST,
                ASKS,
            ],
            Some((9, Rule::PortRange)),
        ),
        (
            &[NODES, LINKS, BAD_INJECT, FIELDS, TEST, ASKS],
            Some((9, Rule::PortRange)),
        ),
        (
            &[
                NODES,
                "node d 2 -> 2 { out 1 { forward 0; } } ",
                LINKS,
                INJECT,
                FIELDS,
                TEST,
                ASKS,
            ],
            Some((9, Rule::OutForward)),
        ),
        (
            &[
                NODES,
                LINKS,
                INJECT,
                "tag M = 1048576; ",
                FIELDS,
                TEST,
                ASKS,
            ],
            Some((11, Rule::BadAddress)),
        ),
        (
            &[
                NODES,
                LINKS,
                INJECT,
                FIELDS,
                "field global m:8; ",
                TEST,
                ASKS,
            ],
            Some((13, Rule::Overlap)),
        ),
        (
            &[
                NODES,
                LINKS,
                INJECT,
                FIELDS,
                TEST,
                "where head 1:8 == 1; ",
                ASKS,
            ],
            Some((14, Rule::Unbound)),
        ),
        (
            &[
                NODES,
                LINKS,
                INJECT,
                FIELDS,
                TEST,
                ASKS,
                "ask reach in q.0 with head 0:8 == 256;",
            ],
            Some((16, Rule::TooWide)),
        ),
    ];
    for (pieces, broken) in ROWS {
        check_pieces(&rt, rt.alloc(), pieces, *broken);
    }
}
