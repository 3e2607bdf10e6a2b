//! Each rule broken alone, and which of two is told.

use super::asked::{Broken, check_all};
use job_items::{Rule, Which};

/// A node `a` with two ports on each side, and empty code for one of them: what follows is item 2.
const PLAIN: &str = "node a 2 -> 2 { in 1 { } } ";

/// A packet that comes in by port 0 of the node `a`.
const INJECT: &str = " inject a.0 { }";

#[test]
fn instructions_are_checked(rt: HostRuntime) {
    const ROWS: &[(&str, Broken)] = &[
        ("forward 2;", Some((2, Rule::PortRange))),
        ("fork 0, 2;", Some((2, Rule::PortRange))),
        ("fork 1, 1;", None),
        ("fork;", Some((2, Rule::EmptyFork))),
        ("set head 0:8 = head 8:16;", Some((2, Rule::WidthMismatch))),
        (
            "set head 0:8 = head 8:8 - head 16:16;",
            Some((2, Rule::WidthMismatch)),
        ),
        ("constrain head 0:8 == 255;", None),
        ("constrain head 0:8 == 256;", Some((2, Rule::TooWide))),
        ("allocate $x:8;", Some((2, Rule::Unbound))),
        ("constrain head 0:8 in {5..3};", Some((2, Rule::BadRanges))),
        // Of two rules of an item the first is told.
        ("constrain head 0:8 in {300..5};", Some((2, Rule::TooWide))),
        ("constrain $x:8 == 256;", Some((2, Rule::TooWide))),
    ];
    check_all(
        &rt,
        rt.alloc(),
        "node a 2 -> 2 { in 1 { ",
        ROWS,
        " } } inject a.0 { }",
    );
}

#[test]
fn output_ports_do_not_forward(rt: HostRuntime) {
    const ROWS: &[(&str, Broken)] = &[
        ("forward 0;", Some((2, Rule::OutForward))),
        // Of two rules of an item the first is told.
        ("forward 5;", Some((2, Rule::PortRange))),
        ("fork;", Some((2, Rule::OutForward))),
    ];
    check_all(
        &rt,
        rt.alloc(),
        "node a 2 -> 2 { out 1 { ",
        ROWS,
        " } } inject a.0 { }",
    );
}

#[test]
fn loops_bind_their_variables(rt: HostRuntime) {
    const ROWS: &[(&str, Broken)] = &[
        (
            "for x in \"opt\" { for y in \"opt\" { allocate $x:8; } }",
            None,
        ),
        (
            "for x in \"opt\" { for y in \"opt\" { allocate $z:8; } }",
            Some((4, Rule::Unbound)),
        ),
        (
            "for x in \"opt\" { } allocate $x:8;",
            Some((3, Rule::Unbound)),
        ),
        (
            "for x in \"opt\" { for y in \"opt\" { for z in \"opt\" { } } }",
            Some((4, Rule::NestedFor)),
        ),
    ];
    check_all(
        &rt,
        rt.alloc(),
        "node a 2 -> 2 { in 1 { ",
        ROWS,
        " } } inject a.0 { }",
    );
}

#[test]
fn nodes_and_links_are_checked(rt: HostRuntime) {
    const NODES: &[(&str, Broken)] = &[
        (
            "node a 1 -> 0 { } node a 1 -> 0 { }",
            Some((1, Rule::TwiceNode)),
        ),
        ("node a 2 -> 2 { in 2 { } }", Some((1, Rule::PortRange))),
        ("node a 2 -> 2 { in 1 { } out 1 { } }", None),
        (
            "node a 2 -> 2 { in 1 { noop; } in 1 { } }",
            Some((3, Rule::TwiceCode)),
        ),
        // Of two rules of an item, and of two items, the first is told.
        (
            "node a 1 -> 0 { } node a 1025 -> 0 { }",
            Some((1, Rule::TwiceNode)),
        ),
        (
            "node a 1025 -> 1026 { } node a 1 -> 0 { }",
            Some((
                0,
                Rule::Limit {
                    which: Which::Ports,
                    count: 1_025,
                },
            )),
        ),
    ];
    check_all(&rt, rt.alloc(), "", NODES, INJECT);
    const LINKS: &[(&str, Broken)] = &[
        ("link a.0 -> b.0;", Some((2, Rule::NoNode))),
        ("link b.0 -> a.0;", Some((2, Rule::NoNode))),
        ("link a.0 -> a.2;", Some((2, Rule::PortRange))),
        ("link a.2 -> a.0;", Some((2, Rule::PortRange))),
        ("link a.0 -> a.0; link a.1 -> a.0;", None),
        (
            "link a.0 -> a.0; link a.0 -> a.1;",
            Some((3, Rule::TwoLinks)),
        ),
    ];
    check_all(&rt, rt.alloc(), PLAIN, LINKS, INJECT);
}

#[test]
fn packets_enter_by_a_port(rt: HostRuntime) {
    const ROWS: &[(&str, Broken)] = &[
        ("} } inject a.2 { }", Some((2, Rule::PortRange))),
        ("} } inject b.2 { }", Some((2, Rule::NoNode))),
        // Of two items the first is told.
        (
            "fork; } } node a 1 -> 0 { } inject a.7 { }",
            Some((2, Rule::EmptyFork)),
        ),
    ];
    check_all(&rt, rt.alloc(), "node a 2 -> 2 { in 1 { ", ROWS, "");
}

#[test]
fn packets_have_tags_and_fields(rt: HostRuntime) {
    const ROWS: &[(&str, Broken)] = &[
        ("tag L = 1048576;", Some((3, Rule::BadAddress))),
        ("tag L = 1048575; tag M = L+1;", Some((4, Rule::BadAddress))),
        ("tag L = L+0;", Some((3, Rule::Unbound))),
        ("tag L = -1048576;", None),
        (
            "tag L = -1048576; field head L-1:8;",
            Some((4, Rule::BadAddress)),
        ),
        (
            "tag L = -1048576; field head M+0:8;",
            Some((4, Rule::Unbound)),
        ),
        ("field head 0:8 = 256;", Some((3, Rule::TooWide))),
        (
            "tag L = 4; tag M = 4; field head L+8:8; field head M+16:8;",
            None,
        ),
        (
            "tag L = 4; tag M = 4; field head L+8:8; field head M+15:8;",
            Some((6, Rule::Overlap)),
        ),
        (
            "tag L = 4; tag M = 4; field global m:8; field global m:8;",
            Some((6, Rule::Overlap)),
        ),
        // Of two rules of an item the first is told.
        ("field head M+0:8 = 256;", Some((3, Rule::TooWide))),
    ];
    check_all(
        &rt,
        rt.alloc(),
        "node a 2 -> 2 { in 1 { } } inject a.0 { ",
        ROWS,
        " }",
    );
}

#[test]
fn packets_have_tests(rt: HostRuntime) {
    const ROWS: &[(&str, Broken)] = &[
        ("head 8:8 == 255", None),
        ("head 8:8 == 256", Some((5, Rule::TooWide))),
        ("head 8:16 == 1", Some((5, Rule::WidthMismatch))),
        ("head 9:8 == 1", Some((5, Rule::Unbound))),
        ("head M+4:8 == 1", Some((5, Rule::Unbound))),
        ("head 8:8 in {5..3}", Some((5, Rule::BadRanges))),
    ];
    let before = "node a 2 -> 2 { in 1 { } } inject a.0 { tag L = 4; field head L+4:8; where ";
    check_all(&rt, rt.alloc(), before, ROWS, "; }");
}

#[test]
fn asks_are_checked(rt: HostRuntime) {
    const ROWS: &[(&str, Broken)] = &[
        ("ask reach in q.0 with global m:8 == 255;", None),
        (
            "ask reach in q.0 with global m:8 == 256;",
            Some((3, Rule::TooWide)),
        ),
        (
            "ask reach in q.0 with head 0:8 in {5..3};",
            Some((3, Rule::BadRanges)),
        ),
        (
            "ask visible head 0:8 at in q.0; ask invariant $x:8 at in q.0;",
            Some((4, Rule::Unbound)),
        ),
    ];
    check_all(
        &rt,
        rt.alloc(),
        "node a 2 -> 2 { in 1 { } } inject a.0 { } ",
        ROWS,
        "",
    );
}
