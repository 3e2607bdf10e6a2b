//! The walks of a packet.

use crate::jobs::accepted;
use crate::same::{check, same_count, same_text};
use concrete_run::{StartFault, WalkFault, start, walk_all, walk_one};
use sefl_meaning::{Decision, End, Failure, Place, Walk};
use sefl_syntax::Side;
use sn_width::Num;
use std::alloc::{AllocError, Global};
use std::fmt::Write;
use std::process::Abort;

const TTL: &str =
    "symnet 1; node r 1 -> 1 { in 0 { if head L3+64:8 <= 1 { fail \"dead\"; } else { forward 0; } } }
inject r.0 { tag L3 = 112; field head L3+64:8; }";

fn put_decision(out: &mut String, decision: Decision) -> Result<(), AllocError> {
    match decision {
        Decision::Then => out.push_str("T"),
        Decision::Else => out.push_str("E"),
        Decision::Pass => out.push_str("P"),
        Decision::Broken => out.push_str("B"),
        Decision::Copy(number) => write!(out, "{number}"),
    }
}

fn put_place(out: &mut String, place: &Place) -> Result<(), AllocError> {
    let (node, port) = (place.node.0, place.port);
    match place.side {
        Side::Inward => write!(out, " {node}<{port}"),
        Side::Outward => write!(out, " {node}>{port}"),
    }
}

fn put_end(out: &mut String, end: &End) -> Result<(), AllocError> {
    let End::Failed { failure, site } = end else {
        return out.push_str(match end {
            End::Delivered => " delivered",
            End::Cut => " cut",
            _ => " stopped",
        });
    };
    let site = site.0;
    match failure {
        Failure::Layout(fault) => write!(out, " fault {} at {site}", fault.number()),
        Failure::Constraint => write!(out, " constraint at {site}"),
        Failure::Message { text } => write!(out, " {text} at {site}"),
    }
}

/// A walk in short: its decisions, its places and its end.
fn put_walk(out: &mut String, walk: &Walk) -> Result<(), AllocError> {
    for decision in &walk.decisions {
        put_decision(out, *decision)?;
    }
    for place in &walk.places {
        put_place(out, place)?;
    }
    put_end(out, &walk.end)
}

/// All walks of a job's packet, or why there are none.
fn walks(
    rt: &impl Abort,
    alloc: Global,
    text: &str,
    values: &[Num],
    hops: u32,
    limit: u32,
) -> Result<Vec<Walk>, WalkFault> {
    let job = accepted(rt, alloc, text);
    let walks = walk_all(alloc, &job.net, &job.injection, values, hops, limit);
    drop(job);
    walks
}

/// Walks in short, with `;` behind each.
fn written(rt: &impl Abort, alloc: Global, walks: &[Walk]) -> String {
    let mut out = String::new(alloc);
    for walk in walks {
        put_walk(&mut out, walk).expect(rt, "memory");
        out.push_str(";").expect(rt, "memory");
    }
    out
}

/// All walks in short.
fn lines(rt: &impl Abort, alloc: Global, text: &str, values: &[Num], hops: u32) -> String {
    let walks = walks(rt, alloc, text, values, hops, 100)
        .ok()
        .expect(rt, "walks");
    written(rt, alloc, walks.as_slice())
}

fn assert_lines(
    rt: &impl Abort,
    alloc: Global,
    text: &str,
    values: &[Num],
    hops: u32,
    wanted: &str,
) {
    let found = lines(rt, alloc, text, values, hops);
    same_text(rt, found.as_str(), wanted);
}

#[test]
fn ttl_forwards_or_dies(rt: HostRuntime) {
    assert_lines(&rt, rt.alloc(), TTL, &[1], 16, "T 0<0 dead at 3;");
    assert_lines(&rt, rt.alloc(), TTL, &[2], 16, "E 0<0 0>0 delivered;");
}

/// The job of a box with this code, whose packet has a byte 5 in the header at 0 and in the metadata m and n.
fn box_with(rt: &impl Abort, alloc: Global, code: &str) -> String {
    let text = format!(in alloc;
        "symnet 2; node a 1 -> 1 {{ in 0 {{ {code} }} }} \
        inject a.0 {{ field head 0:8 = 5; field global m:8 = 5; field global n:8 = 5; }}"
    );
    text.expect(rt, "memory")
}

/// The walks' text begins with a walk that ends at once, with the fault of this number.
fn begins_with_fault(rt: &impl Abort, alloc: Global, lines: &str, number: &str) -> bool {
    let wanted = format!(in alloc; " 0<0 fault {number} ").expect(rt, "memory");
    lines.starts_with(wanted.as_str())
}

/// Code in the box, and the fault that its walk ends with at once.
const FAULTS: &[(&str, &str)] = &[
    ("allocate head T+0:8;", "1"),
    ("allocate head 1048576:8;", "2"),
    ("allocate head 0:16;", "4"),
    ("allocate head 4:8;", "5"),
    ("allocate global m:16;", "4"),
    ("deallocate head 4:8;", "3"),
    ("deallocate head 0:16;", "4"),
    ("deallocate local m:8;", "7"),
    ("set head 4:8 = 1;", "3"),
    ("set global m:8 = head 0:8 + global x:8;", "7"),
    ("set global x:8 = any;", "7"),
    ("tag S = T+0;", "1"),
    ("retag S = 1048576;", "2"),
    ("untag S;", "1"),
    ("constrain head 0:16 == 5;", "4"),
    ("constrain true or global x:8 == 1;", "7"),
    ("if not global x:8 == 1 { } else { }", "7"),
    ("{ { noop; constrain global x:8 in {1, 2}; } }", "7"),
];

fn assert_fault(rt: &impl Abort, alloc: Global, code: &str, number: &str) {
    let job = box_with(rt, alloc, code);
    let found = lines(rt, alloc, job.as_str(), &[], 1);
    let is_fault = begins_with_fault(rt, alloc, found.as_str(), number);
    check(rt, is_fault, code);
}

#[test]
fn instructions_have_their_faults(rt: HostRuntime) {
    for (code, number) in FAULTS {
        assert_fault(&rt, rt.alloc(), code, number);
    }
}

/// Code in the box, and its walks in short, where the choices are 257 and 0.
const CODES: &[(&str, &str)] = &[
    (
        "allocate global x:8; constrain global x:8 == 0;",
        " 0<0 fault 6 at 3;",
    ),
    ("constrain head 0:8 - 6 == 255;", "P 0<0 stopped;"),
    ("deallocate head 0:16;", " 0<0 fault 4 at 2;"),
    (
        "constrain head 0:8 != 5; fail \"x\";",
        "B 0<0 constraint at 2;",
    ),
    (
        "if head 0:8 == 5 { noop; } else { } fail \"x\";",
        "T 0<0 x at 4;",
    ),
    (
        "if head 0:8 < 5 { noop; noop; } else { noop; fail \"x\"; }",
        "E 0<0 x at 6;",
    ),
    (
        "for v in \"^m\" { constrain $v:8 == 5; }",
        "PP 0<0 stopped;",
    ),
    (
        "for v in \"^m\" { deallocate $v:8; } constrain global n:8 == 5;",
        " 0<0 fault 7 at 4;",
    ),
    (
        "for v in \"^m\" { constrain $v:8 == 5; deallocate global n:8; }",
        "P 0<0 fault 7 at 3;",
    ),
    (
        "for v in \"^m\" { for w in \"^m\" { deallocate $w:8; } }",
        " 0<0 stopped;",
    ),
    (
        "for v in \"^m\" { for w in \"^m\" { deallocate $w:8; } deallocate $v:8; }",
        " 0<0 fault 7 at 5;",
    ),
    (
        "for v in \"^m\" { set $v:8 = any; } constrain global m:8 == 1; constrain global n:8 == 0;",
        "PP 0<0 stopped;",
    ),
    (
        "for v in \"^x\" { fail \"y\"; } forward 0; fail \"x\";",
        " 0<0 0>0 delivered;",
    ),
];

fn assert_code(rt: &impl Abort, alloc: Global, code: &str, wanted: &str) {
    let job = box_with(rt, alloc, code);
    assert_lines(rt, alloc, job.as_str(), &[257], 1, wanted);
}

#[test]
fn code_runs_as_it_should(rt: HostRuntime) {
    for (code, wanted) in CODES {
        assert_code(&rt, rt.alloc(), code, wanted);
    }
}

const FORK: &str = "symnet 1; node a 1 -> 2 { in 0 { fork 0, 1, 1; } } inject a.0 { }";

/// Why there are no walks, with a limit of one.
fn assert_refusal(rt: &impl Abort, alloc: Global, text: &str, wanted: WalkFault) {
    let refusal = walks(rt, alloc, text, &[], 1, 1).err();
    assert!(rt; refusal == Some(wanted));
}

/// The walk with this one decision.
fn only_walk(
    rt: &impl Abort,
    alloc: Global,
    text: &str,
    values: &[Num],
    hops: u32,
    decision: Decision,
) -> Option<Walk> {
    let job = accepted(rt, alloc, text);
    let found = walk_one(alloc, &job.net, &job.injection, values, hops, &[decision]);
    drop(job);
    found.ok().expect(rt, "an answer")
}

/// The walk in short; nothing where there is none.
fn line(rt: &impl Abort, alloc: Global, walk: &Option<Walk>) -> String {
    let mut out = String::new(alloc);
    if let Some(walk) = walk {
        put_walk(&mut out, walk).expect(rt, "memory");
    }
    out
}

/// The walk with this one decision, in short.
fn assert_line(
    rt: &impl Abort,
    alloc: Global,
    text: &str,
    values: &[Num],
    hops: u32,
    decision: Decision,
    wanted: &str,
) {
    let walk = only_walk(rt, alloc, text, values, hops, decision);
    let found = line(rt, alloc, &walk);
    drop(walk);
    same_text(rt, found.as_str(), wanted);
}

#[test]
fn fork_has_a_copy_for_each_listed_port(rt: HostRuntime) {
    let wanted = "0 0<0 0>0 delivered;1 0<0 0>1 delivered;2 0<0 0>1 delivered;";
    assert_lines(&rt, rt.alloc(), FORK, &[], 1, wanted);
    let fault = WalkFault::TooMany { count: 2 };
    assert_refusal(&rt, rt.alloc(), FORK, fault);
    let third = "2 0<0 0>1 delivered";
    assert_line(&rt, rt.alloc(), FORK, &[], 1, Decision::Copy(2), third);
}

#[test]
fn one_walk_is_found_by_its_decisions(rt: HostRuntime) {
    let dead = "T 0<0 dead at 3";
    assert_line(&rt, rt.alloc(), TTL, &[1], 16, Decision::Then, dead);
    assert_line(&rt, rt.alloc(), TTL, &[1], 16, Decision::Else, "");
}

const RING: &str = "symnet 1; node a 1 -> 1 { in 0 { allocate local m:8; forward 0; } }
node b 1 -> 1 { in 0 { forward 0; } out 0 { constrain true; } }
link a.0 -> b.0; link b.0 -> a.0; inject a.0 { }";

/// How many places the only walk arrives at.
fn place_count(rt: &impl Abort, walks: &[Walk]) -> usize {
    walks.first().expect(rt, "a walk").places.len()
}

/// The ring's only walk with `hops` hops arrives at `wanted` places.
fn assert_places(rt: &impl Abort, alloc: Global, hops: u32, wanted: usize) {
    let walks = walks(rt, alloc, RING, &[], hops, 1)
        .ok()
        .expect(rt, "walks");
    same_count(rt, place_count(rt, walks.as_slice()), wanted);
}

#[test]
fn hops_count_input_ports(rt: HostRuntime) {
    const ROWS: &[(u32, &str)] = &[
        (1, " 0<0 0>0 1<0 cut;"),
        (2, "P 0<0 0>0 1<0 1>0 0<0 cut;"),
        (3, "P 0<0 0>0 1<0 1>0 0<0 0>0 1<0 cut;"),
    ];
    for (hops, wanted) in ROWS {
        assert_lines(&rt, rt.alloc(), RING, &[], *hops, wanted);
    }
    assert_places(&rt, rt.alloc(), 256, 513);
}

const LOCAL: &str =
    "symnet 1; node a 1 -> 1 { in 0 { allocate local m:8; set local m:8 = 1; forward 0; } }
node b 1 -> 0 { in 0 { constrain local m:8 == 1; } }
link a.0 -> b.0; inject a.0 { }";

const BACK: &str =
    "symnet 1; node a 2 -> 1 { in 0 { allocate local n:8; set local n:8 = 5; forward 0; } in 1 { constrain local n:8 == 5; } }
node b 1 -> 1 { in 0 { forward 0; } }
link a.0 -> b.0; link b.0 -> a.1; inject a.0 { }";

#[test]
fn locals_belong_to_their_box(rt: HostRuntime) {
    let fault = " 0<0 0>0 1<0 fault 7 at 7;";
    assert_lines(&rt, rt.alloc(), LOCAL, &[], 2, fault);
    let stopped = "P 0<0 0>0 1<0 1>0 0<1 stopped;";
    assert_lines(&rt, rt.alloc(), BACK, &[], 3, stopped);
}

const WHERE: &str = "symnet 1; node a 1 -> 0 { in 0 { constrain global x:8 == 0; } }
inject a.0 { field global x:8; field global y:8 = 3; field global z:4; where global x:8 <= global y:8; where global z:4 == 1; }";

/// What `start` answers on these numbers.
fn started(rt: &impl Abort, alloc: Global, values: &[Num]) -> Option<StartFault> {
    let job = accepted(rt, alloc, WHERE);
    let fault = start(alloc, &job.net, &job.injection, values).err();
    drop(job);
    fault
}

fn assert_started(rt: &impl Abort, alloc: Global, values: &[Num], wanted: Option<StartFault>) {
    assert!(rt; started(rt, alloc, values) == wanted, "{values:?}");
}

#[test]
fn packets_meet_the_injection(rt: HostRuntime) {
    const ROWS: &[(&[Num], Option<StartFault>)] = &[
        (&[300], Some(StartFault::Short { needed: 2 })),
        (&[3, 16], Some(StartFault::ValueTooWide { field: 1 })),
        (&[4, 0], Some(StartFault::WhereFalse { index: 0 })),
        (&[3, 0], Some(StartFault::WhereFalse { index: 1 })),
        (&[3, 1], None),
    ];
    for (values, wanted) in ROWS {
        assert_started(&rt, rt.alloc(), values, *wanted);
    }
    let fault = StartFault::Short { needed: 2 };
    assert_refusal(&rt, rt.alloc(), WHERE, WalkFault::Start { fault });
}
