//! Each limit, at it and one past it, and jobs that are large.

use super::asked::{Broken, check, check_all, check_job};
use crate::jobs::{job_of, joined, name_of, one, repeated};
use job_items::{Rule, Which};
use sefl_syntax::{Addr, Body, Cond, Expr, Instr, Job, NodeDecl, PortCode, RawNode, Side, Target};
use sn_width::{Num, Width};
use std::alloc::Global;
use std::fmt::Write;
use std::mem::swap;
use std::process::Abort;

/// The rule of a limit that is passed at the site.
fn past(site: u32, which: Which, count: u64) -> Option<(u32, Rule)> {
    Some((site, Rule::Limit { which, count }))
}

/// The text with each number below the count in it.
fn numbered(rt: &impl Abort, alloc: Global, before: &str, count: u32, behind: &str) -> String {
    let mut all = String::new(alloc);
    for number in 0..count {
        write!(all, "{before}{number}{behind}").expect(rt, "memory");
    }
    all
}

/// Links from each node but the last to the next one.
fn chain(rt: &impl Abort, alloc: Global, count: u32) -> String {
    let mut all = String::new(alloc);
    for number in 1..count {
        let last = number - 1;
        write!(all, "link a{last}.0 -> a{number}.0; ").expect(rt, "memory");
    }
    all
}

/// A job of `count` nodes, each except the last with a link to the next.
fn chained(rt: &impl Abort, alloc: Global, count: u32) -> String {
    let nodes = numbered(rt, alloc, "node a", count, " 1 -> 1 { } ");
    let links = chain(rt, alloc, count);
    joined(
        rt,
        alloc,
        &[nodes.as_str(), links.as_str(), "inject a0.0 { }"],
    )
}

#[test]
fn nodes_are_limited(rt: HostRuntime) {
    let most = chained(&rt, rt.alloc(), 10_000);
    check(&rt, rt.alloc(), most.as_str(), None);
    let more = chained(&rt, rt.alloc(), 10_002);
    let past = past(10_000, Which::Nodes, 10_002);
    check(&rt, rt.alloc(), more.as_str(), past);
}

#[test]
fn ports_are_limited(rt: HostRuntime) {
    let rows = [
        ("1024 -> 1024", None),
        ("1024 -> 1025", past(0, Which::Ports, 1_025)),
        ("1026 -> 1025", past(0, Which::Ports, 1_026)),
    ];
    check_all(&rt, rt.alloc(), "node a ", &rows, " { } inject a.0 { }");
}

/// A job of this code, in pieces: the first instruction is its item 2.
fn coded(rt: &impl Abort, alloc: Global, code: &[&str]) -> String {
    let code = joined(rt, alloc, code);
    let pieces = [
        "node a 2 -> 2 { in 1 { ",
        code.as_str(),
        " } } inject a.0 { } ",
    ];
    joined(rt, alloc, &pieces)
}

#[test]
fn copies_are_limited(rt: HostRuntime) {
    let ports = repeated(&rt, rt.alloc(), "0, ", 1_023);
    let most = coded(&rt, rt.alloc(), &["fork ", ports.as_str(), "0;"]);
    check(&rt, rt.alloc(), most.as_str(), None);
    let more = coded(&rt, rt.alloc(), &["fork ", ports.as_str(), "0, 0;"]);
    check(
        &rt,
        rt.alloc(),
        more.as_str(),
        past(2, Which::Copies, 1_025),
    );
}

/// A job that allocates `count` metadata, each of another name.
fn naming(rt: &impl Abort, alloc: Global, count: u32) -> String {
    let code = numbered(rt, alloc, "allocate global m", count, ":8; ");
    coded(rt, alloc, &[code.as_str()])
}

#[test]
fn names_are_limited(rt: HostRuntime) {
    let known = "ask reach in q.0 with global m7:8 == 1; ";
    let new = "ask reach in q.0 with global q:8 == 1; ";
    let rows = [
        ("", None),
        (known, None),
        (
            "ask reach in q.0 with global m7:8 == 1; ask reach in q.0 with global q:8 == 1;",
            past(1_028, Which::Names, 1_025),
        ),
    ];
    let most = naming(&rt, rt.alloc(), 1_024);
    check_all(&rt, rt.alloc(), most.as_str(), &rows, "");
    let rows = [(new, past(1_026, Which::Names, 1_031))];
    let more = naming(&rt, rt.alloc(), 1_030);
    check_all(&rt, rt.alloc(), more.as_str(), &rows, "");
}

#[test]
fn patterns_are_limited(rt: HostRuntime) {
    let loops = numbered(&rt, rt.alloc(), "for x in \"p", 256, "\" { } ");
    let known = coded(&rt, rt.alloc(), &[loops.as_str(), "for y in \"p7\" { }"]);
    check(&rt, rt.alloc(), known.as_str(), None);
    let more = numbered(&rt, rt.alloc(), "for x in \"p", 260, "\" { } ");
    let more = coded(&rt, rt.alloc(), &[more.as_str()]);
    let all = past(258, Which::Patterns, 260);
    check(&rt, rt.alloc(), more.as_str(), all);
    let third = "for x in \"p0\" { for y in \"p0\" { for z in \"opt\" { } } }";
    let inside = coded(&rt, rt.alloc(), &[loops.as_str(), third]);
    let one_more = past(260, Which::Patterns, 257);
    check(&rt, rt.alloc(), inside.as_str(), one_more);
}

/// A job of this code: the first instruction is its item 2.
fn made_of(rt: &impl Abort, alloc: Global, code: Vec<Instr>) -> Job {
    let port = PortCode {
        side: Side::Inward,
        port: 1,
        code,
    };
    let node = RawNode {
        ins: 2,
        outs: 2,
        codes: one(rt, alloc, port),
    };
    let node = NodeDecl {
        name: name_of(rt, alloc, "a"),
        body: Body::Code(node),
    };
    let mut job = job_of(rt, alloc, "inject a.0 { }");
    job.net.nodes = one(rt, alloc, node);
    job
}

/// A block of `count` instructions.
fn long(rt: &impl Abort, alloc: Global, count: u32) -> Instr {
    let mut body = Vec::new(alloc);
    for _ in 0..count {
        body.push(Instr::NoOp).expect(rt, "memory");
    }
    Instr::Block(body)
}

fn push(rt: &impl Abort, code: &mut Vec<Instr>, instr: Instr) {
    code.push(instr).expect(rt, "memory");
}

/// Checks what the job of this code breaks.
fn check_code(rt: &impl Abort, alloc: Global, code: Vec<Instr>, broken: Broken) {
    let job = made_of(rt, alloc, code);
    check_job(rt, alloc, &job, broken);
    drop(job);
}

#[test]
fn instructions_are_limited(rt: HostRuntime) {
    let code = one(&rt, rt.alloc(), long(&rt, rt.alloc(), 999_999));
    check_code(&rt, rt.alloc(), code, None);
    let mut code = one(&rt, rt.alloc(), long(&rt, rt.alloc(), 999_999));
    push(&rt, &mut code, Instr::NoOp);
    push(&rt, &mut code, long(&rt, rt.alloc(), 1));
    let past = past(1_000_002, Which::Instructions, 1_000_003);
    check_code(&rt, rt.alloc(), code, past);
}

/// So often the range of all bytes.
fn bytes(rt: &impl Abort, alloc: Global, count: u32) -> Vec<(Num, Num)> {
    let mut ranges = Vec::new(alloc);
    for _ in 0..count {
        ranges.push((0, 255)).expect(rt, "memory");
    }
    ranges
}

/// A test of a byte against `count` ranges.
fn wide(rt: &impl Abort, alloc: Global, count: u32) -> Cond {
    let ranges = bytes(rt, alloc, count);
    let width = Width::new(8).expect(rt, "8 bits");
    let addr = Addr {
        tag: None,
        offset: 0,
    };
    let value = Expr::Read(Target::Header { addr, width });
    Cond::member(alloc, value, ranges).expect(rt, "memory")
}

/// A job with two tests against `count` ranges each.
fn ranged(rt: &impl Abort, alloc: Global, count: u32) -> Job {
    let mut code = Vec::new(alloc);
    push(rt, &mut code, Instr::Constrain(wide(rt, alloc, count)));
    push(rt, &mut code, Instr::Constrain(wide(rt, alloc, count)));
    made_of(rt, alloc, code)
}

/// The job takes the asks of the job of a text.
fn take_asks(rt: &impl Abort, alloc: Global, job: &mut Job, text: &str) {
    let mut other = job_of(rt, alloc, text);
    swap(&mut job.asks, &mut other.asks);
    drop(other);
}

#[test]
fn ranges_are_limited(rt: HostRuntime) {
    let mut job = ranged(&rt, rt.alloc(), 2_000_000);
    check_job(&rt, rt.alloc(), &job, None);
    let asks = "inject a.0 { } ask reach in q.0 with head 0:8 in {0..255}; \
        ask reach in q.0 with head 0:8 in {0..255};";
    take_asks(&rt, rt.alloc(), &mut job, asks);
    let past = past(5, Which::Ranges, 4_000_002);
    check_job(&rt, rt.alloc(), &job, past);
    drop(job);
}

/// A job up to the packet's fields: the first of these is item 3.
const PACKET: &str = "node a 2 -> 2 { in 1 { } } inject a.0 { ";

/// The job with `fields` fields and `tests` tests of its packet, up to where this ends.
fn packet(rt: &impl Abort, alloc: Global, fields: u32, tests: u32) -> String {
    let fields = numbered(rt, alloc, "field head ", fields, ":1; ");
    let tests = repeated(rt, alloc, "where true; ", tests);
    joined(rt, alloc, &[PACKET, fields.as_str(), tests.as_str()])
}

#[test]
fn fields_and_tests_are_limited(rt: HostRuntime) {
    let most = packet(&rt, rt.alloc(), 256, 256);
    let rows = [("}", None), ("where true; }", past(515, Which::Tests, 257))];
    check_all(&rt, rt.alloc(), most.as_str(), &rows, "");
    let more = packet(&rt, rt.alloc(), 257, 256);
    let rows = [("where true; }", past(259, Which::Fields, 257))];
    check_all(&rt, rt.alloc(), more.as_str(), &rows, "");
}

#[test]
fn asks_are_limited(rt: HostRuntime) {
    let asks = repeated(&rt, rt.alloc(), "ask reach in q.0; ", 256);
    let most = coded(&rt, rt.alloc(), &[]);
    let most = joined(&rt, rt.alloc(), &[most.as_str(), asks.as_str()]);
    let rows = [
        ("", None),
        ("ask reach in q.0;", past(259, Which::Asks, 257)),
    ];
    check_all(&rt, rt.alloc(), most.as_str(), &rows, "");
}
