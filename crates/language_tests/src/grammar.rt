//! What texts are by the grammar.

use crate::jobs::{check, joined, repeated};
use sefl_grammar::{Finding, examine};
use sefl_lex::tokens;
use std::alloc::Global;
use std::process::Abort;

fn finding(rt: &impl Abort, alloc: Global, text: &str) -> Finding {
    let found = tokens(alloc, text).expect(rt, "tokens");
    examine(alloc, text, &found).expect(rt, "memory")
}

fn check_finding(rt: &impl Abort, alloc: Global, text: &str, wanted: Finding) {
    check(rt, finding(rt, alloc, text) == wanted, text);
}

const JOBS: &[&str] = &[
    "symnet 1; node a 1 -> 0 { in 0 { } } inject a.0 { }",
    "symnet 2; inject in.0 { }",
    "symnet 1; node node 1 -> 1 { in 0 { tag L3 = 5; untag L3; if [not true] and $x:8 in {1..2, 3}
            or head L3-4:128 <= (1 + global g:8) - 2 { noop; { } } else { fork ; fork 0, 1; } } out 0 { } }
            link node.0 -> node.0; inject node.0 { tag L3 = -5; field global g:8; field head 3:8 = 0x7;
            where true; } ask reach in node.0; ask invariant local l:1 at out a.1;",
    "symnet 2; node sw = mac \"sw.mac\" egress; node f = fib \"f\" chain; node b 0 -> 0 { in 0 {
            retag L3 = L2+1; tag L2 = 0; allocate head 1:8; deallocate local m:8; set $v:8 = any;
            set $v:8 = 1 - 2; constrain 1 + 2 != 3; fail \"dead\"; for o in \"^opt\" { forward 1; } } }
            inject b.0 { field head L3+4:8; } ask visible head 0:8 at in b.0; ask reach in b.0 with 1 == 1;",
];

#[test]
fn jobs_use_each_word_of_the_grammar(rt: HostRuntime) {
    for text in JOBS {
        check_finding(&rt, rt.alloc(), text, Finding::Job);
    }
}

/// Texts that are no job, with the first token that is wrong.
const UNEXPECTED: &[(&str, usize)] = &[
    ("", 0),
    ("symnet 3;", 1),
    ("symnet 01;", 1),
    ("symnet 1; node a 1 -> 0 { in 0 {", 12),
    ("symnet 1; inject a.0 { } inject", 9),
    ("symnet 1; node a 4294967296 -> 0", 5),
    ("symnet 1; node a 0 -> 0 { in 0 { retag", 12),
    ("symnet 2; inject a.0 { field head 0:129", 12),
    ("symnet 2; inject a.0 { field head 0:0", 12),
    ("symnet 2; inject a.0 { tag t = t+1048577", 13),
    ("symnet 2; inject a.0 { where true } ", 10),
    ("symnet 2; inject a.0 { where 1 == 2 + ; ", 13),
    ("symnet 2; inject a.0 { where 1 == 2 == 3", 12),
    ("symnet 2; inject a.0 { where not [true and not] }", 14),
];

#[test]
fn the_first_token_of_no_job_is_found(rt: HostRuntime) {
    for (text, place) in UNEXPECTED {
        let place = *place;
        check_finding(&rt, rt.alloc(), text, Finding::Unexpected { place });
    }
}

/// A job with a test within `count` constructs.
fn nested(rt: &impl Abort, alloc: Global, open: &str, close: &str, count: u32) -> String {
    let (open, close) = (
        repeated(rt, alloc, open, count),
        repeated(rt, alloc, close, count),
    );
    let front = "symnet 2; inject a.0 { where ";
    joined(
        rt,
        alloc,
        &[front, open.as_str(), "true", close.as_str(), "; }"],
    )
}

fn check_nested(
    rt: &impl Abort,
    alloc: Global,
    open: &str,
    close: &str,
    count: u32,
    wanted: Finding,
) {
    let text = nested(rt, alloc, open, close, count);
    let found = finding(rt, alloc, text.as_str());
    assert!(rt; found == wanted, "{open} {count}");
}

#[test]
fn brackets_and_nots_nest_to_64(rt: HostRuntime) {
    for (open, close, count, wanted) in [
        ("[", "]", 64, Finding::Job),
        ("[", "]", 65, Finding::TooDeep { place: 73 }),
        ("not ", "", 300_000, Finding::TooDeep { place: 73 }),
        ("[", "", 300_000, Finding::Unexpected { place: 300_010 }),
    ] {
        check_nested(&rt, rt.alloc(), open, close, count, wanted);
    }
}
