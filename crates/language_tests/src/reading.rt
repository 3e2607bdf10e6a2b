//! Bytes that are read as jobs, and why others are not.

use crate::jobs::{check, check_printed, joined, repeated};
use sefl_lex::LexFault;
use sefl_reader::{ReadFault, position, read_job};
use std::alloc::Global;
use std::process::Abort;

const CANONICAL: &str = "symnet 2;
node a 1 -> 0 {
  in 0 {
  }
}
inject a.0 {
}
";

fn fault(alloc: Global, bytes: &[u8]) -> Option<ReadFault> {
    read_job(alloc, bytes).err()
}

#[test]
fn a_canonical_text_is_read_back(rt: HostRuntime) {
    let job = read_job(rt.alloc(), CANONICAL.as_bytes()).ok();
    let job = job.expect(&rt, "a job");
    check_printed(&rt, rt.alloc(), &job, CANONICAL);
    drop(job);
}

fn check_place(rt: &impl Abort, at: u64, place: (u64, u64)) {
    assert_eq!(rt; position(b"a\nbc", at), place, "{at}");
}

#[test]
fn places_have_a_line_and_a_column(rt: HostRuntime) {
    for (at, place) in [
        (0, (1, 1)),
        (1, (1, 2)),
        (2, (2, 1)),
        (4, (2, 3)),
        (u64::MAX, (2, 3)),
    ] {
        check_place(&rt, at, place);
    }
}

/// Texts that are no job, with the line and the column of the first token that is wrong.
const REFUSED: &[(&str, u64, u64)] = &[
    ("", 1, 1),
    ("symnet 3;", 1, 8),
    ("symnet 1;\r\nnode a 1 -> 0 { in 0 {\n retag", 3, 2),
    ("symnet 1; inject \u{22}\u{e9}\u{22}", 1, 18),
    ("symnet 2; node a 1 -> 4294967296", 1, 23),
    ("symnet 2; inject a.0 { field head 1048577:8", 1, 35),
    ("symnet 2; inject a.0 { field head 0:129", 1, 37),
    ("symnet 2; inject a.0 {", 1, 23),
];

fn check_refused(rt: &impl Abort, alloc: Global, text: &str, line: u64, column: u64) {
    let wanted = ReadFault::Expected { line, column };
    check(rt, fault(alloc, text.as_bytes()) == Some(wanted), text);
}

#[test]
fn bytes_that_are_no_job_are_refused_at_their_place(rt: HostRuntime) {
    for (text, line, column) in REFUSED {
        check_refused(&rt, rt.alloc(), text, *line, *column);
    }
}

fn check_fault(rt: &impl Abort, alloc: Global, bytes: &[u8], wanted: Option<ReadFault>) {
    assert!(rt; fault(alloc, bytes) == wanted, "{bytes:?}");
}

#[test]
fn other_faults_are_told(rt: HostRuntime) {
    let fault = LexFault::BadCharacter { at: 16 };
    let lex = b"// \xc3\xa9\nsymnet 1; /";
    check_fault(&rt, rt.alloc(), lex, Some(ReadFault::Lex { fault }));
    let job = b"symnet 1; inject a.0 { } // the end";
    check_fault(&rt, rt.alloc(), job, None);
    let not_text = Some(ReadFault::NotText { at: 0 });
    check_fault(&rt, rt.alloc(), b"\xff", not_text);
}

/// A job whose code has `depth` nested blocks, each opened on a line of its own.
fn nested(rt: &impl Abort, alloc: Global, depth: u32) -> String {
    let (open, close) = (
        repeated(rt, alloc, "{\n", depth),
        repeated(rt, alloc, "}", depth),
    );
    let front = "symnet 2; node a 1 -> 0 { in 0 {\n";
    joined(
        rt,
        alloc,
        &[front, open.as_str(), close.as_str(), "}}inject a.0{}"],
    )
}

fn check_nested(rt: &impl Abort, alloc: Global, depth: u32, wanted: Option<ReadFault>) {
    let text = nested(rt, alloc, depth);
    assert!(rt; fault(alloc, text.as_bytes()) == wanted, "{depth}");
}

#[test]
fn sixty_four_constructs_may_be_open(rt: HostRuntime) {
    for (depth, wanted) in [(63, None), (64, Some(ReadFault::TooDeep { line: 65 }))] {
        check_nested(&rt, rt.alloc(), depth, wanted);
    }
}
