//! Jobs from their texts, and what else several tests make.

use sefl_reader::read_job;
use sefl_syntax::{Job, Name, Text, print_job};
use sn_edge::MemPatterns;
use std::alloc::Global;
use std::process::Abort;

/// Asserts that it is so of the case that is named. This and the next two are proved once here, and not in each caller.
pub(crate) fn check(rt: &impl Abort, holds: bool, case: &str) {
    assert!(rt; holds, "{case}");
}

/// Asserts that as many are found as are wanted.
pub(crate) fn same_count(rt: &impl Abort, found: u64, wanted: u64) {
    assert_eq!(rt; found, wanted);
}

/// Asserts that the texts are the same.
pub(crate) fn same_text(rt: &impl Abort, found: &str, wanted: &str) {
    assert_eq!(rt; found, wanted);
}

/// Asserts the job's text.
pub(crate) fn check_printed(rt: &impl Abort, alloc: Global, job: &Job, wanted: &str) {
    let printed = print_job(alloc, job).expect(rt, "memory");
    same_text(rt, printed.as_str(), wanted);
}

/// The texts, one behind the other.
pub(crate) fn joined(rt: &impl Abort, alloc: Global, pieces: &[&str]) -> String {
    let mut text = String::new(alloc);
    for piece in pieces {
        text.push_str(piece).expect(rt, "memory");
    }
    text
}

/// The text `count` times.
pub(crate) fn repeated(rt: &impl Abort, alloc: Global, text: &str, count: u32) -> String {
    let mut all = String::new(alloc);
    for _ in 0..count {
        all.push_str(text).expect(rt, "memory");
    }
    all
}

/// The job of a text of the second version, without that text's first words.
pub(crate) fn job_of(rt: &impl Abort, alloc: Global, text: &str) -> Job {
    let text = joined(rt, alloc, &["symnet 2; ", text]);
    match read_job(alloc, text.as_bytes()) {
        Ok(job) => job,
        Err(_) => panic!(rt; "no job: {text}"),
    }
}

pub(crate) fn name_of(rt: &impl Abort, alloc: Global, text: &str) -> Name {
    Name::of(alloc, text)
        .expect(rt, "memory")
        .expect(rt, "a name")
}

pub(crate) fn text_of(rt: &impl Abort, alloc: Global, text: &str) -> Text {
    Text::of(alloc, text).expect(rt, "memory")
}

pub(crate) fn one<T: Drop>(rt: &impl Abort, alloc: Global, item: T) -> Vec<T> {
    let mut items = Vec::new(alloc);
    items.push(item).expect(rt, "memory");
    items
}

pub(crate) fn two<T: Drop>(rt: &impl Abort, alloc: Global, first: T, second: T) -> Vec<T> {
    let mut items = one(rt, alloc, first);
    items.push(second).expect(rt, "memory");
    items
}

fn string_of(rt: &impl Abort, alloc: Global, text: &str) -> String {
    String::from_str(alloc, text).expect(rt, "memory")
}

fn strings_of(rt: &impl Abort, alloc: Global, texts: &[&str]) -> Vec<String> {
    let mut strings = Vec::new(alloc);
    for text in texts {
        strings
            .push(string_of(rt, alloc, text))
            .expect(rt, "memory");
    }
    strings
}

/// Rows of patterns that find the name beside them.
fn found_rows(
    rt: &impl Abort,
    alloc: Global,
    found: &[(&str, &str)],
) -> Vec<(String, String, bool)> {
    let mut rows = Vec::new(alloc);
    for (pattern, name) in found {
        let row = (
            string_of(rt, alloc, pattern),
            string_of(rt, alloc, name),
            true,
        );
        rows.push(row).expect(rt, "memory");
    }
    rows
}

/// Patterns such that each finds the name beside it, and these are bad.
pub(crate) fn patterns_of(
    rt: &impl Abort,
    alloc: Global,
    found: &[(&str, &str)],
    bad: &[&str],
) -> MemPatterns {
    MemPatterns::new(found_rows(rt, alloc, found), strings_of(rt, alloc, bad))
}
