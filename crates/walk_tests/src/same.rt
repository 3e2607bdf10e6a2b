//! What is asserted of a test's cases: each assertion is proved once here, and not in each test.

use crate::cells::Answer;
use std::process::Abort;

/// Asserts that it is so of the case that is named.
pub fn check(rt: &impl Abort, holds: bool, case: &str) {
    assert!(rt; holds, "{case}");
}

/// Asserts that the texts are the same.
pub fn same_text(rt: &impl Abort, found: &str, wanted: &str) {
    assert_eq!(rt; found, wanted);
}

/// Asserts that as many were found as wanted.
pub fn same_count(rt: &impl Abort, found: usize, wanted: usize) {
    assert_eq!(rt; found, wanted);
}

/// Asserts what the call of a row answers.
pub fn same_answer(rt: &impl Abort, row: usize, found: Answer, wanted: Answer) {
    assert!(rt; found == wanted, "row {row}");
}
