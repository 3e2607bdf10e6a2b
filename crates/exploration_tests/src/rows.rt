//! Rows of jobs, with the texts of their records.

use crate::jobs::{accepted, check, records_of, same, text_of};
use crate::tables::{BOXES, FAULTS, LIMITS, PAIRS, Row, SIMPLE, Shown, VALUES};
use net_check::Net;
use path_records::Record;
use std::alloc::Global;
use std::process::Abort;

/// Whether the text is as shown.
fn is_shown(text: &str, shown: Shown) -> bool {
    match shown {
        Shown::Whole(whole) => text == whole,
        Shown::Ends(first, last) => text.starts_with(first) && text.ends_with(last),
    }
}

/// The record has the text that is shown.
fn assert_text(rt: &impl Abort, alloc: Global, net: &Net, record: &Record, shown: Shown) {
    let found = text_of(rt, alloc, net, record);
    check(rt, is_shown(found.as_str(), shown), found.as_str());
}

/// Each record has the text that is shown.
fn assert_texts(rt: &impl Abort, alloc: Global, net: &Net, records: &[Record], wanted: &[Shown]) {
    for (record, shown) in records.iter().zip(wanted) {
        assert_text(rt, alloc, net, record, *shown);
    }
    same(rt, records.len() as u64, wanted.len() as u64);
}

fn assert_row(rt: &impl Abort, alloc: Global, row: &Row) {
    let job = accepted(rt, alloc, row.job);
    let records = records_of(rt, alloc, &job, row.hops, row.limit);
    assert_texts(rt, alloc, &job.net, &records, row.records);
    drop(job);
}

fn assert_rows(rt: &impl Abort, alloc: Global, rows: &[Row]) {
    for row in rows {
        assert_row(rt, alloc, row);
    }
}

#[test]
fn records_of_conditions_are_as_worked_out(rt: HostRuntime) {
    assert_rows(&rt, rt.alloc(), SIMPLE);
}

#[test]
fn records_of_many_choices_are_as_worked_out(rt: HostRuntime) {
    assert_rows(&rt, rt.alloc(), PAIRS);
}

#[test]
fn records_at_limits_are_as_worked_out(rt: HostRuntime) {
    assert_rows(&rt, rt.alloc(), LIMITS);
}

#[test]
fn records_of_faults_are_as_worked_out(rt: HostRuntime) {
    assert_rows(&rt, rt.alloc(), FAULTS);
}

#[test]
fn records_with_values_are_as_worked_out(rt: HostRuntime) {
    assert_rows(&rt, rt.alloc(), VALUES);
}

#[test]
fn records_of_boxes_are_as_worked_out(rt: HostRuntime) {
    assert_rows(&rt, rt.alloc(), BOXES);
}
