//! Reports, read by the names of a net.

use crate::jobs::accepted;
use crate::texts::{
    ALL, ALL_JOB, BOUNDED, CARRIED, CASES, CELLS, HEAD, ODD, OTHER_ORDER, OTHERS, READ_BACK,
    RECORDS, Row, SPLITS, TTL, TTL_JOB, TTL_ROWS, VERDICTS,
};
use net_check::Net;
use path_report::{Report, ReportFault, read_report, report_text};
use std::alloc::Global;
use std::process::Abort;

fn text_of(rt: &impl Abort, alloc: Global, net: &Net, report: Report) -> String {
    report_text(alloc, net, &report).expect(rt, "memory")
}

fn copied(rt: &impl Abort, alloc: Global, text: &str) -> String {
    String::from_str(alloc, text).expect(rt, "memory")
}

/// The text of the report that is read; the first place that has not its shape; or `no JSON`.
fn found(rt: &impl Abort, alloc: Global, net: &Net, bytes: &[u8]) -> String {
    match read_report(alloc, net, bytes) {
        Ok(report) => text_of(rt, alloc, net, report),
        Err(ReportFault::NotReport { pointer }) => pointer,
        Err(ReportFault::NotJson) => copied(rt, alloc, "no JSON"),
        Err(ReportFault::NoMemory) => panic!(rt; "memory"),
    }
}

/// Whether this is what a row tells of a text.
fn is_told(found: &str, text: &str, told: &str) -> bool {
    if told == "same" {
        return found == text;
    }
    if told == "good" {
        return found.starts_with("{");
    }
    found == told
}

fn assert_told(rt: &impl Abort, alloc: Global, net: &Net, text: &str, told: &str) {
    let found = found(rt, alloc, net, text.as_bytes());
    assert!(rt; is_told(found.as_str(), text, told), "{text}: {found}");
}

/// The text with the first of such a part changed.
fn changed(rt: &impl Abort, alloc: Global, text: &str, row: Row) -> String {
    let (before, behind) = text.split_once(row.0).expect(rt, "a part of the text");
    let new = row.1;
    format!(in alloc; "{before}{new}{behind}").expect(rt, "memory")
}

fn assert_row(rt: &impl Abort, alloc: Global, net: &Net, text: &str, row: Row) {
    let text = changed(rt, alloc, text, row);
    assert_told(rt, alloc, net, text.as_str(), row.2);
}

fn assert_rows(rt: &impl Abort, alloc: Global, job: &str, text: &str, rows: &[Row]) {
    let job = accepted(rt, alloc, job);
    for row in rows {
        assert_row(rt, alloc, &job.net, text, *row);
    }
    drop(job);
}

/// What becomes of changes in the report of the TTL.
fn assert_ttl(rt: &impl Abort, alloc: Global, rows: &[Row]) {
    assert_rows(rt, alloc, TTL_JOB, TTL, rows);
}

/// What becomes of changes in the report with each form.
fn assert_all(rt: &impl Abort, alloc: Global, rows: &[Row]) {
    assert_rows(rt, alloc, ALL_JOB, ALL, rows);
}

#[test]
fn faults_of_the_ttl_report_have_their_place(rt: HostRuntime) {
    assert_ttl(&rt, rt.alloc(), TTL_ROWS);
}

#[test]
fn broken_bounds_have_their_place(rt: HostRuntime) {
    assert_ttl(&rt, rt.alloc(), BOUNDED);
}

/// What is read of the report of the TTL, with this part changed, has the most choices of cases in front.
fn assert_in_front(rt: &impl Abort, alloc: Global, net: &Net, row: Row) {
    let wanted = changed(rt, alloc, TTL, CASES);
    let text = changed(rt, alloc, TTL, row);
    assert_told(rt, alloc, net, text.as_str(), wanted.as_str());
}

#[test]
fn bounds_are_read_in_any_order(rt: HostRuntime) {
    let alloc = rt.alloc();
    let job = accepted(&rt, alloc, TTL_JOB);
    for row in OTHER_ORDER {
        assert_in_front(&rt, alloc, &job.net, *row);
    }
    drop(job);
}

#[test]
fn all_forms_are_read_back(rt: HostRuntime) {
    assert_ttl(&rt, rt.alloc(), READ_BACK);
}

#[test]
fn broken_keys_have_their_place(rt: HostRuntime) {
    assert_all(&rt, rt.alloc(), HEAD);
}

#[test]
fn broken_records_have_their_place(rt: HostRuntime) {
    assert_all(&rt, rt.alloc(), RECORDS);
}

#[test]
fn broken_fields_have_their_place(rt: HostRuntime) {
    assert_all(&rt, rt.alloc(), CARRIED);
}

#[test]
fn broken_cells_have_their_place(rt: HostRuntime) {
    assert_all(&rt, rt.alloc(), CELLS);
}

#[test]
fn broken_verdicts_have_their_place(rt: HostRuntime) {
    assert_all(&rt, rt.alloc(), VERDICTS);
}

#[test]
fn splits_of_members_are_told(rt: HostRuntime) {
    assert_all(&rt, rt.alloc(), SPLITS);
}

#[test]
fn odd_values_are_told(rt: HostRuntime) {
    assert_all(&rt, rt.alloc(), ODD);
}

fn report_of(rt: &impl Abort, alloc: Global, net: &Net, text: &str) -> Report {
    match read_report(alloc, net, text.as_bytes()) {
        Ok(report) => report,
        Err(_) => panic!(rt; "no report"),
    }
}

fn same(rt: &impl Abort, found: u64, wanted: u64) {
    assert_eq!(rt; found, wanted);
}

/// What the report tells beside its records.
fn check_ttl(rt: &impl Abort, report: &Report) {
    same(rt, report.cases.unwrap_or(0), 0);
    same(rt, u64::from(report.hops), 16);
    same(rt, u64::from(report.limit), 10_000);
    same(rt, report.records.len() as u64, 2);
    same(rt, report.refuted, 0);
    assert!(rt; report.complete);
}

#[test]
fn the_ttl_report_is_read(rt: HostRuntime) {
    let alloc = rt.alloc();
    let job = accepted(&rt, alloc, TTL_JOB);
    let report = report_of(&rt, alloc, &job.net, TTL);
    drop(job);
    check_ttl(&rt, &report);
}

#[test]
fn the_bound_is_read(rt: HostRuntime) {
    let alloc = rt.alloc();
    let job = accepted(&rt, alloc, TTL_JOB);
    let text = changed(&rt, alloc, TTL, CASES);
    let report = report_of(&rt, alloc, &job.net, text.as_str());
    drop(job);
    same(&rt, report.cases.unwrap_or(0), 4096);
}

/// The report without its last bytes is no JSON, except where only its last line end is missing.
fn assert_front(rt: &impl Abort, alloc: Global, net: &Net, text: &str, front: &[u8]) {
    let found = found(rt, alloc, net, front);
    let count = front.len();
    let told = if count + 1 < text.len() {
        "no JSON"
    } else {
        "same"
    };
    assert!(rt; is_told(found.as_str(), text, told), "{count}: {found}");
}

fn assert_cut_off(rt: &impl Abort, alloc: Global, job: &str, text: &str) {
    let job = accepted(rt, alloc, job);
    let bytes = text.as_bytes();
    for count in 0..bytes.len() {
        assert_front(rt, alloc, &job.net, text, bytes.split_at(count).0);
    }
    drop(job);
}

#[test]
fn reports_that_are_cut_off_are_no_json(rt: HostRuntime) {
    assert_cut_off(&rt, rt.alloc(), TTL_JOB, TTL);
    assert_cut_off(&rt, rt.alloc(), ALL_JOB, ALL);
}

fn assert_no_json(rt: &impl Abort, alloc: Global, net: &Net, bytes: &[u8]) {
    let found = found(rt, alloc, net, bytes);
    assert_eq!(rt; found.as_str(), "no JSON");
}

/// `count` of these texts, one after another.
fn put_times(rt: &impl Abort, text: &mut String, piece: &str, count: u32) {
    for _ in 0..count {
        text.push_str(piece).expect(rt, "memory");
    }
}

#[test]
fn other_texts_are_told(rt: HostRuntime) {
    let alloc = rt.alloc();
    let job = accepted(&rt, alloc, TTL_JOB);
    for (text, told) in OTHERS {
        assert_told(&rt, alloc, &job.net, text, told);
    }
    assert_no_json(&rt, alloc, &job.net, &[123, 255, 125]);
    drop(job);
}

/// A million of the one text and of the other are no JSON.
fn assert_million(rt: &impl Abort, alloc: Global, net: &Net, open: &str, close: &str) {
    let mut text = String::new(alloc);
    put_times(rt, &mut text, open, 1_000_000);
    put_times(rt, &mut text, close, 1_000_000);
    assert_no_json(rt, alloc, net, text.as_bytes());
}

#[test]
fn a_million_open_brackets_are_no_json(rt: HostRuntime) {
    let alloc = rt.alloc();
    let job = accepted(&rt, alloc, TTL_JOB);
    for (open, close) in [("[", ""), ("[", "]"), ("{\"hops\":", ""), ("[[],", "")] {
        assert_million(&rt, alloc, &job.net, open, close);
    }
    drop(job);
}
