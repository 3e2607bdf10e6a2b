//! Jobs that are read from texts, and their records.

ghost use Rattle.std.specs.Prelude.{◌≡◌, ◌<◌};
ghost use Rattle.net_check.specs.Network.{entry, network};
ghost use Rattle.net_check.specs.Sound.{AreOfOneJob};

use net_check::{Accepted, Net, accept};
use path_records::Record;
use record_text::record_text;
use sefl_reader::read_job;
use sefl_syntax::Job;
use sn_edge::MemPatterns;
use sn_width::Steps;
use std::alloc::Global;
use std::marker::Brand;
use std::process::Abort;
use std::sync::ledger::{Blank, Ledger};
use symbolic_engine::explore;

/// Asserts that it is so of the case that is named. This and the next two are proved once here, and not in each caller.
pub fn check(rt: &impl Abort, holds: bool, case: &str) {
    assert!(rt; holds, "{case}");
}

/// Asserts that the numbers are the same.
pub fn same(rt: &impl Abort, found: u64, wanted: u64) {
    assert_eq!(rt; found, wanted);
}

/// Asserts that the texts are the same.
pub fn same_text(rt: &impl Abort, found: &str, wanted: &str) {
    assert_eq!(rt; found, wanted);
}

/// Puts the piece behind the text `count` times.
pub fn put(rt: &impl Abort, text: &mut String, piece: &str, count: u32) {
    for _ in 0..count {
        text.push_str(piece).expect(rt, "memory");
    }
}

fn job_of(rt: &impl Abort, alloc: Global, text: &str) -> Job {
    read_job(alloc, text.as_bytes()).ok().expect(rt, "a job")
}

/// The pattern `^opt` finds the names opt1 and opt2.
fn found_names(rt: &impl Abort, alloc: Global) -> Vec<(String, String, bool)> {
    let mut rows = Vec::new(alloc);
    for name in ["opt1", "opt2"] {
        let pattern = String::from_str(alloc, "^opt").expect(rt, "memory");
        let name = String::from_str(alloc, name).expect(rt, "memory");
        rows.push((pattern, name, true)).expect(rt, "memory");
    }
    rows
}

/// The job of a text, accepted. The pattern `^opt` finds the names opt1 and opt2.
pub fn accepted(rt: &impl Abort, alloc: Global, text: &str) -> Accepted
    ensures { AreOfOneJob (network result.net) (entry result.injection) }
{
    let mut patterns = MemPatterns::new(found_names(rt, alloc), Vec::new(alloc));
    match accept(alloc, job_of(rt, alloc, text), &mut patterns) {
        Ok(accepted) => accepted,
        Err(_) => panic!(rt; "not accepted"),
    }
}

/// The text of a record.
pub fn text_of(rt: &impl Abort, alloc: Global, net: &Net, record: &Record) -> String {
    record_text(alloc, net, record).expect(rt, "memory")
}

/// The records of a job, with a new counter.
fn counted<L: Ledger>(
    rt: &impl Abort,
    alloc: Global,
    job: &Accepted,
    hops: u32,
    limit: u32,
    blank: Blank,
) -> Vec<Record>
    requires job { AreOfOneJob (network job.now.net) (entry job.now.injection) }
    requires within { 0 < limit }
    requires name { blank.name ≡ L.name }
    requires parts { blank.parts ≡ L.parts }
    requires some { 0 < blank.parts }
{
    let mut steps = Steps::<L>::new(blank);
    explore(alloc, &job.net, &job.injection, hops, limit, &mut steps).expect(rt, "memory")
}

/// The records of a job.
pub fn records_of(
    rt: &impl Abort,
    alloc: Global,
    job: &Accepted,
    hops: u32,
    limit: u32,
) -> Vec<Record>
    requires { AreOfOneJob (network job.now.net) (entry job.now.injection) }
{
    assert!(rt; limit > 0);
    counted::<Brand>(rt, alloc, job, hops, limit, Blank::new(1))
}
