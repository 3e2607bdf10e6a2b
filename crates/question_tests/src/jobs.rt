//! Jobs that are read from texts, and their records.

ghost use Rattle.std.specs.Prelude.{◌≡◌, ◌<◌};
ghost use Rattle.net_check.specs.Network.{entry, network};
ghost use Rattle.net_check.specs.Sound.{AreOfOneJob};
ghost use Rattle.exact_records.specs.Packets.{AreExactFor};
ghost use Rattle.exact_records.specs.View.{record_trees};

use net_check::{Accepted, accept};
use path_records::Record;
use sefl_reader::read_job;
use sn_edge::MemPatterns;
use sn_width::Steps;
use std::alloc::Global;
use std::marker::Brand;
use std::process::Abort;
use std::sync::ledger::{Blank, Ledger};
use symbolic_engine::explore;

/// The job of a text, accepted.
pub fn accepted(rt: &impl Abort, alloc: Global, text: &str) -> Accepted
    ensures { AreOfOneJob (network result.net) (entry result.injection) }
{
    let job = read_job(alloc, text.as_bytes()).ok().expect(rt, "a job");
    let mut patterns = MemPatterns::new(Vec::new(alloc), Vec::new(alloc));
    match accept(alloc, job, &mut patterns) {
        Ok(accepted) => accepted,
        Err(_) => panic!(rt; "not accepted"),
    }
}

/// Drops the job, which is proved once here and not in each caller.
pub fn let_go(_job: Accepted) {}

fn counted<L: Ledger>(
    rt: &impl Abort,
    alloc: Global,
    job: &Accepted,
    limit: u32,
    blank: Blank,
) -> Vec<Record>
    requires job { AreOfOneJob (network job.now.net) (entry job.now.injection) }
    requires within { 0 < limit }
    requires name { blank.name ≡ L.name }
    requires parts { blank.parts ≡ L.parts }
    requires some { 0 < blank.parts }
    ensures { AreExactFor (network job.now.net) (entry job.now.injection) 16 limit (record_trees result.items) }
{
    let mut steps = Steps::<L>::new(blank);
    match explore(alloc, &job.net, &job.injection, 16, limit, &mut steps) {
        Ok(records) => records,
        Err(_) => panic!(rt; "memory"),
    }
}

/// The records of a job with 16 hops.
pub fn records_of(rt: &impl Abort, alloc: Global, job: &Accepted, limit: u32) -> Vec<Record>
    requires job { AreOfOneJob (network job.now.net) (entry job.now.injection) }
    requires within { 0 < limit }
    ensures { AreExactFor (network job.now.net) (entry job.now.injection) 16 limit (record_trees result.items) }
{
    counted::<Brand>(rt, alloc, job, limit, Blank::new(1))
}
