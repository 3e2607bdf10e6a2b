//! The command `explore`.

ghost use Rattle.explore_command.specs.Explores.{explore_work};

use crate::limit::RecordLimit;
use crate::report::put_report;
use command_edge::{Ending, Stop};
use command_runs::{JobFile, Work};
use net_check::Accepted;
use path_records::RefutedSides;
use sn_edge::Sink;
use std::alloc::Global;

/// The report of all packets of a job, with `hops` hops, the record limit `limit`, and a bound on the choices of cases that decisions
/// try. The records are put as they are found, and none is kept.
#[derive(Drop)]
pub struct Explore<'a> {
    pub source: JobFile<'a>,
    pub cases: u64,
    pub hops: u32,
    pub limit: RecordLimit,
    pub sides: RefutedSides,
}

impl<'a> Work for Explore<'a> {
    type From = JobFile<'a>;

    ghost source = { λ e. e.source };

    ghost work = { λ e. explore_work e.cases e.hops e.limit e.sides };

    fn source(&self) -> &JobFile<'a> {
        &self.source
    }

    fn perform<K: Sink>(
        &self,
        alloc: Global,
        given: Accepted,
        out: &mut K,
    ) -> Result<Ending, Stop> {
        let mut job = given;
        job.injection.set_choices(self.cases);
        put_report(alloc, &job, self.hops, self.limit.count(), self.sides, out)
    }
}
