//! The command `loops`.

ghost use Rattle.loops_command.specs.Loops.{LoopsComes};

use crate::searching::text_of_loops;
use crate::text::OpenPaths;
use command_edge::{Ending, OwnFault};
use command_runs::{JobFile, OnePiece};
use explore_command::RecordLimit;
use net_check::Accepted;
use std::alloc::Global;

/// What the paths of a job that are cut tell of loops, from one exploration with this bound of hops, this limit of records,
/// and a bound on the choices of cases that decisions try.
#[derive(Clone, Copy)]
pub struct Loops<'a> {
    pub source: JobFile<'a>,
    pub cases: u64,
    pub hops: u32,
    pub limit: RecordLimit,
    pub detail: OpenPaths,
}

impl<'a> OnePiece for Loops<'a> {
    type From = JobFile<'a>;

    ghost source = { λ l. l.source };

    ghost comes = { λ l. LoopsComes l.cases l.hops l.limit l.detail };

    fn source(&self) -> &JobFile<'a> {
        &self.source
    }

    fn text(&self, alloc: Global, given: Accepted) -> Result<(Ending, String), OwnFault> {
        let mut job = given;
        job.injection.set_choices(self.cases);
        text_of_loops(alloc, &job, self.hops, self.limit.count(), self.detail)
    }
}
