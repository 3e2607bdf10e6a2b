//! The command `ask`.

ghost use Rattle.ask_command.specs.Asks.{AskComes};

use crate::answering::text_of_answers;
use command_edge::{Ending, OwnFault};
use command_runs::{JobFile, OnePiece};
use explore_command::RecordLimit;
use net_check::Accepted;
use std::alloc::Global;

/// The answers to the questions of a job, from one exploration with `hops` hops, the record limit `limit`, and a bound on the choices
/// of cases that decisions try.
#[derive(Clone, Copy)]
pub struct Ask<'a> {
    pub source: JobFile<'a>,
    pub cases: u64,
    pub hops: u32,
    pub limit: RecordLimit,
}

impl<'a> OnePiece for Ask<'a> {
    type From = JobFile<'a>;

    ghost source = { λ a. a.source };

    ghost comes = { λ a. AskComes a.cases a.hops a.limit };

    fn source(&self) -> &JobFile<'a> {
        &self.source
    }

    fn text(&self, alloc: Global, given: Accepted) -> Result<(Ending, String), OwnFault> {
        let mut job = given;
        job.injection.set_choices(self.cases);
        text_of_answers(alloc, &job, self.hops, self.limit.count())
    }
}
