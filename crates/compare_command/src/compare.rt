//! The command `compare`.

ghost use Rattle.compare_command.specs.Compares.{CompareComes};

use crate::comparing::text_of_comparison;
use crate::jobs::{BothJobs, Jobs};
use command_edge::{Ending, OwnFault};
use command_runs::OnePiece;
use explore_command::RecordLimit;
use std::alloc::Global;

/// Whether two jobs of one injection deliver the same, from one exploration of each, with this bound of hops, this limit of
/// records, and a bound on the choices of cases that decisions try.
#[derive(Clone, Copy)]
pub struct Compare<'a> {
    pub source: BothJobs<'a>,
    pub cases: u64,
    pub hops: u32,
    pub limit: RecordLimit,
    /// Whether paths that are cut at the bound of hops are counted.
    pub counts_cut: bool,
}

impl<'a> OnePiece for Compare<'a> {
    type From = BothJobs<'a>;

    ghost source = { λ c. c.source };

    ghost comes = { λ c. CompareComes c.cases c.hops c.limit c.counts_cut };

    fn source(&self) -> &BothJobs<'a> {
        &self.source
    }

    fn text(&self, alloc: Global, given: Jobs) -> Result<(Ending, String), OwnFault> {
        let Jobs { left, right } = given;
        let mut left = left;
        let mut right = right;
        left.injection.set_choices(self.cases);
        right.injection.set_choices(self.cases);
        let limit = self.limit.count();
        text_of_comparison(alloc, &left, &right, self.hops, limit, self.counts_cut)
    }
}
