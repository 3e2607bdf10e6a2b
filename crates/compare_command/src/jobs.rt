//! The two jobs of a comparison.

ghost use Rattle.std.specs.Prelude.{[], ◌∷◌};
ghost use Rattle.net_check.specs.Network.{entry, network};
ghost use Rattle.net_check.specs.Sound.{AreOfOneJob};
ghost use Rattle.command_runs.specs.Inputs.{a_job, given_of};

use command_edge::InputFault;
use command_runs::{Both, JobFile, Source};
use net_check::Accepted;
use sn_edge::{Folder, Patterns};
use std::alloc::Global;

/// A job's file and that of the other one, which is opened behind it.
#[derive(Clone, Copy)]
pub struct BothJobs<'a> {
    pub left: JobFile<'a>,
    pub right: JobFile<'a>,
}

/// The accepted jobs.
#[derive(Drop)]
pub struct Jobs {
    pub left: Accepted,
    pub right: Accepted,
}

// Not `Both` itself: the check does not take the statement of a command over what two jobs give.
impl Source for BothJobs<'_> {
    type Given = Jobs;

    ghost inputs = { λ s. a_job s.left.name.now ∷ a_job s.right.name.now ∷ [] };

    ghost givens = { λ jobs. given_of jobs.left ∷ given_of jobs.right ∷ [] };

    ghost keeps = { λ jobs. AreOfOneJob (network jobs.left.net) (entry jobs.left.injection)
        × AreOfOneJob (network jobs.right.net) (entry jobs.right.injection) };

    fn open<F: Folder, P: Patterns>(
        &self,
        alloc: Global,
        folder: &mut F,
        patterns: &mut P,
    ) -> Result<Jobs, InputFault> {
        let both = Both {
            first: self.left,
            second: self.right,
        };
        match both.open(alloc, folder, patterns) {
            Ok(given) => Ok(Jobs {
                left: given.first,
                right: given.second,
            }),
            Err(fault) => Err(fault),
        }
    }
}
