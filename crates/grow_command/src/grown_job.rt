//! The job that grows from a seed, as what a command reads.

ghost use Rattle.std.specs.Prelude.{[], ◌∷◌};
ghost use Rattle.net_check.specs.Network.{entry, network};
ghost use Rattle.net_check.specs.Sound.{AreOfOneJob};
ghost use Rattle.command_runs.specs.Inputs.{a_made_job, given_of};
ghost use Rattle.job_gen.specs.Grown.{grown};

use command_edge::InputFault;
use command_runs::{Source, accept_filled};
use job_gen::grow;
use net_check::Accepted;
use sn_edge::{Folder, Patterns};
use std::alloc::Global;

/// The job of `boxes` boxes that grows from the seed. It is made where a job of a file would be read, and is accepted as that is.
#[derive(Clone, Copy)]
pub struct GrownJob {
    pub seed: u64,
    pub boxes: u32,
}

impl Source for GrownJob {
    type Given = Accepted;

    ghost inputs = { λ s. a_made_job (grown s.seed s.boxes) ∷ [] };

    ghost givens = { λ job. given_of job ∷ [] };

    ghost keeps = { λ job. AreOfOneJob (network job.net) (entry job.injection) };

    fn open<F: Folder, P: Patterns>(
        &self,
        alloc: Global,
        _folder: &mut F,
        patterns: &mut P,
    ) -> Result<Accepted, InputFault> {
        let job = grow(alloc, self.seed, self.boxes)?;
        accept_filled(alloc, job, patterns)
    }
}
