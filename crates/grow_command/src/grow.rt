//! The command `grow`.

ghost use Rattle.std.specs.Prelude.{◌≡◌, ◌<◌, [], ◌∷◌, IfOk, IfErr, string_bytes};
ghost use Rattle.net_check.specs.Network.{entry, network};
ghost use Rattle.net_check.specs.Sound.{AreOfOneJob};
ghost use Rattle.command_runs.specs.Inputs.{given_of};
ghost use Rattle.command_edge.specs.Puts.{text as a_text};
ghost use Rattle.command_runs.specs.Runs.{IsRefusal};
ghost use Rattle.grow_command.specs.Grows.{AreCounts, GrowComes};

use crate::counts::{Counts, Tally};
use crate::grown_job::GrownJob;
use crate::summary::summary_text;
use command_edge::{Ending, OwnFault};
use command_runs::OnePiece;
use net_check::Accepted;
use path_exec::Ended;
use sn_width::{NoMemory, Steps};
use std::alloc::Global;
use std::marker::Brand;
use std::sync::ledger::{Blank, Ledger};
use symbolic_engine::observe;

/// A walk is cut at the input port after this many.
pub const HOPS: u32 = 16;

/// The most paths and refuted sides.
pub const LIMIT: u32 = 100_000;

/// What an exploration found.
#[derive(Clone, Copy)]
struct Found {
    ending: Ending,
    counts: Counts,
}

/// Explores a job, and counts what is found.
fn count_records<L: Ledger>(alloc: Global, job: &Accepted, blank: Blank) -> Result<Found, NoMemory>
    requires job { AreOfOneJob (network job.now.net) (entry job.now.injection) }
    requires name { blank.name ≡ L.name }
    requires parts { blank.parts ≡ L.parts }
    requires some { 0 < blank.parts }
    ensures { IfOk result (λ found. AreCounts (network job.now.net) (entry job.now.injection) found.ending
        found.counts) }
{
    let mut steps = Steps::<L>::new(blank);
    let mut tally = Tally {
        counts: Counts::none(),
    };
    let ended = observe(
        alloc,
        &job.net,
        &job.injection,
        HOPS,
        LIMIT,
        &mut tally,
        &mut steps,
    )?;
    let ending = match ended {
        Ended::Whole => Ending::Done,
        Ended::Partial => Ending::Partial,
        Ended::Stopped => unreachable!(),
    };
    Ok(Found {
        ending,
        counts: tally.counts,
    })
}

/// The summary of an exploration of the job that grows from a seed.
#[derive(Clone, Copy)]
pub struct Grow {
    pub source: GrownJob,
}

/// The text of the summary of the job that grew.
fn text_of(alloc: Global, source: GrownJob, job: &Accepted) -> Result<(Ending, String), OwnFault>
    requires { AreOfOneJob (network job.now.net) (entry job.now.injection) }
    ensures text { IfOk result (λ t. GrowComes source.seed source.boxes (given_of job.now ∷ [])
        (a_text t.0 (string_bytes t.1))) }
    ensures refused { IfErr result (IsRefusal (GrowComes source.seed source.boxes (given_of job.now ∷ []))) }
{
    let found = count_records::<Brand>(alloc, job, Blank::new(1))?;
    let text = summary_text(alloc, source.seed, source.boxes, &found.counts)?;
    Ok((found.ending, text))
}

impl OnePiece for Grow {
    type From = GrownJob;

    ghost source = { λ g. g.source };

    ghost comes = { λ g. GrowComes g.source.seed g.source.boxes };

    fn source(&self) -> &GrownJob {
        &self.source
    }

    fn text(&self, alloc: Global, given: Accepted) -> Result<(Ending, String), OwnFault> {
        text_of(alloc, self.source, &given)
    }
}
