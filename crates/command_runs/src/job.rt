//! Jobs.

ghost use Rattle.std.specs.Prelude.{[], ◌∷◌, IfOk, IfErr};
ghost use Rattle.sefl_syntax.specs.Views.{job_tree};
ghost use Rattle.net_check.specs.Network.{entry, network};
ghost use Rattle.net_check.specs.Sound.{AreOfOneJob};
ghost use Rattle.sn_edge.specs.Told.{FolderKept};
ghost use Rattle.command_edge.specs.Files.{FolderShows};
ghost use Rattle.command_runs.specs.Inputs.{a_job, given_of};
ghost use Rattle.command_runs.specs.Jobs.{IsOnlyJob, ReadFails};
ghost use Rattle.command_runs.specs.Loading.{LoadsJob, LoadsNoJob};

use crate::Source;
use crate::acceptance::accept_filled;
use crate::refusal::fault_of_reading;
use crate::table::fill_tables;
use command_edge::{InputFault, load_text};
use net_check::Accepted;
use sefl_reader::read_job;
use sefl_syntax::Job;
use sn_edge::{Folder, Patterns};
use std::alloc::Global;

/// The job that the bytes are a text of.
fn read(alloc: Global, bytes: &[u8]) -> Result<Job, InputFault>
    ensures job { IfOk result (λ job. IsOnlyJob bytes.now (job_tree job)) }
    ensures fails { IfErr result (ReadFails bytes.now) }
{
    match read_job(alloc, bytes) {
        Ok(job) => Ok(job),
        Err(fault) => Err(fault_of_reading(bytes, fault)),
    }
}

/// The job of the file of this name, with code for its tables.
pub fn load_job<F: Folder>(alloc: Global, name: &str, folder: &mut F) -> Result<Job, InputFault>
    ensures folder_kept { FolderKept (F.told folder.old) (F.told folder.new) }
    ensures job { IfOk result (λ job. LoadsJob F.told F.load_gives folder.old name.now (job_tree job) folder.new) }
    ensures fails { IfErr result (λ fault. LoadsNoJob F.told F.load_gives folder.old name.now fault folder.new) }
    ensures shows { IfErr result (FolderShows (F.told folder.old) (F.told folder.new)) }
{
    let bytes = load_text(alloc, name, folder)?;
    let mut job = read(alloc, &bytes)?;
    match fill_tables(alloc, &mut job, folder) {
        Ok(()) => Ok(job),
        Err(fault) => {
            drop(job);
            Err(fault)
        }
    }
}

/// A job's file.
#[derive(Clone, Copy)]
pub struct JobFile<'a> {
    pub name: &'a str,
}

impl Source for JobFile<'_> {
    type Given = Accepted;

    ghost inputs = { λ s. a_job s.name.now ∷ [] };

    ghost givens = { λ job. given_of job ∷ [] };

    ghost keeps = { λ job. AreOfOneJob (network job.net) (entry job.injection) };

    fn open<F: Folder, P: Patterns>(
        &self,
        alloc: Global,
        folder: &mut F,
        patterns: &mut P,
    ) -> Result<Accepted, InputFault> {
        let job = load_job(alloc, self.name, folder)?;
        accept_filled(alloc, job, patterns)
    }
}
