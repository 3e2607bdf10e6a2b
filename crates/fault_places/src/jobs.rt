//! Which of the jobs that the words name a status blames.

use command_edge::InputFault;
use command_runs::{JobFile, Source};
use command_words::{Command, reading};
use sn_edge::{Folder, Patterns};
use std::alloc::{AllocError, Global};

/// The files of the jobs that a command reads: the first, and a second one.
fn jobs_of(command: Command<'_>) -> Option<(&str, Option<&str>)> {
    match command {
        Command::Explore { job, .. } => Some((job, None)),
        Command::Walk { job, .. } => Some((job, None)),
        Command::WalkLines { job, .. } => Some((job, None)),
        Command::Replay { job, .. } => Some((job, None)),
        Command::ReplayWhole { job, .. } => Some((job, None)),
        Command::Ask { job, .. } => Some((job, None)),
        Command::Loops { job, .. } => Some((job, None)),
        Command::Compare { job, other, .. } => Some((job, Some(other))),
        Command::Model { .. } => None,
        Command::Click { .. } => None,
        Command::Acl { .. } => None,
        Command::Rules { .. } => None,
        Command::BothRules { .. } => None,
        Command::Grow { .. } => None,
    }
}

/// Whether the words name a job.
pub(crate) fn names_job(alloc: Global, words: &[String]) -> Result<bool, AllocError> {
    match reading(alloc, words)? {
        Some(command) => Ok(jobs_of(command).is_some()),
        None => Ok(false),
    }
}

/// The first job where it is refused, else the second one: a command opens the second job behind the first.
fn first_refused<'w, F: Folder, P: Patterns>(
    alloc: Global,
    job: &'w str,
    other: &'w str,
    folder: &mut F,
    patterns: &mut P,
) -> Option<&'w str> {
    match (JobFile { name: job }).open(alloc, folder, patterns) {
        Ok(accepted) => {
            drop(accepted);
            Some(other)
        }
        Err(InputFault::NoMemory) => None,
        Err(_) => Some(job),
    }
}

/// The file of the job that the words name and a refusal blames; of two jobs that are named the one that is refused, as the folder has them. None
/// where no job is named, and for want of memory.
pub fn blamed_job<'w, F: Folder, P: Patterns>(
    alloc: Global,
    words: &'w [String],
    folder: &mut F,
    patterns: &mut P,
) -> Option<&'w str> {
    let Ok(Some(command)) = reading(alloc, words) else {
        return None;
    };
    match jobs_of(command)? {
        (job, None) => Some(job),
        (job, Some(other)) => first_refused(alloc, job, other, folder, patterns),
    }
}
