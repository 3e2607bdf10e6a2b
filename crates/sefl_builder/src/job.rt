//! Reads jobs.

ghost use Rattle.sefl_syntax.specs.Views.{job_tree};
ghost use Rattle.sefl_builder.specs.Reading.{Answers};
ghost use Rattle.sefl_builder.specs.Nets.{finished, heading, job, version};

use crate::ask::read_asks;
use crate::cursor::Cursor;
use crate::injection::read_injection;
use crate::misread::Misread;
use crate::net::read_net;
use crate::version::Version;
use sefl_syntax::Job;

#[tactic(auto, unfolding(crate::specs::Nets::version))]
fn read_version(words: &mut Cursor) -> Result<Version, Misread>
    ensures { Answers (λ x. x) result words.new (version words.old) }
{
    if words.begins_with("1") {
        words.key("1")?;
        return Ok(Version::Old);
    }
    words.key("2")?;
    Ok(Version::New)
}

/// Reads which version the text is of.
#[tactic(auto, unfolding(crate::specs::Nets::heading))]
fn read_heading(words: &mut Cursor) -> Result<Version, Misread>
    ensures { Answers (λ x. x) result words.new (heading words.old) }
{
    words.key("symnet")?;
    let version = read_version(words)?;
    words.key(";")?;
    Ok(version)
}

/// The job, if no word is left behind it.
fn finish(words: &mut Cursor, job: Job) -> Result<Job, Misread>
    ensures { Answers job_tree result words.new (finished (job_tree job) words.old) }
{
    if words.count() != 0 {
        return Err(Misread::Unexpected);
    }
    Ok(job)
}

/// Reads a job, to the last word.
#[tactic(auto, unfolding(crate::specs::Nets::job))]
pub(crate) fn read_job(words: &mut Cursor) -> Result<Job, Misread>
    ensures { Answers job_tree result words.new (job words.old) }
{
    let version = read_heading(words)?;
    let net = read_net(words, version)?;
    let injection = read_injection(words)?;
    let asks = read_asks(words)?;
    finish(
        words,
        Job {
            net,
            injection,
            asks,
        },
    )
}
