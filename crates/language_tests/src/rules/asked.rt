//! Which rule a job breaks first.

use crate::jobs::{self, job_of, joined};
use job_items::{Refusal, Rule, refusal_of};
use sefl_syntax::Job;
use sn_width::Site;
use std::alloc::Global;
use std::process::Abort;

/// A site and the rule that is broken there, where one is.
pub(super) type Broken = Option<(u32, Rule)>;

/// The refusal that tells this.
fn told(broken: Broken) -> Option<Refusal> {
    let (site, rule) = broken?;
    let site = Site(site);
    Some(Refusal { site, rule })
}

/// Whether this is what the job breaks.
fn breaks(rt: &impl Abort, alloc: Global, job: &Job, broken: Broken) -> bool {
    refusal_of(alloc, job).expect(rt, "memory") == told(broken)
}

/// Checks what the job breaks.
pub(super) fn check_job(rt: &impl Abort, alloc: Global, job: &Job, broken: Broken) {
    assert!(rt; breaks(rt, alloc, job, broken));
}

/// Checks what the job of a text breaks.
pub(super) fn check(rt: &impl Abort, alloc: Global, text: &str, broken: Broken) {
    let job = job_of(rt, alloc, text);
    jobs::check(rt, breaks(rt, alloc, &job, broken), text);
    drop(job);
}

/// Checks what each job breaks whose text is between these.
pub(super) fn check_all(
    rt: &impl Abort,
    alloc: Global,
    before: &str,
    rows: &[(&str, Broken)],
    behind: &str,
) {
    for (text, broken) in rows {
        let text = joined(rt, alloc, &[before, text, behind]);
        check(rt, alloc, text.as_str(), *broken);
    }
}
