//! Nets of jobs that are read from texts.

use net_check::{Accepted, accept};
use sefl_reader::read_job;
use sefl_syntax::Job;
use sn_edge::MemPatterns;
use std::alloc::Global;
use std::process::Abort;

fn job_of(rt: &impl Abort, alloc: Global, text: &str) -> Job {
    read_job(alloc, text.as_bytes()).ok().expect(rt, "a job")
}

/// The job of a text, accepted. It has no patterns.
pub fn accepted(rt: &impl Abort, alloc: Global, text: &str) -> Accepted {
    let mut patterns = MemPatterns::new(Vec::new(alloc), Vec::new(alloc));
    match accept(alloc, job_of(rt, alloc, text), &mut patterns) {
        Ok(accepted) => accepted,
        Err(_) => panic!(rt; "not accepted"),
    }
}
