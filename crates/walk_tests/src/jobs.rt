//! Jobs that are read from texts, and a packet before it carries something.

ghost use Rattle.net_check.specs.Network.{entry, network};
ghost use Rattle.net_check.specs.Sound.{AreOfOneJob};

use header_layers::Layers;
use metadata_scopes::Scopes;
use net_check::{Accepted, accept};
use sefl_meaning::State;
use sefl_reader::read_job;
use sefl_syntax::Job;
use sn_edge::MemPatterns;
use std::alloc::Global;
use std::process::Abort;

/// The job of a text.
pub fn job_of(rt: &impl Abort, alloc: Global, text: &str) -> Job {
    read_job(alloc, text.as_bytes()).ok().expect(rt, "a job")
}

/// The pattern `^m` finds the names m and n.
fn found_names(rt: &impl Abort, alloc: Global) -> Vec<(String, String, bool)> {
    let mut rows = Vec::new(alloc);
    for name in ["m", "n"] {
        let pattern = String::from_str(alloc, "^m").expect(rt, "memory");
        let name = String::from_str(alloc, name).expect(rt, "memory");
        rows.push((pattern, name, true)).expect(rt, "memory");
    }
    rows
}

/// The job of a text, accepted. The pattern `^m` finds the names m and n.
pub fn accepted(rt: &impl Abort, alloc: Global, text: &str) -> Accepted
    ensures { AreOfOneJob (network result.net) (entry result.injection) }
{
    let mut patterns = MemPatterns::new(found_names(rt, alloc), Vec::new(alloc));
    match accept(alloc, job_of(rt, alloc, text), &mut patterns) {
        Ok(accepted) => accepted,
        Err(_) => panic!(rt; "not accepted"),
    }
}

/// A packet that carries nothing.
pub fn nothing() -> State {
    State {
        layers: Layers::new(),
        scopes: Scopes::new(),
    }
}
