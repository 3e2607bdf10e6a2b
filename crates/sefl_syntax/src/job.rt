//! Jobs: a net, the packet that is injected, and questions.

ghost use Rattle.std.specs.Prelude.{◌≡◌, true, Some};
ghost use Rattle.sefl_syntax.specs.JobText.{place_text};
ghost use Rattle.sefl_syntax.specs.Filled.{is_code, is_filled, is_table_at, with_code};
ghost use Rattle.sefl_syntax.specs.Views.{body_tree, job_tree, node_tree};

use crate::cond::Cond;
use crate::name::Name;
use crate::net::{Body, NodeDecl, RawNet, RawNode, Side};
use crate::reference::{Addr, Target};
use sn_width::Num;
use std::fmt;

/// A field of the injected packet, with its value where that is known.
#[derive(PartialEq, Eq, Drop)]
pub struct RawField {
    pub target: Target,
    pub value: Option<Num>,
}

/// The packet that is injected, and the input port that it comes in by.
#[derive(Drop)]
pub struct RawInjection {
    pub node: Name,
    pub port: u32,
    pub tags: Vec<(Name, Addr)>,
    pub fields: Vec<RawField>,
    /// What holds of the unknown fields.
    pub tests: Vec<Cond>,
}

/// A port of a node.
#[derive(PartialEq, Eq, Drop)]
pub struct RawPlace {
    pub side: Side,
    pub node: Name,
    pub port: u32,
}

/// A question about all walks of the injected packets.
#[derive(Drop)]
pub enum Ask {
    /// Whether some packet comes to the place and meets the test there.
    Reach { place: RawPlace, test: Cond },
    /// Whether each packet that is delivered at the place has its injected value there.
    Invariant { target: Target, place: RawPlace },
    /// Whether each packet that comes to the place has its injected value there.
    Visible { target: Target, place: RawPlace },
}

/// A job: what is explored, and what is asked.
pub struct Job {
    pub net: RawNet,
    pub injection: RawInjection,
    pub asks: Vec<Ask>,
}

// Written out, and not derived, so that the proof of a function that lets a job go sees a call.
impl Drop for Job {
    fn drop(self) {
        let Job {
            net,
            injection,
            asks,
        } = self;
        drop(net);
        drop(injection);
        drop(asks);
    }
}

impl Job {
    /// Its parts.
    pub fn into_parts(self) -> (RawNet, RawInjection, Vec<Ask>)
        ensures { result ≡ (self.net, self.injection, self.asks) }
    {
        let Job {
            net,
            injection,
            asks,
        } = self;
        (net, injection, asks)
    }
}

impl fmt::Display for RawPlace {
    ghost output = { λ place. Some (place_text place) };

    #[tactic(auto, unfolding(crate::specs::JobText::place_text))]
    fn fmt<W: fmt::Write>(&self, f: &mut fmt::Formatter<W>) -> fmt::Result {
        let (side, node, port) = (self.side, &self.node, self.port);
        write!(f, "{side} {node}.{port}")
    }
}

/// Gives the node at the index, which is a table, its code.
pub fn fill(job: &mut Job, index: usize, node: RawNode)
    requires { is_table_at index (job_tree job.old) ≡ true }
    ensures { job_tree job.new ≡ with_code index (node_tree node) (job_tree job.old) }
{
    job.net.nodes[index].body = Body::Code(node);
}

/// Whether each node of the job has its code.
pub fn is_filled(job: &Job) -> bool
    ensures { result ≡ is_filled (job_tree job.now) }
{
    for node in &job.net.nodes {
        if !has_code(node) {
            return false;
        }
    }
    true
}

fn has_code(node: &NodeDecl) -> bool
    ensures { result ≡ is_code (body_tree node.now.body) }
{
    matches!(node.body, Body::Code(_))
}
