//! Code that is still to run, and what a run comes to.

ghost use Rattle.std.specs.Prelude.{◌≡◌, IfOk};
ghost use Rattle.sefl_meaning.specs.Taken.{decision_at};
ghost use Rattle.code_frames.specs.Frames.{asking_of};

use sefl_meaning::{Decision, Failure, Iteration};
use sefl_syntax::{Instr, Name};
use sn_tree::Shared;
use sn_width::{NameId, NoMemory, NodeId};
use std::alloc::Global;

/// Code that is still to run, in the iterations of the Fors round it.
#[derive(Drop)]
pub enum Frame<'a> {
    /// Instructions; the first one has the site.
    Code {
        iterations: Shared<Iteration>,
        site: u32,
        code: &'a [Instr],
    },
    /// The body of a For, whose first instruction has the site, once for each of the keys.
    Iterations {
        iterations: Shared<Iteration>,
        var: &'a Name,
        site: u32,
        body: &'a [Instr],
        keys: Shared<(Option<NodeId>, NameId)>,
    },
}

/// How the run of code ends: off its end, by one port, by a copy for each listed port, or failed at a site.
#[derive(Drop)]
pub enum Exit<'a> {
    Off,
    Go(u32),
    Forked(&'a [u32]),
    Failed { failure: Failure, site: u32 },
}

/// The instruction that asks for a truth, at a site, and what it runs on either answer.
#[derive(Drop)]
pub enum Question<'a> {
    /// One block or the other.
    If {
        iterations: Shared<Iteration>,
        site: u32,
        first: &'a [Instr],
        other: &'a [Instr],
    },
    /// Nothing, or its failure.
    Constrain {
        site: u32,
    },
}

/// What the run of code comes to: its end, or a test whose truth it waits for.
#[derive(Drop)]
pub enum Move<'a, T: Drop> {
    Ended(Exit<'a>),
    Asked { question: Question<'a>, test: T },
}

impl<'a> Question<'a> {
    /// The decision where the test has this truth.
    pub fn decision(&self, holds: bool) -> Decision
        ensures { result ≡ decision_at (asking_of self.now) holds }
    {
        match (self, holds) {
            (Question::If { .. }, true) => Decision::Then,
            (Question::If { .. }, false) => Decision::Else,
            (Question::Constrain { .. }, true) => Decision::Pass,
            (Question::Constrain { .. }, false) => Decision::Broken,
        }
    }
}

impl<'a> Frame<'a> {
    /// The same frame. Takes no memory; an `Err` says that a count of owners is full.
    pub fn fork(&self) -> Result<Frame<'a>, NoMemory>
        ensures { IfOk result (λ frame. frame ≡ self.now) }
    {
        match self {
            Frame::Code {
                iterations,
                site,
                code,
            } => {
                let iterations = iterations.fork()?;
                Ok(Frame::Code {
                    iterations,
                    site: *site,
                    code: *code,
                })
            }
            Frame::Iterations {
                iterations,
                var,
                site,
                body,
                keys,
            } => {
                let iterations = iterations.fork()?;
                let keys = keys.fork()?;
                Ok(Frame::Iterations {
                    iterations,
                    var: *var,
                    site: *site,
                    body: *body,
                    keys,
                })
            }
        }
    }
}

/// The same frames, for the other side of a question.
pub fn copied<'a>(alloc: Global, frames: &[Frame<'a>]) -> Result<Vec<Frame<'a>>, NoMemory>
    ensures { IfOk result (λ copy. copy.items ≡ frames.now) }
{
    let mut copy = Vec::with_capacity(alloc, frames.len())?;
    for frame in frames {
        copy.push(frame.fork()?)?;
    }
    Ok(copy)
}
