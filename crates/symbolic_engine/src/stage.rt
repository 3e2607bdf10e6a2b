//! How far a run has come, and what it waits for.

ghost use Rattle.std.specs.Prelude.{◌≡◌, ℕ, IfOk};
ghost use Rattle.net_check.specs.Network.{Network};
ghost use Rattle.code_frames.specs.Frames.{exit_of};
ghost use Rattle.sym_state.specs.Symbolic.{Symbolic};
ghost use Rattle.symbolic_engine.specs.Stages.{left_seen, stage_tree};

use code_frames::{Exit, Frame, Question, copied};
use path_formula::Formula;
use sefl_meaning::Failure;
use sefl_syntax::Side;
use sn_width::{NoMemory, NodeId};
use std::alloc::Global;

/// A port whose code runs, and how many hops are left behind it.
#[derive(Clone, Copy)]
pub struct Running {
    pub node: NodeId,
    pub side: Side,
    pub port: u32,
    pub hops: u32,
}

/// How far a run has come.
#[derive(Drop)]
pub enum Stage<'a> {
    /// Before an input port, with `hops` hops left.
    Entering {
        node: NodeId,
        port: u32,
        hops: u32,
    },
    /// Before an output port, with `hops` hops left behind its link.
    Leaving {
        node: NodeId,
        port: u32,
        hops: u32,
    },
    /// In the code of a port: at an exit, or before what is on the frames.
    Inside {
        running: Running,
        left: Option<Exit<'a>>,
        frames: Vec<Frame<'a>>,
    },
    /// At an input port with no hop left.
    Cut,
}

/// What a run waits for.
#[derive(Drop)]
pub enum Wait<'a> {
    /// The truth of a test.
    Asked {
        running: Running,
        question: Question<'a>,
        test: Formula,
        frames: Vec<Frame<'a>>,
    },
    /// The copy for one of these output ports, with `hops` hops left behind their links.
    Forked {
        node: NodeId,
        hops: u32,
        ports: &'a [u32],
    },
}

/// The same failure.
fn same_failure(failure: &Failure) -> Result<Failure, NoMemory>
    ensures { IfOk result (λ copy. copy ≡ failure.now) }
{
    match failure {
        Failure::Layout(fault) => Ok(Failure::Layout(*fault)),
        Failure::Constraint => Ok(Failure::Constraint),
        Failure::Message { text } => Ok(Failure::Message {
            text: text.clone()?,
        }),
    }
}

/// The same exit.
fn same_exit<'a>(exit: &Exit<'a>) -> Result<Exit<'a>, NoMemory>
    ensures { IfOk result (λ copy. exit_of copy ≡ exit_of exit.now) }
{
    match exit {
        Exit::Off => Ok(Exit::Off),
        Exit::Go(port) => Ok(Exit::Go(*port)),
        Exit::Forked(ports) => Ok(Exit::Forked(*ports)),
        Exit::Failed { failure, site } => Ok(Exit::Failed {
            failure: same_failure(failure)?,
            site: *site,
        }),
    }
}

/// The same exit, where there is one.
fn same_left<'a>(left: &Option<Exit<'a>>) -> Result<Option<Exit<'a>>, NoMemory>
    ensures { IfOk result (λ copy. left_seen copy ≡ left_seen left.now) }
{
    match left {
        None => Ok(None),
        Some(exit) => Ok(Some(same_exit(exit)?)),
    }
}

/// The same stage: whatever is carried, the same comes there.
pub(crate) fn same_stage<'a>(alloc: Global, stage: &Stage<'a>) -> Result<Stage<'a>, NoMemory>
    ensures { IfOk result (λ copy. (net : Network) (x : Symbolic) (begun : ℕ)
        → stage_tree net copy x begun ≡ stage_tree net stage.now x begun) }
{
    match stage {
        Stage::Entering { node, port, hops } => Ok(Stage::Entering {
            node: *node,
            port: *port,
            hops: *hops,
        }),
        Stage::Leaving { node, port, hops } => Ok(Stage::Leaving {
            node: *node,
            port: *port,
            hops: *hops,
        }),
        Stage::Inside {
            running,
            left,
            frames,
        } => Ok(Stage::Inside {
            running: *running,
            left: same_left(left)?,
            frames: copied(alloc, frames)?,
        }),
        Stage::Cut => Ok(Stage::Cut),
    }
}
