//! The run up to its next port, its next decision or its end.

ghost use Rattle.std.specs.Prelude.{◌≡◌, None, reverse, IfOk};
ghost use Rattle.path_formula.specs.Typed.{IsTyped};
ghost use Rattle.path_formula.specs.View.{view};
ghost use Rattle.net_check.specs.Network.{Network, network};
ghost use Rattle.path_exec.specs.Moves.{Moves};
ghost use Rattle.symbolic_engine.specs.declared.stage.Wait.TheVariants.{Asked as AskedAt};
ghost use Rattle.symbolic_engine.specs.Origins.{location_of};
ghost use Rattle.symbolic_engine.specs.Stages.{inside_tree, wait_tree};
ghost use Rattle.symbolic_engine.specs.Turning.{offer_of};
ghost use Rattle.symbolic_engine.specs.Seeing.{MovedFrom, standing_at, views_of};

use crate::arriving::{arrive, behind, ended};
use crate::origin::{Origin, Run};
use crate::points::{Finished, Standing, Waiting};
use crate::stage::{Running, Stage, Wait};
use code_frames::{Frame, Move, Question, next};
use net_check::Net;
use path_exec::engine::{Moved, Next, Offer};
use path_formula::Formula;
use path_formula::laws::the_tests_of_types;
use sefl_meaning::End;
use sefl_syntax::Side;
use sn_width::{NoMemory, Steps};
use std::alloc::Global;
use std::sync::ledger::Ledger;

/// What the question offers.
fn offer_of(question: &Question<'_>) -> Offer
    ensures { result ≡ offer_of question.now }
{
    match question {
        Question::If { .. } => Offer::If,
        Question::Constrain { .. } => Offer::Constrain,
    }
}

/// The run waits for the truth of a test.
fn asked<'a, B: Origin>(
    run: Run<B>,
    running: Running,
    question: Question<'a>,
    test: Formula,
    frames: Vec<Frame<'a>>,
) -> Moved<Standing<'a, B>, Finished<B>, Waiting<'a, B>>
    requires { IsTyped run.condition.widths (view test) }
    ensures { (own : Network)
        → MovedFrom B.start own run (wait_tree own (AskedAt running question.entry test frames.entry) run) result }
{
    the_tests_of_types();
    run.is_own();
    let offer = offer_of(&question);
    let wait = Wait::Asked {
        running,
        question,
        test,
        frames,
    };
    let node = Waiting { run, wait };
    let next = Next::AtNode { node, offer };
    Moved::Stopped { next }
}

/// Runs what is on the frames, in the code of a port, and goes on behind it.
fn run_on<'a, B: Origin, L: Ledger>(
    alloc: Global,
    net: &'a Net,
    run: Run<B>,
    running: Running,
    frames: Vec<Frame<'a>>,
    steps: &mut Steps<L>,
) -> Result<Moved<Standing<'a, B>, Finished<B>, Waiting<'a, B>>, NoMemory>
    ensures { IfOk result (Moves (views_of B.start (network net.now))
        (location_of B.start run (λ n. inside_tree (network net.now) running None (reverse frames.entry.items) run n))
        steps.old steps.new) }
{
    let mut frames = frames;
    let mut state = run.into_box();
    let found = next(alloc, &mut *state, net, running.node, &mut frames, steps)?;
    let run = Run::<B>::of(state);
    match found {
        Move::Ended(exit) => behind(alloc, net, run, running, exit),
        Move::Asked { question, test } => Ok(asked(run, running, question, test, frames)),
    }
}

/// Runs on from a stage, over one port at most.
pub(crate) fn onward<'a, B: Origin, L: Ledger>(
    alloc: Global,
    net: &'a Net,
    place: Standing<'a, B>,
    steps: &mut Steps<L>,
) -> Result<Moved<Standing<'a, B>, Finished<B>, Waiting<'a, B>>, NoMemory>
    ensures { IfOk result (Moves (views_of B.start (network net.now))
        (standing_at B.start (network net.now) place.entry.run place.entry.stage) steps.old steps.new) }
{
    let Standing { run, stage } = place;
    match stage {
        Stage::Entering { node, port, hops } => {
            let place = arrive(alloc, net, run, node, Side::Inward, port, hops)?;
            Ok(Moved::Arrived { place })
        }
        Stage::Leaving { node, port, hops } => {
            let place = arrive(alloc, net, run, node, Side::Outward, port, hops)?;
            Ok(Moved::Arrived { place })
        }
        Stage::Inside {
            running,
            left,
            frames,
        } => match left {
            None => run_on(alloc, net, run, running, frames, steps),
            Some(exit) => behind(alloc, net, run, running, exit),
        },
        Stage::Cut => Ok(ended(run, End::Cut)),
    }
}
