//! The run of code up to its next question.

ghost use Rattle.std.specs.Prelude.{◌≡◌, ◌+◌, ◌<◌, ◌≤◌, ◌∷◌, Some, IfOk, OnErr, OnOk, length, reverse};
ghost use Rattle.sn_tree.specs.Ends.{first, tail};
ghost use Rattle.sn_width.specs.declared.ids.NodeId.{NodeId as Box};
ghost use Rattle.sefl_syntax.specs.Views.{code_tree};
ghost use Rattle.net_check.specs.Network.{Network, network};
ghost use Rattle.sefl_meaning.specs.Courses.{Progress, after};
ghost use Rattle.sefl_meaning.specs.Values.{Values};
ghost use Rattle.code_frames.specs.Doing.{AsksFor, WaitsIfFor, course_of, course_on, done_weight, waiting_weight};
ghost use Rattle.code_frames.specs.Frames.{GoesOn, WaitsFor, course_after, course_behind, course_frames, course_left, from, of_iterations};
ghost use Rattle.code_frames.specs.Weights.{IsBelow, code_weight, frames_weight, question_weight, iterations_weight};

use crate::frame::{Exit, Frame, Move, Question};
use crate::instrs::{Done, Point, run_instr};
use crate::machine::Machine;
use net_check::{Net, behind_code, behind_instr, behind_item};
use sefl_meaning::laws::{Truths, sequences_associate};
use sefl_meaning::{Failure, Iteration};
use sefl_syntax::{Instr, Name};
use sn_tree::Shared;
use sn_width::{NameId, NoMemory, NodeId, Steps};
use std::alloc::Global;
use std::marker::PhantomData;
use std::sync::ledger::Ledger;

/// Runs what is on the frames, the last one first, in a box: up to its next question, or to its end.
pub fn next<'a, M: Machine, L: Ledger>(
    alloc: Global,
    machine: &mut M,
    net: &Net,
    node: NodeId,
    frames: &mut Vec<Frame<'a>>,
    steps: &mut Steps<L>,
) -> Result<Move<'a, M::Test>, NoMemory>
    ensures course { IfOk result (λ move. GoesOn steps.old steps.new
        (from (course_frames (M.values machine.old) (network net.now) node (reverse frames.old.items))
        (M.carried machine.old) (M.choices machine.old))
        (from (course_after (M.values machine.old) (network net.now) node M.truth move (reverse frames.new.items))
        (M.carried machine.new) (M.choices machine.new))) }
    ensures kept { OnOk result (M.values machine.new ≡ M.values machine.old) }
    ensures rest { OnOk result (M.rest machine.new ≡ M.rest machine.old) }
    ensures fit { IfOk result (WaitsFor (M.IsFit machine.new)) }
    ensures weight { IfOk result (λ move. IsBelow (network net.now) move
        (frames_weight (network net.now) (reverse frames.new.items))
        (frames_weight (network net.now) (reverse frames.old.items))) }
{
    while let Some(frame) = frames.pop() {
        if let Some(found) = step_frame(alloc, machine, net, node, frame, frames, steps)? {
            return Ok(found);
        }
    }
    Ok(Move::Ended(Exit::Off))
}

/// Goes on from a question where its test has this truth: puts the block that is taken on the frames, or ends. A refusal changes
/// nothing.
pub fn answer<'a, M: Machine>(
    question: &Question<'a>,
    holds: bool,
    frames: &mut Vec<Frame<'a>>,
) -> Result<Option<Exit<'a>>, NoMemory>
    ensures course { IfOk result (λ left. (o : Values M.Value M.Truth) (net : Network) (at : Box) (p : Progress M.Value)
        → course_left o net at left (reverse frames.new.items) p
        ≡ course_behind o net at question.now holds (reverse frames.old.items) p) }
    ensures weight { OnOk result ((net : Network)
        → frames_weight net (reverse frames.new.items) ≤ question_weight net question.now + frames_weight net
        (reverse frames.old.items)) }
    ensures kept { OnErr result (frames.new.items ≡ frames.old.items) }
{
    match question {
        Question::If {
            iterations,
            site,
            first,
            other,
        } => {
            let iterations = iterations.fork()?;
            let inner = behind_item(*site)?;
            if holds {
                frames.push(Frame::Code {
                    iterations,
                    site: inner,
                    code: *first,
                })?;
            } else {
                frames.push(Frame::Code {
                    iterations,
                    site: behind_code(inner, *first)?,
                    code: *other,
                })?;
            }
            Ok(None)
        }
        Question::Constrain { site } => {
            if holds {
                return Ok(None);
            }
            let failure = Failure::Constraint;
            Ok(Some(Exit::Failed {
                failure,
                site: *site,
            }))
        }
    }
}

/// Takes the next instruction, or the next iteration, of a frame. None: the run goes on with the frames.
fn step_frame<'a, M: Machine, L: Ledger>(
    alloc: Global,
    machine: &mut M,
    net: &Net,
    node: NodeId,
    frame: Frame<'a>,
    frames: &mut Vec<Frame<'a>>,
    steps: &mut Steps<L>,
) -> Result<Option<Move<'a, M::Test>>, NoMemory>
    ensures course { IfOk result (λ found. GoesOn steps.old steps.new
        (from (course_frames (M.values machine.old) (network net.now) node (frame.entry ∷ reverse frames.old.items))
        (M.carried machine.old) (M.choices machine.old))
        (from (course_on (M.values machine.old) (network net.now) node M.truth found (reverse frames.new.items))
        (M.carried machine.new) (M.choices machine.new))) }
    ensures kept { OnOk result (M.values machine.new ≡ M.values machine.old) }
    ensures rest { OnOk result (M.rest machine.new ≡ M.rest machine.old) }
    ensures fit { IfOk result (WaitsIfFor (M.IsFit machine.new)) }
    ensures weight { IfOk result (λ found. waiting_weight (network net.now) found + frames_weight (network net.now)
        (reverse frames.new.items)
        < frames_weight (network net.now) (frame.entry ∷ reverse frames.old.items)) }
{
    match frame {
        Frame::Code {
            iterations,
            site,
            code,
        } => {
            let [instr, rest @ ..] = code else {
                return Ok(None);
            };
            sequences_associate::<M::Value, TruthsOf<M>>();
            let behind = behind_instr(site, instr)?;
            let kept = iterations.fork()?;
            frames.push(Frame::Code {
                iterations: kept,
                site: behind,
                code: rest,
            })?;
            let point = Point {
                net,
                node,
                iterations,
                site,
            };
            let done = run_instr(alloc, machine, point, instr, steps)?;
            put::<M>(done, frames)
        }
        Frame::Iterations {
            iterations,
            var,
            site,
            body,
            keys,
        } => {
            begin_iteration::<M>(alloc, iterations, var, site, body, keys, frames)?;
            Ok(None)
        }
    }
}

/// Puts what an instruction runs on the frames, or tells the move that it comes to.
fn put<'a, M: Machine>(
    done: Done<'a, M::Test>,
    frames: &mut Vec<Frame<'a>>,
) -> Result<Option<Move<'a, M::Test>>, NoMemory>
    ensures course { IfOk result (λ found. (o : Values M.Value M.Truth) (net : Network) (at : Box)
        (p : Progress M.Value)
        → course_on o net at M.truth found (reverse frames.new.items) p
        ≡ after (course_of o net at M.truth done.entry p) (course_frames o net at (reverse frames.old.items))) }
    ensures fit { IfOk result (λ found. (machine : M) → AsksFor (M.IsFit machine) done.entry
        → WaitsIfFor (M.IsFit machine) found) }
    ensures weight { IfOk result (λ found. (net : Network)
        → waiting_weight net found + frames_weight net (reverse frames.new.items)
        ≡ done_weight net done.entry + frames_weight net (reverse frames.old.items)) }
{
    match done {
        Done::On => Ok(None),
        Done::Runs(frame) => {
            frames.push(frame)?;
            Ok(None)
        }
        Done::Go(port) => Ok(Some(Move::Ended(Exit::Go(port)))),
        Done::Forked(ports) => Ok(Some(Move::Ended(Exit::Forked(ports)))),
        Done::Failed { failure, site } => Ok(Some(Move::Ended(Exit::Failed { failure, site }))),
        Done::Asked { question, test } => Ok(Some(Move::Asked { question, test })),
    }
}

/// Puts the code of the next iteration of a For on the frames, and under it the iterations behind that.
fn begin_iteration<'a, M: Machine>(
    alloc: Global,
    iterations: Shared<Iteration>,
    var: &'a Name,
    site: u32,
    body: &'a [Instr],
    keys: Shared<(Option<NodeId>, NameId)>,
    frames: &mut Vec<Frame<'a>>,
) -> Result<(), NoMemory>
    ensures course { OnOk result ((o : Values M.Value M.Truth) (net : Network) (at : Box) (p : Progress M.Value)
        → course_frames o net at (reverse frames.new.items) p
        ≡ after (of_iterations o net at iterations var.now site (code_tree body.now) keys p)
        (course_frames o net at (reverse frames.old.items))) }
    ensures weight { OnOk result ((net : Network) → frames_weight net (reverse frames.new.items)
        < iterations_weight (length keys) (code_weight net (code_tree body.now)) + frames_weight net
        (reverse frames.old.items)) }
{
    let Some((owner, name)) = first_key(&keys) else {
        return Ok(());
    };
    sequences_associate::<M::Value, TruthsOf<M>>();
    let behind = other_keys(&keys)?;
    let iteration = Iteration {
        var: var.clone()?,
        owner,
        name,
    };
    let inner = iterations.push(alloc, iteration)?;
    frames.push(Frame::Iterations {
        iterations,
        var,
        site,
        body,
        keys: behind,
    })?;
    frames.push(Frame::Code {
        iterations: inner,
        site,
        code: body,
    })?;
    Ok(())
}

fn first_key(keys: &Shared<(Option<NodeId>, NameId)>) -> Option<(Option<NodeId>, NameId)>
    ensures { result ≡ first keys.now }
{
    keys.top().copied()
}

fn other_keys(
    keys: &Shared<(Option<NodeId>, NameId)>,
) -> Result<Shared<(Option<NodeId>, NameId)>, NoMemory>
    ensures { IfOk result (λ others. others ≡ tail keys.now) }
{
    let Some(below) = keys.below() else {
        return Ok(Shared::empty());
    };
    let others = below.fork()?;
    Ok(others)
}

/// The truths of a machine.
struct TruthsOf<M> {
    _of: PhantomData<M>,
}

impl<M: Machine> Truths for TruthsOf<M> {
    ghost Truth = { M.Truth };
}
