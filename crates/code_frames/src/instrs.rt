//! What an instruction does.

ghost use Rattle.std.specs.Prelude.{◌≡◌, ◌+◌, ◌<◌, ◌≤◌, ℕ, IfOk, OnOk};
ghost use Rattle.sefl_syntax.specs.Trees.{branch, constrain, each};
ghost use Rattle.sefl_syntax.specs.Views.{code_tree, cond_tree, instr_tree};
ghost use Rattle.net_check.specs.Network.{Network, network};
ghost use Rattle.instr_steps.specs.Scenes.{scene_of};
ghost use Rattle.sefl_meaning.specs.Courses.{course_in};
ghost use Rattle.sefl_meaning.specs.declared.walk.Failure.TheVariants.{Layout as LayoutFailure};
ghost use Rattle.code_frames.specs.declared.instrs.Done.TheVariants.{Failed as FailedAt};
ghost use Rattle.code_frames.specs.Acts.{flow_tree};
ghost use Rattle.code_frames.specs.Doing.{AsksFor, Settles, course_of, done_weight, scene_of_point};
ghost use Rattle.code_frames.specs.Frames.{progress_at};
ghost use Rattle.code_frames.specs.Weights.{code_weight, instr_weight};

use crate::act::{Act, Flow, act_of};
use crate::frame::{Frame, Question};
use crate::machine::Machine;
use instr_steps::Scene;
use net_check::{Net, behind_item};
use sefl_meaning::{Failure, Iteration};
use sefl_syntax::{Cond, Instr, Name, Text};
use sn_tree::Shared;
use sn_width::{LayoutFault, NameId, NoMemory, NodeId, StepFault, Steps};
use std::alloc::Global;
use std::sync::ledger::Ledger;

/// What an instruction does: nothing more, or other code runs before what is on the frames, or the run ends,
/// or it waits for an answer.
#[derive(Drop)]
pub(crate) enum Done<'a, T: Drop> {
    On,
    Runs(Frame<'a>),
    Go(u32),
    Forked(&'a [u32]),
    Failed { failure: Failure, site: u32 },
    Asked { question: Question<'a>, test: T },
}

/// Where an instruction runs: in a box, in these iterations of Fors, at a site.
#[derive(Drop)]
pub(crate) struct Point<'r> {
    pub(crate) net: &'r Net,
    pub(crate) node: NodeId,
    pub(crate) iterations: Shared<Iteration>,
    pub(crate) site: u32,
}

impl<'r> Point<'r> {
    fn scene(&self) -> Scene<'_>
        ensures { scene_of result ≡ scene_of_point self.now }
    {
        Scene {
            net: self.net,
            node: self.node,
            iterations: &self.iterations,
        }
    }
}

/// Runs an instruction.
pub(crate) fn run_instr<'a, M: Machine, L: Ledger>(
    alloc: Global,
    machine: &mut M,
    point: Point<'_>,
    instr: &'a Instr,
    steps: &mut Steps<L>,
) -> Result<Done<'a, M::Test>, NoMemory>
    ensures course { IfOk result (λ done. (begun : ℕ)
        → course_of (M.values machine.old) (network point.entry.net.now) point.entry.node M.truth done
        (progress_at (M.carried machine.new) (M.choices machine.new) begun)
        ≡ course_in (M.values machine.old) (scene_of_point point.entry) point.entry.site (instr_tree instr.now)
        (progress_at (M.carried machine.old) (M.choices machine.old) begun)) }
    ensures counted { OnOk result (steps.new ≡ steps.old + 1) }
    ensures kept { OnOk result (M.values machine.new ≡ M.values machine.old) }
    ensures rest { OnOk result (M.rest machine.new ≡ M.rest machine.old) }
    ensures fit { IfOk result (AsksFor (M.IsFit machine.new)) }
    ensures weight { IfOk result (λ done. done_weight (network point.entry.net.now) done
        < instr_weight (network point.entry.net.now) (instr_tree instr.now)) }
{
    match act_of(instr) {
        Act::Step(step) => {
            let taken = machine.step(alloc, &point.scene(), step, steps);
            settled(taken, point.site)
        }
        Act::Choose(target) => {
            let taken = machine.choose(alloc, &point.scene(), target, steps);
            settled(taken, point.site)
        }
        Act::Flow(flow) => go_on(alloc, machine, point, flow, steps),
    }
}

/// What a step that was taken, or refused, at a site comes to.
fn settled<'a, T: Drop>(taken: Result<(), StepFault>, site: u32) -> Result<Done<'a, T>, NoMemory>
    ensures { IfOk result (Settles taken site) }
{
    match taken {
        Ok(()) => Ok(Done::On),
        Err(StepFault::Layout(fault)) => Ok(refused(fault, site)),
        Err(StepFault::NoMemory) => Err(NoMemory),
    }
}

/// A fault ends the run at its site.
fn refused<'a, T: Drop>(fault: LayoutFault, site: u32) -> Done<'a, T>
    ensures { result ≡ FailedAt (LayoutFailure fault) site }
{
    let failure = Failure::Layout(fault);
    Done::Failed { failure, site }
}

/// Runs an instruction that says what runs next.
fn go_on<'a, M: Machine, L: Ledger>(
    alloc: Global,
    machine: &M,
    point: Point<'_>,
    flow: Flow<'a>,
    steps: &mut Steps<L>,
) -> Result<Done<'a, M::Test>, NoMemory>
    ensures course { IfOk result (λ done. (begun : ℕ)
        → course_of (M.values machine.now) (network point.entry.net.now) point.entry.node M.truth done
        (progress_at (M.carried machine.now) (M.choices machine.now) begun)
        ≡ course_in (M.values machine.now) (scene_of_point point.entry) point.entry.site (flow_tree flow.entry)
        (progress_at (M.carried machine.now) (M.choices machine.now) begun)) }
    ensures counted { OnOk result (steps.new ≡ steps.old + 1) }
    ensures fit { IfOk result (AsksFor (M.IsFit machine.now)) }
    ensures weight { IfOk result (λ done. done_weight (network point.entry.net.now) done
        < instr_weight (network point.entry.net.now) (flow_tree flow.entry)) }
{
    match flow {
        Flow::Constrain(test) => ask(alloc, machine, point, test, steps),
        Flow::If { test, first, other } => {
            branch(alloc, machine, point, test, first, other, steps)
        }
        Flow::For { var, pattern, body } => {
            each(alloc, machine, point, var, pattern, body, steps)
        }
        Flow::Fail(text) => {
            machine.pass(steps);
            let text = text.clone()?;
            let failure = Failure::Message { text };
            Ok(Done::Failed {
                failure,
                site: point.site,
            })
        }
        Flow::Forward(port) => {
            machine.pass(steps);
            Ok(Done::Go(port))
        }
        Flow::Fork(ports) => {
            machine.pass(steps);
            Ok(Done::Forked(ports))
        }
        Flow::Block(body) => {
            machine.pass(steps);
            let Point {
                net: _,
                node: _,
                iterations,
                site,
            } = point;
            Ok(Done::Runs(Frame::Code {
                iterations,
                site: behind_item(site)?,
                code: body,
            }))
        }
        Flow::NoOp => {
            machine.pass(steps);
            Ok(Done::On)
        }
    }
}

/// A Constrain: asks whether its condition holds.
fn ask<'a, M: Machine, L: Ledger>(
    alloc: Global,
    machine: &M,
    point: Point<'_>,
    test: &Cond,
    steps: &mut Steps<L>,
) -> Result<Done<'a, M::Test>, NoMemory>
    ensures course { IfOk result (λ done. (begun : ℕ)
        → course_of (M.values machine.now) (network point.entry.net.now) point.entry.node M.truth done
        (progress_at (M.carried machine.now) (M.choices machine.now) begun)
        ≡ course_in (M.values machine.now) (scene_of_point point.entry) point.entry.site
        (constrain (cond_tree test.now))
        (progress_at (M.carried machine.now) (M.choices machine.now) begun)) }
    ensures counted { steps.new ≡ steps.old + 1 }
    ensures fit { IfOk result (AsksFor (M.IsFit machine.now)) }
    ensures weight { IfOk result (λ done. (at : Network) → done_weight at done ≡ 0) }
{
    let site = point.site;
    match machine.test(alloc, &point.scene(), test, steps) {
        Ok(test) => {
            let question = Question::Constrain { site };
            Ok(Done::Asked { question, test })
        }
        Err(StepFault::Layout(fault)) => Ok(refused(fault, site)),
        Err(StepFault::NoMemory) => Err(NoMemory),
    }
}

/// An If: asks whether its condition holds.
fn branch<'a, M: Machine, L: Ledger>(
    alloc: Global,
    machine: &M,
    point: Point<'_>,
    test: &Cond,
    first: &'a [Instr],
    other: &'a [Instr],
    steps: &mut Steps<L>,
) -> Result<Done<'a, M::Test>, NoMemory>
    ensures course { IfOk result (λ done. (begun : ℕ)
        → course_of (M.values machine.now) (network point.entry.net.now) point.entry.node M.truth done
        (progress_at (M.carried machine.now) (M.choices machine.now) begun)
        ≡ course_in (M.values machine.now) (scene_of_point point.entry) point.entry.site
        (branch (cond_tree test.now) (code_tree first.now) (code_tree other.now))
        (progress_at (M.carried machine.now) (M.choices machine.now) begun)) }
    ensures counted { steps.new ≡ steps.old + 1 }
    ensures fit { IfOk result (AsksFor (M.IsFit machine.now)) }
    ensures weight { IfOk result (λ done. (at : Network)
        → done_weight at done ≤ code_weight at (code_tree first.now) + code_weight at (code_tree other.now)) }
{
    let asked = machine.test(alloc, &point.scene(), test, steps);
    let Point {
        net: _,
        node: _,
        iterations,
        site,
    } = point;
    match asked {
        Ok(test) => {
            let question = Question::If {
                iterations,
                site,
                first,
                other,
            };
            Ok(Done::Asked { question, test })
        }
        Err(StepFault::Layout(fault)) => Ok(refused(fault, site)),
        Err(StepFault::NoMemory) => Err(NoMemory),
    }
}

/// A For: an iteration for each of the metadata that its pattern finds and that are allocated now.
fn each<'a, M: Machine, L: Ledger>(
    alloc: Global,
    machine: &M,
    point: Point<'_>,
    var: &'a Name,
    pattern: &Text,
    body: &'a [Instr],
    steps: &mut Steps<L>,
) -> Result<Done<'a, M::Test>, NoMemory>
    ensures course { IfOk result (λ done. (begun : ℕ)
        → course_of (M.values machine.now) (network point.entry.net.now) point.entry.node M.truth done
        (progress_at (M.carried machine.now) (M.choices machine.now) begun)
        ≡ course_in (M.values machine.now) (scene_of_point point.entry) point.entry.site
        (each var.now pattern.now (code_tree body.now))
        (progress_at (M.carried machine.now) (M.choices machine.now) begun)) }
    ensures counted { OnOk result (steps.new ≡ steps.old + 1) }
    ensures fit { IfOk result (AsksFor (M.IsFit machine.now)) }
    ensures weight { IfOk result (λ done. done_weight (network point.entry.net.now) done
        < instr_weight (network point.entry.net.now) (each var.now pattern.now (code_tree body.now))) }
{
    let Point {
        net,
        node,
        iterations,
        site,
    } = point;
    let inner = behind_item(site)?;
    let found = net.found(pattern);
    let keys = machine.iterations(alloc, node, found, steps)?;
    let keys = stacked(alloc, keys)?;
    Ok(Done::Runs(Frame::Iterations {
        iterations,
        var,
        site: inner,
        body,
        keys,
    }))
}

/// The keys as a stack, the first on top.
fn stacked(
    alloc: Global,
    keys: Vec<(Option<NodeId>, NameId)>,
) -> Result<Shared<(Option<NodeId>, NameId)>, NoMemory>
    ensures { IfOk result (λ stack. stack ≡ keys.items) }
{
    let mut keys = keys;
    let mut stack = Shared::empty();
    while let Some(key) = keys.pop() {
        let more = stack.push(alloc, key)?;
        stack = more;
    }
    Ok(stack)
}
