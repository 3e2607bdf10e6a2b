//! A symbolic state where a job is injected, and what single instructions do with it.

ghost use Rattle.net_check.specs.Network.{entry, network};
ghost use Rattle.net_check.specs.Sound.{AreOfOneJob};

use net_check::{Accepted, Net, accept};
use path_formula::Formula;
use sefl_meaning::{Iteration, Place};
use sefl_reader::read_job;
use sefl_syntax::{Body, Cond, Instr, Job, Side};
use sn_edge::MemPatterns;
use sn_tree::Shared;
use sn_width::{LayoutFault, Num, StepFault, Steps};
use std::alloc::Global;
use std::process::Abort;
use std::sync::ledger::Ledger;
use sym_state::SymState;

/// What an instruction answers: 0 where it does something, the truth of a test, or its fault.
pub type Answer = Result<Num, LayoutFault>;

/// The job of a text.
pub fn job_of(rt: &impl Abort, alloc: Global, text: &str) -> Job {
    read_job(alloc, text.as_bytes()).ok().expect(rt, "a job")
}

/// The job of a text, accepted.
pub fn accepted(rt: &impl Abort, alloc: Global, text: &str) -> Accepted
    ensures { AreOfOneJob (network result.net) (entry result.injection) }
{
    let mut patterns = MemPatterns::new(Vec::new(alloc), Vec::new(alloc));
    match accept(alloc, job_of(rt, alloc, text), &mut patterns) {
        Ok(accepted) => accepted,
        Err(_) => panic!(rt; "not accepted"),
    }
}

/// The code of the first box's first port.
pub fn code_of(job: &Job) -> &[Instr] {
    let Some(first) = job.net.nodes.first() else {
        return &[];
    };
    let Body::Code(node) = &first.body else {
        return &[];
    };
    match node.codes.first() {
        None => &[],
        Some(port) => &port.code,
    }
}

/// The state where the job is injected.
fn injected(rt: &impl Abort, alloc: Global, job: &Accepted) -> SymState
    requires { AreOfOneJob (network job.now.net) (entry job.now.injection) }
{
    SymState::from_injection(alloc, &job.net, &job.injection).expect(rt, "memory")
}

/// The state where the job is injected, arrived at its port.
pub fn begun(rt: &impl Abort, alloc: Global, job: &Accepted) -> SymState
    requires { AreOfOneJob (network job.now.net) (entry job.now.injection) }
{
    let mut state = injected(rt, alloc, job);
    let (node, port) = job.injection.place();
    let side = Side::Inward;
    let place = Place { node, side, port };
    state.arrive(alloc, place).expect(rt, "memory");
    state
}

/// The answer of a call that does something.
pub fn answered(rt: &impl Abort, step: Result<(), StepFault>) -> Answer {
    match step {
        Ok(()) => Ok(0),
        Err(StepFault::Layout(fault)) => Err(fault),
        Err(StepFault::NoMemory) => panic!(rt; "memory"),
    }
}

/// The formula's truth at a packet.
fn truth_at(formula: Formula, packet: &[Num]) -> Num {
    let truth = Num::from(formula.truth(packet));
    drop(formula);
    truth
}

/// The truth of a condition on the terms at a packet.
fn truth<L: Ledger>(
    rt: &impl Abort,
    alloc: Global,
    job: &Accepted,
    state: &SymState,
    test: &Cond,
    packet: &[Num],
    steps: &mut Steps<L>,
) -> Answer {
    let iterations = Shared::empty();
    match state.test(alloc, &job.net, &iterations, test, steps) {
        Ok(formula) => Ok(truth_at(formula, packet)),
        Err(StepFault::Layout(fault)) => Err(fault),
        Err(StepFault::NoMemory) => panic!(rt; "memory"),
    }
}

/// Runs an instruction that changes the state.
fn step<L: Ledger>(
    rt: &impl Abort,
    alloc: Global,
    net: &Net,
    state: &mut SymState,
    instr: &Instr,
    steps: &mut Steps<L>,
) -> Result<(), StepFault> {
    let iterations: Shared<Iteration> = Shared::empty();
    match instr {
        Instr::Allocate(target) => state.allocate(alloc, net, &iterations, target, steps),
        Instr::Deallocate(target) => state.deallocate(alloc, net, &iterations, target, steps),
        Instr::Assign { target, value } => state.assign(
            alloc,
            net,
            &iterations,
            target,
            value,
            steps,
        ),
        Instr::AssignAny(target) => state.assign_any(alloc, net, &iterations, target, steps),
        Instr::CreateTag { name, addr } => state.create_tag(alloc, net, name, addr, steps),
        Instr::SetTag { name, addr } => state.set_tag(alloc, net, name, addr, steps),
        Instr::DestroyTag(name) => state.destroy_tag(alloc, net, name, steps),
        _ => panic!(rt; "not one step"),
    }
}

/// What an instruction answers on terms; of a Constrain the truth of its condition at a packet.
pub fn answer<L: Ledger>(
    rt: &impl Abort,
    alloc: Global,
    job: &Accepted,
    state: &mut SymState,
    instr: &Instr,
    packet: &[Num],
    steps: &mut Steps<L>,
) -> Answer {
    match instr {
        Instr::Constrain(test) => truth(rt, alloc, job, state, test, packet, steps),
        _ => answered(rt, step(rt, alloc, &job.net, state, instr, steps)),
    }
}
