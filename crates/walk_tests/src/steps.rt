//! What one instruction, expression or condition does with one packet.

use crate::cells::{Answer, answered, width_of};
use crate::jobs::{accepted, job_of, nothing};
use crate::same::check;
use instr_steps::{Numbers, Scene, Step, put, reduced, take, truth_of, value_of};
use net_check::{Accepted, Net};
use sefl_meaning::{Iteration, State};
use sefl_syntax::{Body, Cond, Instr, Job, Name, Target};
use sn_tree::Shared;
use sn_width::{LayoutFault, NameId, NodeId, Num, StepFault};
use std::alloc::Global;
use std::process::Abort;

/// One box, one tag T and one metadata name m.
const JOB: &str = "symnet 1; node a 1 -> 0 { } inject a.0 { tag T = 100; field global m:8; }";

/// A packet in the box, in the iterations of the Fors round it.
#[derive(Drop)]
struct Here {
    job: Accepted,
    iterations: Shared<Iteration>,
    state: State,
}

fn at_start(rt: &impl Abort, alloc: Global, iterations: Shared<Iteration>) -> Here {
    Here {
        job: accepted(rt, alloc, JOB),
        iterations,
        state: nothing(),
    }
}

/// The job of a box with one instruction.
fn job(rt: &impl Abort, alloc: Global, instruction: &str) -> Job {
    let text = format!(in alloc;
        "symnet 2; node a 1 -> 0 {{ in 0 {{ {instruction} }} }} inject a.0 {{ }}"
    );
    job_of(rt, alloc, text.expect(rt, "memory").as_str())
}

/// The first instruction of the first box.
fn first_of(job: &Job) -> Option<&Instr> {
    let Body::Code(node) = &job.net.nodes.first()?.body else {
        return None;
    };
    node.codes.first()?.code.first()
}

fn scene<'a>(net: &'a Net, node: u32, iterations: &'a Shared<Iteration>) -> Scene<'a> {
    Scene {
        net,
        node: NodeId(node),
        iterations,
    }
}

/// The packet's numbers are one unknown field, 5, and one choice, 258.
fn numbers() -> Numbers<'static> {
    Numbers {
        numbers: &[5, 258],
        unknowns: 1,
    }
}

fn layout_fault(rt: &impl Abort, fault: StepFault) -> LayoutFault {
    match fault {
        StepFault::Layout(fault) => fault,
        StepFault::NoMemory => panic!(rt; "memory"),
    }
}

/// In the iteration of a For with the variable v at the local m of the box.
fn iteration(rt: &impl Abort, alloc: Global) -> Shared<Iteration> {
    let name = Name::of(alloc, "v").expect(rt, "memory");
    let iteration = Iteration {
        var: name.expect(rt, "a name"),
        owner: Some(NodeId(0)),
        name: NameId(0),
    };
    Shared::empty().push(alloc, iteration).expect(rt, "memory")
}

/// What an instruction answers; of a Constrain what its condition does, 1 for true.
fn answer(
    rt: &impl Abort,
    alloc: Global,
    at: &Scene<'_>,
    state: &mut State,
    instr: &Instr,
) -> Answer {
    match instr {
        Instr::Constrain(test) => truth(rt, alloc, at, state, test),
        _ => answered(rt, step(rt, alloc, at, state, instr)),
    }
}

/// Runs an instruction that changes the packet.
fn step(
    rt: &impl Abort,
    alloc: Global,
    at: &Scene<'_>,
    state: &mut State,
    instr: &Instr,
) -> Result<(), StepFault> {
    let o = numbers();
    match instr {
        Instr::Allocate(target) => take(alloc, &o, at, state, Step::Allocate(target)),
        Instr::Deallocate(target) => take(alloc, &o, at, state, Step::Deallocate(target)),
        Instr::Assign { target, value } => {
            take(alloc, &o, at, state, Step::Assign { target, value })
        }
        Instr::AssignAny(target) => {
            let choice = o.choice(target.width(), 0);
            put(alloc, at, state, target, choice)
        },
        Instr::CreateTag { name, addr } => {
            take(alloc, &o, at, state, Step::CreateTag { name, addr })
        }
        Instr::SetTag { name, addr } => take(alloc, &o, at, state, Step::SetTag { name, addr }),
        Instr::DestroyTag(name) => take(alloc, &o, at, state, Step::DestroyTag(name)),
        _ => panic!(rt; "not one step"),
    }
}

/// What a condition is, 1 for true.
fn truth(rt: &impl Abort, alloc: Global, at: &Scene<'_>, state: &State, test: &Cond) -> Answer {
    match truth_of(alloc, &numbers(), at, state, test) {
        Ok(truth) => Ok(Num::from(truth)),
        Err(fault) => Err(layout_fault(rt, fault)),
    }
}

/// What an instruction does with the packet.
fn done(rt: &impl Abort, alloc: Global, here: &mut Here, instr: &Instr) -> Answer {
    let Here {
        job,
        iterations,
        state,
    } = here;
    answer(rt, alloc, &scene(&job.net, 0, iterations), state, instr)
}

/// Runs the instruction of the text, which has this answer.
fn assert_step(rt: &impl Abort, alloc: Global, here: &mut Here, text: &str, wanted: Answer) {
    let job = job(rt, alloc, text);
    let instr = first_of(&job).expect(rt, "an instruction");
    check(rt, done(rt, alloc, here, instr) == wanted, text);
    drop(job);
}

/// Runs instructions, each with its answer.
fn assert_steps(rt: &impl Abort, alloc: Global, here: &mut Here, steps: &[(&str, Answer)]) {
    for (text, wanted) in steps {
        assert_step(rt, alloc, here, text, *wanted);
    }
}

/// What the value of an assignment is, at 8 bits, in the box with this number.
fn value(rt: &impl Abort, alloc: Global, here: &Here, node: u32, instr: &Instr) -> Answer {
    let Instr::Assign { value, .. } = instr else {
        panic!(rt; "not an assignment")
    };
    let at = scene(&here.job.net, node, &here.iterations);
    let width = width_of(rt, 8);
    match value_of(alloc, &numbers(), &at, &here.state, width, value) {
        Ok(value) => Ok(value),
        Err(fault) => Err(layout_fault(rt, fault)),
    }
}

/// What is assigned, at 8 bits, in the box with this number.
fn assert_value(
    rt: &impl Abort,
    alloc: Global,
    here: &Here,
    node: u32,
    text: &str,
    wanted: Answer,
) {
    let job = job(rt, alloc, text);
    let instr = first_of(&job).expect(rt, "an instruction");
    check(rt, value(rt, alloc, here, node, instr) == wanted, text);
    drop(job);
}

/// What is assigned, at 8 bits, in the boxes with these numbers.
fn assert_values(rt: &impl Abort, alloc: Global, here: &Here, rows: &[(u32, &str, Answer)]) {
    for (node, text, wanted) in rows {
        assert_value(rt, alloc, here, *node, text, *wanted);
    }
}

/// Where the one tag is.
fn assert_tag(rt: &impl Abort, alloc: Global, here: &Here, wanted: i32) {
    let tags = here.state.layers.tags(alloc).expect(rt, "memory");
    let tag = tags.last().expect(rt, "a tag");
    assert_eq!(rt; tag.1, wanted);
}

const CREATED: &[(&str, Answer)] = &[
    ("tag T = T+8;", Err(LayoutFault::NoTag)),
    ("retag T = 100;", Ok(0)),
    ("tag T = T+8;", Ok(0)),
];

const UNTAGGED: &[(&str, Answer)] = &[("untag T;", Ok(0))];

const DESTROYED: &[(&str, Answer)] = &[("untag T;", Ok(0)), ("untag T;", Err(LayoutFault::NoTag))];

#[test]
fn tags_are_created_set_and_destroyed(rt: HostRuntime) {
    let mut here = at_start(&rt, rt.alloc(), Shared::empty());
    assert_steps(&rt, rt.alloc(), &mut here, CREATED);
    assert_tag(&rt, rt.alloc(), &here, 108);
    assert_steps(&rt, rt.alloc(), &mut here, UNTAGGED);
    assert_tag(&rt, rt.alloc(), &here, 100);
    assert_steps(&rt, rt.alloc(), &mut here, DESTROYED);
    drop(here);
}

/// The target of an allocation.
fn allocated<'a>(rt: &impl Abort, job: &'a Job) -> &'a Target {
    let Some(Instr::Allocate(target)) = first_of(job) else {
        panic!(rt; "not an allocation")
    };
    target
}

/// Puts 7 into the cell, which has 8 bits.
fn put_seven(rt: &impl Abort, alloc: Global, here: &mut Here, cell: &Target) {
    let Here {
        job,
        iterations,
        state,
    } = here;
    let step = put(alloc, &scene(&job.net, 0, iterations), state, cell, 7);
    assert!(rt; step == Ok(()));
}

/// Puts 7 into the header cell.
fn assert_put(rt: &impl Abort, alloc: Global, here: &mut Here) {
    let job = job(rt, alloc, "allocate head T+8:8;");
    let cell = allocated(rt, &job);
    assert!(rt; cell.width() == width_of(rt, 8));
    put_seven(rt, alloc, here, cell);
    drop(job);
}

const READ: &str = "set global m:8 = head T+8:8;";

const MADE: &[(&str, Answer)] = &[("retag T = 100;", Ok(0)), ("allocate head T+8:8;", Ok(0))];

const UNSET: &[(u32, &str, Answer)] = &[(0, READ, Err(LayoutFault::Unset))];

const SUMMED: &[(&str, Answer)] = &[("set head T+8:8 = 300 - 1 + head T+8:8;", Ok(0))];

const SUM: &[(u32, &str, Answer)] = &[(0, READ, Ok(50))];

const REMOVED: &[(&str, Answer)] = &[
    ("deallocate head T+8:8;", Ok(0)),
    ("deallocate head T+8:8;", Err(LayoutFault::NoField)),
];

#[test]
fn a_header_cell_is_allocated_assigned_and_removed(rt: HostRuntime) {
    let mut here = at_start(&rt, rt.alloc(), Shared::empty());
    assert_steps(&rt, rt.alloc(), &mut here, MADE);
    assert_values(&rt, rt.alloc(), &here, UNSET);
    assert_put(&rt, rt.alloc(), &mut here);
    assert_steps(&rt, rt.alloc(), &mut here, SUMMED);
    assert_values(&rt, rt.alloc(), &here, SUM);
    assert_steps(&rt, rt.alloc(), &mut here, REMOVED);
    drop(here);
}

const CHOSEN: &[(&str, Answer)] = &[("allocate local m:8;", Ok(0)), ("set $v:8 = any;", Ok(0))];

const OF_VARIABLE: &[(u32, &str, Answer)] = &[
    (0, "set global m:8 = local m:8;", Ok(2)),
    (0, "set global m:8 = $v:8;", Ok(2)),
    (1, "set global m:8 = local m:8;", Err(LayoutFault::NoMeta)),
    (0, "set global m:8 = global m:8;", Err(LayoutFault::NoMeta)),
];

#[test]
fn a_variable_stands_for_metadata_of_its_box(rt: HostRuntime) {
    let mut here = at_start(&rt, rt.alloc(), iteration(&rt, rt.alloc()));
    assert_steps(&rt, rt.alloc(), &mut here, CHOSEN);
    assert_values(&rt, rt.alloc(), &here, OF_VARIABLE);
    drop(here);
}

fn same(rt: &impl Abort, found: Num, wanted: Num) {
    assert_eq!(rt; found, wanted);
}

/// The number at the place, and the choice of that number, at 8 bits.
fn assert_numbers(rt: &impl Abort, place: usize, number: Num, choice: Num) {
    let width = width_of(rt, 8);
    same(rt, numbers().number_at(width, place), number);
    same(rt, numbers().choice(width, place), choice);
}

#[test]
fn numbers_are_reduced_and_are_0_past_the_end(rt: HostRuntime) {
    same(&rt, reduced(width_of(&rt, 8), 300), 44);
    for (place, number, choice) in [(0, 5, 2), (1, 2, 0), (2, 0, 0), (usize::MAX, 0, 0)] {
        assert_numbers(&rt, place, number, choice);
    }
}

const CONDITIONS: &[(&str, Answer)] = &[
    (
        "constrain true or global m:8 < 4;",
        Err(LayoutFault::NoMeta),
    ),
    ("constrain 4 < 4 or 4 in {2..4};", Ok(1)),
    ("constrain not 5 in {2..4} and 3 < 4;", Ok(1)),
    ("constrain 1 in {2..4} and true;", Ok(0)),
];

#[test]
fn every_atom_of_a_condition_is_evaluated(rt: HostRuntime) {
    let mut here = at_start(&rt, rt.alloc(), Shared::empty());
    assert_steps(&rt, rt.alloc(), &mut here, CONDITIONS);
    drop(here);
}
