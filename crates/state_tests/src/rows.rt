//! Rows of jobs, run instruction by instruction.

ghost use Rattle.std.specs.Prelude.{◌≡◌, ◌<◌};
ghost use Rattle.net_check.specs.Network.{entry, network};
ghost use Rattle.net_check.specs.Sound.{AreOfOneJob};

use crate::here::{Answer, accepted, answer, answered, begun, code_of, job_of};
use cell_stacks::Cell;
use concrete_run::start;
use instr_steps::{Numbers, Scene, Step, put, take, truth_of};
use lin_term::Term;
use net_check::Accepted;
use path_records::Fields;
use sefl_meaning::{Decision, State};
use sefl_syntax::{Cond, Instr};
use sn_ranges::Ranges;
use sn_tree::Shared;
use sn_width::{LayoutFault, NameId, NodeId, Num, StepFault, Steps, SymId, TagId};
use std::alloc::Global;
use std::marker::Brand;
use std::process::Abort;
use std::sync::ledger::{Blank, Ledger};
use sym_state::SymState;

/// Jobs whose first box is injected into, and packets: each instruction of the box's code answers the same on
/// terms and on numbers, and the carried terms are the carried numbers at the packet.
const SAME: &[(&str, &[&[Num]])] = &[
    (
        "symnet 2; node a 1 -> 0 { in 0 {
            allocate head T+8:8; constrain head T+8:8 < 4; set head T+8:8 = head T+0:8 + 250 - global m:8;
            constrain head T+8:8 in {0..9, 200..255} and not head T+8:8 == 3; allocate head T+12:8;
            tag T = T+8; constrain head T+0:8 == head T-8:8 or global m:8 >= 7; set head T+0:4 = 1;
            untag T; untag U; retag T = 16; set head T+0:8 = any; deallocate head T+0:8; untag T; untag T; untag T;
        } } inject a.0 { tag T = 8; field head T+0:8; field global m:8 = 9; field global n:8; }",
        &[&[0, 0], &[3, 1], &[255, 4, 17], &[8, 2, 300]],
    ),
    (
        "symnet 2; node a 1 -> 0 { in 0 {
            allocate local k:16; set local k:16 = any; set global x:16 = local k:16 + local k:16 - global x:16;
            set local k:16 = any; constrain local k:16 < global x:16 or true; allocate local k:8;
            set local k:16 = global x:16; deallocate local k:16; set global x:16 = local k:16;
        } } inject a.0 { field global x:16; }",
        &[
            &[0],
            &[1, 2, 3],
            &[65535, 65535, 65535],
            &[40000, 30000, 70000],
        ],
    ),
];

/// Jobs whose code is tests alone, each with the domains of all symbols after each test, which passes.
const PASSED: &[(&str, &[&[&[(Num, Num)]]])] = &[
    (
        "symnet 2; node a 1 -> 0 { in 0 { constrain global x:8 < 5; constrain global x:8 > 9; } } inject a.0 { field global x:8; }",
        &[&[&[(0, 4)]], &[&[]]],
    ),
    (
        "symnet 2; node a 1 -> 0 { in 0 { constrain global s:32 < global d:32; constrain global d:32 < global s:32; } } inject a.0 { field global s:32; field global d:32; }",
        &[
            &[&[(0, 4294967295)], &[(0, 4294967295)]],
            &[&[(0, 4294967295)], &[(0, 4294967295)]],
        ],
    ),
    (
        "symnet 2; node a 1 -> 0 { in 0 { constrain global x:8 + 1 > 3; } } inject a.0 { field global x:8; where global x:8 < 200; }",
        &[&[&[(3, 199)]]],
    ),
];

/// A job, its text, and a packet.
#[derive(Drop)]
struct Case<'a> {
    text: &'a str,
    job: &'a Accepted,
    packet: &'a [Num],
}

/// Asserts that it is so of the job of a text.
fn check(rt: &impl Abort, holds: bool, text: &str) {
    assert!(rt; holds, "{text}");
}

fn same_answer(rt: &impl Abort, found: Answer, wanted: Answer) {
    assert!(rt; found == wanted);
}

/// Runs an instruction that changes the numbers, where the next choice has this number.
fn step_in_numbers(
    rt: &impl Abort,
    alloc: Global,
    o: &Numbers<'_>,
    at: &Scene<'_>,
    state: &mut State,
    choice: usize,
    instr: &Instr,
) -> Result<(), StepFault> {
    match instr {
        Instr::Allocate(target) => take(alloc, o, at, state, Step::Allocate(target)),
        Instr::Deallocate(target) => take(alloc, o, at, state, Step::Deallocate(target)),
        Instr::Assign { target, value } => {
            take(alloc, o, at, state, Step::Assign { target, value })
        }
        Instr::AssignAny(target) => {
            let number = o.choice(target.width(), choice);
            put(alloc, at, state, target, number)
        }
        Instr::CreateTag { name, addr } => {
            take(alloc, o, at, state, Step::CreateTag { name, addr })
        }
        Instr::SetTag { name, addr } => take(alloc, o, at, state, Step::SetTag { name, addr }),
        Instr::DestroyTag(name) => take(alloc, o, at, state, Step::DestroyTag(name)),
        _ => panic!(rt; "not one step"),
    }
}

/// What an instruction answers on numbers, where the next choice has this number; of a Constrain the truth of its condition.
fn answer_in_numbers(
    rt: &impl Abort,
    alloc: Global,
    o: &Numbers<'_>,
    at: &Scene<'_>,
    state: &mut State,
    choice: usize,
    instr: &Instr,
) -> Answer {
    match instr {
        Instr::Constrain(test) => truth_in_numbers(rt, alloc, o, at, state, test),
        _ => answered(rt, step_in_numbers(rt, alloc, o, at, state, choice, instr)),
    }
}

fn truth_in_numbers(
    rt: &impl Abort,
    alloc: Global,
    o: &Numbers<'_>,
    at: &Scene<'_>,
    state: &State,
    test: &Cond,
) -> Answer {
    match truth_of(alloc, o, at, state, test) {
        Ok(truth) => Ok(Num::from(truth)),
        Err(StepFault::Layout(fault)) => Err(fault),
        Err(StepFault::NoMemory) => panic!(rt; "memory"),
    }
}

/// What an instruction answers on the numbers of a packet, where the next choice has this number.
fn answer_at(
    rt: &impl Abort,
    alloc: Global,
    case: &Case<'_>,
    state: &mut State,
    choice: usize,
    instr: &Instr,
) -> Answer {
    let iterations = Shared::empty();
    let at = Scene {
        net: &case.job.net,
        node: NodeId(0),
        iterations: &iterations,
    };
    let o = Numbers {
        numbers: case.packet,
        unknowns: case.job.injection.unknowns(),
    };
    answer_in_numbers(rt, alloc, &o, &at, state, choice, instr)
}

/// Whether the terms are the numbers at the packet.
fn are_same(terms: &[Cell<Term>], numbers: &[Cell<&Num>], packet: &[Num]) -> bool {
    for (term, number) in terms.iter().zip(numbers) {
        if term.width != number.width || !is_same(&term.value, number.value.copied(), packet) {
            return false;
        }
    }
    terms.len() == numbers.len()
}

fn is_same(term: &Option<Term>, number: Option<Num>, packet: &[Num]) -> bool {
    match (term, number) {
        (None, None) => true,
        (Some(term), Some(number)) => term.value(packet) == number,
        (None, Some(_)) => false,
        (Some(_), None) => false,
    }
}

fn assert_tags(rt: &impl Abort, alloc: Global, tags: &[(TagId, i32)], state: &State) {
    let wanted = state.layers.tags(alloc).expect(rt, "memory");
    assert!(rt; tags == wanted.as_slice());
}

/// Whether the terms of each address are the numbers there.
fn are_heads(
    terms: &[(i32, Vec<Cell<Term>>)],
    numbers: &[(i32, Vec<Cell<&Num>>)],
    packet: &[Num],
) -> bool {
    for ((address, terms), (wanted, numbers)) in terms.iter().zip(numbers) {
        if *address != *wanted || !are_same(terms, numbers, packet) {
            return false;
        }
    }
    terms.len() == numbers.len()
}

fn assert_heads(rt: &impl Abort, alloc: Global, fields: &Fields, state: &State, packet: &[Num]) {
    let heads = state.layers.heads(alloc).expect(rt, "memory");
    assert!(rt; are_heads(&fields.heads, &heads, packet));
}

/// Whether the terms of each metadata are its numbers.
fn are_metas(
    terms: &[(Option<NodeId>, NameId, Vec<Cell<Term>>)],
    numbers: &[(Option<NodeId>, NameId, Vec<Cell<&Num>>)],
    packet: &[Num],
) -> bool {
    for ((owner, name, terms), (whose, wanted, numbers)) in terms.iter().zip(numbers) {
        if *owner != *whose || *name != *wanted || !are_same(terms, numbers, packet) {
            return false;
        }
    }
    terms.len() == numbers.len()
}

fn assert_metas(rt: &impl Abort, alloc: Global, fields: &Fields, state: &State, packet: &[Num]) {
    let metas = state.scopes.metas(alloc).expect(rt, "memory");
    assert!(rt; are_metas(&fields.metas, &metas, packet));
}

/// What is carried in terms is, at the packet, what is carried in numbers.
fn assert_fields(
    rt: &impl Abort,
    alloc: Global,
    terms: &SymState,
    numbers: &State,
    packet: &[Num],
) {
    let fields = terms.fields(alloc).expect(rt, "memory");
    assert_tags(rt, alloc, &fields.tags, numbers);
    assert_heads(rt, alloc, &fields, numbers, packet);
    assert_metas(rt, alloc, &fields, numbers, packet);
}

/// The number of the next choice, behind an instruction with this answer.
fn choice_after(choice: usize, instr: &Instr, answer: Answer) -> usize {
    if matches!(instr, Instr::AssignAny(_)) && answer.is_ok() {
        choice.saturating_add(1)
    } else {
        choice
    }
}

/// Runs code on terms and on the numbers of a packet.
fn run_both<L: Ledger>(
    rt: &impl Abort,
    alloc: Global,
    case: &Case<'_>,
    code: &[Instr],
    terms: &mut SymState,
    numbers: &mut State,
    steps: &mut Steps<L>,
) {
    let mut choice = 0;
    for instr in code {
        let wanted = answer_at(rt, alloc, case, numbers, choice, instr);
        let found = answer(rt, alloc, case.job, terms, instr, case.packet, steps);
        check(rt, found == wanted, case.text);
        choice = choice_after(choice, instr, found);
        assert_fields(rt, alloc, terms, numbers, case.packet);
    }
}

/// Runs the job's code on both states.
fn run_source<L: Ledger>(
    rt: &impl Abort,
    alloc: Global,
    case: Case<'_>,
    mut terms: SymState,
    mut numbers: State,
    steps: &mut Steps<L>,
) {
    let source = job_of(rt, alloc, case.text);
    let code = code_of(&source);
    run_both(rt, alloc, &case, code, &mut terms, &mut numbers, steps);
    drop(source);
    drop(terms);
    drop(numbers);
}

/// Runs the code on terms and on the numbers of a packet.
fn assert_same<L: Ledger>(
    rt: &impl Abort,
    alloc: Global,
    text: &str,
    packet: &[Num],
    steps: &mut Steps<L>,
) {
    let job = accepted(rt, alloc, text);
    let terms = begun(rt, alloc, &job);
    let numbers = started(rt, alloc, &job, packet);
    let case = Case {
        text,
        job: &job,
        packet,
    };
    run_source(rt, alloc, case, terms, numbers, steps);
    drop(job);
}

/// The packet where the job is injected.
fn started(rt: &impl Abort, alloc: Global, job: &Accepted, packet: &[Num]) -> State
    requires { AreOfOneJob (network job.now.net) (entry job.now.injection) }
{
    match start(alloc, &job.net, &job.injection, packet) {
        Ok(state) => state,
        Err(_) => panic!(rt; "no start"),
    }
}

/// Whether the symbol is there and has this domain.
fn has_domain(state: &SymState, symbol: usize, ranges: &[(Num, Num)]) -> bool {
    match state.domains().get(SymId(symbol as u64)) {
        None => false,
        Some(domain) => has_ranges(domain, ranges),
    }
}

/// Whether each symbol has this domain.
fn has_domains(state: &SymState, wanted: &[&[(Num, Num)]]) -> bool {
    for (symbol, ranges) in wanted.iter().enumerate() {
        if !has_domain(state, symbol, ranges) {
            return false;
        }
    }
    state.condition().symbols() == wanted.len() as u64
}

fn assert_domains(rt: &impl Abort, state: &SymState, wanted: &[&[(Num, Num)]]) {
    assert!(rt; has_domains(state, wanted));
}

fn has_ranges(domain: &Ranges, wanted: &[(Num, Num)]) -> bool {
    for (index, range) in wanted.iter().enumerate() {
        if domain.range(index) != Some(*range) {
            return false;
        }
    }
    domain.len() == wanted.len()
}

/// Lets each test of the code pass, and looks at the domains.
fn pass_all<L: Ledger>(
    rt: &impl Abort,
    alloc: Global,
    job: &Accepted,
    code: &[Instr],
    state: &mut SymState,
    wanted: &[&[&[(Num, Num)]]],
    steps: &mut Steps<L>,
) {
    assert!(rt; code.len() == wanted.len());
    for (instr, domains) in code.iter().zip(wanted) {
        pass(rt, alloc, job, state, test_of(rt, instr), steps);
        assert_domains(rt, state, domains);
    }
}

/// Lets each test of the job's code pass, and looks at the domains.
fn assert_passed<L: Ledger>(
    rt: &impl Abort,
    alloc: Global,
    text: &str,
    wanted: &[&[&[(Num, Num)]]],
    steps: &mut Steps<L>,
) {
    let job = accepted(rt, alloc, text);
    let source = job_of(rt, alloc, text);
    let mut state = begun(rt, alloc, &job);
    let code = code_of(&source);
    pass_all(rt, alloc, &job, code, &mut state, wanted, steps);
    drop(state);
    drop(source);
    drop(job);
}

/// The test of a Constrain.
fn test_of<'a>(rt: &impl Abort, instr: &'a Instr) -> &'a Cond {
    match instr {
        Instr::Constrain(test) => test,
        _ => panic!(rt; "no test"),
    }
}

/// Lets a test pass.
fn pass<L: Ledger>(
    rt: &impl Abort,
    alloc: Global,
    job: &Accepted,
    state: &mut SymState,
    test: &Cond,
    steps: &mut Steps<L>,
) {
    let iterations = Shared::empty();
    match state.test(alloc, &job.net, &iterations, test, steps) {
        Ok(formula) => state
            .constrain(alloc, formula, Decision::Pass)
            .expect(rt, "memory"),
        Err(_) => panic!(rt; "no formula"),
    }
}

/// Removes the cell in a copy, and reads it in both.
fn remove_in_copy<L: Ledger>(
    rt: &impl Abort,
    alloc: Global,
    job: &Accepted,
    code: &[Instr],
    state: &mut SymState,
    steps: &mut Steps<L>,
) {
    let [remove, read] = code else {
        panic!(rt; "two instructions")
    };
    let mut copy = state.fork().expect(rt, "memory");
    let removed = answer(rt, alloc, job, &mut copy, remove, &[7], steps);
    same_answer(rt, removed, Ok(0));
    let kept = answer(rt, alloc, job, state, read, &[7], steps);
    same_answer(rt, kept, Ok(1));
    let lost = answer(rt, alloc, job, &mut copy, read, &[7], steps);
    same_answer(rt, lost, Err(LayoutFault::NoField));
    drop(copy);
}

/// The copy loses its cell, and the first state keeps it.
fn assert_apart<L: Ledger>(rt: &impl Abort, alloc: Global, steps: &mut Steps<L>) {
    let text =
        "symnet 2; node a 1 -> 0 { in 0 { deallocate head 8:8; constrain head 8:8 == head 8:8; } } inject a.0 { field head 8:8; }";
    let job = accepted(rt, alloc, text);
    let source = job_of(rt, alloc, text);
    let mut state = begun(rt, alloc, &job);
    remove_in_copy(rt, alloc, &job, code_of(&source), &mut state, steps);
    drop(state);
    drop(source);
    drop(job);
}

/// Runs code whose instructions all do something, at the packet 9.
fn run_all<L: Ledger>(
    rt: &impl Abort,
    alloc: Global,
    job: &Accepted,
    code: &[Instr],
    state: &mut SymState,
    steps: &mut Steps<L>,
) {
    for instr in code {
        let found = answer(rt, alloc, job, state, instr, &[9], steps);
        same_answer(rt, found, Ok(0));
    }
}

/// The first metadata's first cell has symbol 0.
fn assert_first_part(rt: &impl Abort, alloc: Global, state: &SymState) {
    let fields = state.fields(alloc).expect(rt, "memory");
    assert!(rt; first_part(&fields) == Some((SymId(0), 1)));
}

fn assert_decisions(rt: &impl Abort, alloc: Global, state: &SymState, wanted: &[Decision]) {
    let decisions = state.decisions(alloc).expect(rt, "memory");
    assert!(rt; decisions.as_slice() == wanted);
}

fn assert_place_count(rt: &impl Abort, alloc: Global, state: &SymState, wanted: usize) {
    let places = state.places(alloc).expect(rt, "memory");
    assert!(rt; places.len() == wanted);
}

/// Decides for the copies 2 and 0, which are listed in this order.
fn decide_twice(rt: &impl Abort, alloc: Global, state: &mut SymState) {
    state.copy(alloc, 2).expect(rt, "memory");
    state.copy(alloc, 0).expect(rt, "memory");
    assert_first_part(rt, alloc, state);
    assert_decisions(rt, alloc, state, &[Decision::Copy(2), Decision::Copy(0)]);
    assert_place_count(rt, alloc, state, 1);
}

/// The first choice of a packet without unknown fields is symbol 0; decisions are listed as they were made.
fn assert_first_choice<L: Ledger>(rt: &impl Abort, alloc: Global, steps: &mut Steps<L>) {
    let text =
        "symnet 2; node a 1 -> 0 { in 0 { allocate global t:8; set global t:8 = any; } } inject a.0 { }";
    let job = accepted(rt, alloc, text);
    let source = job_of(rt, alloc, text);
    let mut state = begun(rt, alloc, &job);
    run_all(rt, alloc, &job, code_of(&source), &mut state, steps);
    decide_twice(rt, alloc, &mut state);
    drop(state);
    drop(source);
    drop(job);
}

/// Whether both list the same iterations.
fn are_iterations(found: &[(Option<NodeId>, NameId)], wanted: &[(Option<NodeId>, NameId)]) -> bool {
    found == wanted
}

/// A For goes over those of its names that are allocated, globals first; a step that changes nothing is one step.
fn assert_iterations<L: Ledger>(rt: &impl Abort, alloc: Global, steps: &mut Steps<L>) {
    let text =
        "symnet 2; node a 1 -> 0 { in 0 { allocate global b:8; allocate local b:8; allocate global c:8; deallocate global c:8; } } inject a.0 { }";
    let job = accepted(rt, alloc, text);
    let source = job_of(rt, alloc, text);
    let mut state = begun(rt, alloc, &job);
    run_all(rt, alloc, &job, code_of(&source), &mut state, steps);
    let asked = [NameId(1), NameId(0)];
    let found = state.iterations(alloc, &asked, steps).expect(rt, "memory");
    check(
        rt,
        are_iterations(&found, &[(None, NameId(0)), (Some(NodeId(0)), NameId(0))]),
        text,
    );
    state.pass(steps);
    assert_place_count(rt, alloc, &state, 1);
    drop(found);
    drop(state);
    drop(source);
    drop(job);
}

/// The first part of the term in the first metadata's first cell.
fn first_part(fields: &Fields) -> Option<(SymId, Num)> {
    match fields.metas.as_slice() {
        [] => None,
        [(_, _, cells), ..] => part_of(cells),
    }
}

/// The first part of the term in the first cell.
fn part_of(cells: &[Cell<Term>]) -> Option<(SymId, Num)> {
    match cells {
        [] => None,
        [cell, ..] => match &cell.value {
            None => None,
            Some(term) => term.part(0),
        },
    }
}

fn run_same<L: Ledger>(rt: &impl Abort, alloc: Global, steps: &mut Steps<L>) {
    for (text, packets) in SAME {
        for packet in *packets {
            assert_same(rt, alloc, text, packet, steps);
        }
    }
}

fn run_passed<L: Ledger>(rt: &impl Abort, alloc: Global, steps: &mut Steps<L>) {
    for (text, domains) in PASSED {
        assert_passed(rt, alloc, text, domains, steps);
    }
}

fn run_rows<L: Ledger>(rt: &impl Abort, alloc: Global, blank: Blank)
    requires name { blank.name ≡ L.name }
    requires parts { blank.parts ≡ L.parts }
    requires some { 0 < blank.parts }
{
    let mut steps = Steps::<L>::new(blank);
    run_same(rt, alloc, &mut steps);
    run_passed(rt, alloc, &mut steps);
    assert_apart(rt, alloc, &mut steps);
    assert_first_choice(rt, alloc, &mut steps);
    assert_iterations(rt, alloc, &mut steps);
}

#[test]
fn states_over_terms_are_those_over_numbers(rt: HostRuntime) {
    run_rows::<Brand>(&rt, rt.alloc(), Blank::new(1));
}

/// Runs the two instructions of the code so often: one puts a cell on a stack, and the other is a test.
fn grow<L: Ledger>(
    rt: &impl Abort,
    alloc: Global,
    job: &Accepted,
    code: &[Instr],
    size: u32,
    state: &mut SymState,
    steps: &mut Steps<L>,
) {
    let [push, test] = code else {
        panic!(rt; "two instructions")
    };
    for _ in 0..size {
        let found = answer(rt, alloc, job, state, push, &[], steps);
        same_answer(rt, found, Ok(0));
        pass(rt, alloc, job, state, test_of(rt, test), steps);
    }
}

/// A state with a stack of `size` cells and a condition of `size` formulas.
fn large<L: Ledger>(rt: &impl Abort, alloc: Global, size: u32, blank: Blank) -> SymState
    requires name { blank.name ≡ L.name }
    requires parts { blank.parts ≡ L.parts }
    requires some { 0 < blank.parts }
{
    let mut steps = Steps::<L>::new(blank);
    let text =
        "symnet 2; node a 1 -> 0 { in 0 { allocate global t:8; constrain true; } } inject a.0 { }";
    let job = accepted(rt, alloc, text);
    let source = job_of(rt, alloc, text);
    let mut state = begun(rt, alloc, &job);
    let code = code_of(&source);
    grow(rt, alloc, &job, code, size, &mut state, &mut steps);
    drop(source);
    drop(job);
    state
}

fn fork_often(rt: &impl Abort, state: &SymState) {
    for _ in 0..1_000_000 {
        drop(state.fork().expect(rt, "memory"));
    }
}

fn assert_length(rt: &impl Abort, state: &SymState, wanted: u64) {
    assert!(rt; state.condition().len() == wanted);
}

#[test]
fn a_large_state_is_forked_a_million_times(rt: HostRuntime) {
    let state = large::<Brand>(&rt, rt.alloc(), 100_000, Blank::new(1));
    fork_often(&rt, &state);
    assert_length(&rt, &state, 100_000);
    drop(state);
}
