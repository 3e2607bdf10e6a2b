//! Each packet of small jobs, walked on every fork.

ghost use Rattle.std.specs.Prelude.{◌<◌};
ghost use Rattle.net_check.specs.Network.{entry, network};
ghost use Rattle.net_check.specs.Sound.{AreOfOneJob};

use crate::jobs::{accepted, put, records_of, same};
use crate::runs::led;
use cell_stacks::Cell;
use concrete_run::{WalkFault, walk_all, walk_one};
use lin_term::Term;
use net_check::Accepted;
use path_cond::PathCond;
use path_records::{Fields, Record};
use refutation_check::{Cause, Refutation, Verdict, check, lawful};
use sefl_meaning::{Decision, End, Failure, Place, State, Walk};
use sn_width::{NameId, NodeId, Num, TagId};
use std::alloc::Global;
use std::process::Abort;

/// How many hops there are.
const HOPS: u32 = 3;

/// The next number of a fixed sequence.
fn next(number: u64) -> u64 {
    number
        .wrapping_mul(6_364_136_223_846_793_005)
        .wrapping_add(1_442_695_040_888_963_407)
}

/// One of the texts, as the number picks it.
fn picked<'a>(rt: &impl Abort, texts: &[&'a str], number: u64) -> &'a str {
    let count = texts.len() as u64;
    assert!(rt; count > 0);
    let at = (number >> 33) % count;
    texts.get(at as usize).copied().unwrap_or("")
}

/// Statements of the code of a box's input port.
const INNER: &[&str] = &[
    "constrain global x:2 < global y:2;",
    "constrain global x:2 + 1 != global y:2;",
    "constrain global x:2 in {1, 3} or global y:2 == 2;",
    "constrain not [global y:2 > 1 and global x:2 == 0];",
    "constrain global x:2 + global y:2 == 1;",
    "constrain global z:2 <= 2;",
    "if global x:2 == 1 { set global y:2 = global x:2 + 1; } else { fail \"f\"; }",
    "if global z:2 >= global x:2 { } else { constrain global y:2 != 3; }",
    "if global y:2 - global z:2 < 2 { allocate global z:2; set global z:2 = any; } else { noop; }",
    "set global x:2 = global x:2 - 1;",
    "set global y:2 = global x:2 + global y:2;",
    "set global z:2 = any;",
    "allocate local t:2; set local t:2 = global z:2 - global x:2;",
    "constrain local t:2 == 1;",
    "allocate global z:2;",
    "deallocate global z:2;",
    "for v in \"^opt\" { constrain $v:2 != global x:2; }",
    "deallocate global opt1:2;",
    "allocate global opt1:2; set global opt1:2 = 2;",
    "{ noop; tag T = 8; } allocate head T-2:2; set head T-2:2 = global x:2;",
    "if head T-2:2 == global y:2 { untag T; } else { }",
    "if global x:2 == global z:2 { forward 1; } else { }",
    "if global y:2 > global z:2 { fork 1, 0; } else { }",
    "fork 0, 1, 0;",
    "forward 0;",
    "forward 1;",
    "noop;",
];

/// Statements of the code of a box's output port.
const OUTER: &[&str] = &[
    "",
    "constrain global x:2 != 2;",
    "constrain global y:2 >= global x:2;",
    "set global x:2 = global x:2 + 1;",
    "set global y:2 = any;",
    "if global x:2 < 2 { } else { fail \"g\"; }",
];

/// Links, with one or none for each output.
const LINKS: &[&str] = &[
    "link a.0 -> b.0; link b.0 -> a.0;",
    "link a.0 -> b.0; link a.1 -> b.0; link b.1 -> a.0;",
    "link a.1 -> a.0; link a.0 -> b.0;",
    "link b.0 -> b.0; link a.0 -> b.0; link a.1 -> b.0;",
];

/// Lines of the injection behind the fields x and y.
const INJECTED: &[&str] = &[
    "field global z:2 = 2;",
    "field global z:2 = 1; where global x:2 <= global y:2;",
    "field global z:2; where global x:2 != global z:2; where global y:2 > 0;",
    "field global z:2; field global opt1:2 = 1; field global opt2:2 = 3;",
    "field global z:2 = 3; where global x:2 > 1; where global x:2 < global y:2 or global x:2 == 2;",
];

/// `count` picked statements; the number behind the last that was used.
fn put_picked(rt: &impl Abort, text: &mut String, texts: &[&str], count: u32, number: u64) -> u64 {
    let mut number = number;
    for _ in 0..count {
        number = next(number);
        put(rt, text, picked(rt, texts, number), 1);
        put(rt, text, " ", 1);
    }
    number
}

/// A box with one input and two outputs.
fn put_box(rt: &impl Abort, text: &mut String, name: &str, number: u64) -> u64 {
    put(rt, text, "node ", 1);
    put(rt, text, name, 1);
    put(rt, text, " 1 -> 2 { in 0 { ", 1);
    let number = put_picked(rt, text, INNER, 4, number);
    put(rt, text, "} out 0 { ", 1);
    let number = put_picked(rt, text, OUTER, 1, number);
    put(rt, text, "} out 1 { ", 1);
    let number = put_picked(rt, text, OUTER, 1, number);
    put(rt, text, "} } ", 1);
    number
}

/// The job of a number: two boxes, and fields of two bits.
fn job_text(rt: &impl Abort, alloc: Global, number: u64) -> String {
    let mut text = String::new(alloc);
    put(rt, &mut text, "symnet 2; ", 1);
    let number = put_box(rt, &mut text, "a", number);
    let number = put_box(rt, &mut text, "b", number);
    let number = put_picked(rt, &mut text, LINKS, 1, number);
    put(
        rt,
        &mut text,
        "inject a.0 { field global x:2; field global y:2; ",
        1,
    );
    put_picked(rt, &mut text, INJECTED, 1, number);
    put(rt, &mut text, "}", 1);
    text
}

/// The packet of a number: four numbers of two bits.
fn packet_of(number: u8) -> [Num; 4] {
    let number = Num::from(number);
    [number % 4, number / 4 % 4, number / 16 % 4, number / 64]
}

/// Whether the terms are the numbers at the packet.
fn are_same(terms: &[Cell<Term>], numbers: &[Cell<&Num>], packet: &[Num]) -> bool {
    for (term, number) in terms.iter().zip(numbers) {
        if term.width != number.width || !is_same(&term.value, number.value.copied(), packet) {
            return false;
        }
    }
    terms.len() == numbers.len()
}

fn is_same(term: &Option<Term>, number: Option<Num>, packet: &[Num]) -> bool {
    match (term, number) {
        (None, None) => true,
        (Some(term), Some(number)) => term.value(packet) == number,
        (None, Some(_)) => false,
        (Some(_), None) => false,
    }
}

fn assert_tags(rt: &impl Abort, alloc: Global, tags: &[(TagId, i32)], state: &State) {
    let wanted = state.layers.tags(alloc).expect(rt, "memory");
    assert!(rt; tags == wanted.as_slice());
}

/// Whether the terms of each address are the numbers there.
fn are_heads(
    terms: &[(i32, Vec<Cell<Term>>)],
    numbers: &[(i32, Vec<Cell<&Num>>)],
    packet: &[Num],
) -> bool {
    for ((address, terms), (wanted, numbers)) in terms.iter().zip(numbers) {
        if *address != *wanted || !are_same(terms, numbers, packet) {
            return false;
        }
    }
    terms.len() == numbers.len()
}

fn assert_heads(rt: &impl Abort, alloc: Global, fields: &Fields, state: &State, packet: &[Num]) {
    let heads = state.layers.heads(alloc).expect(rt, "memory");
    assert!(rt; are_heads(&fields.heads, &heads, packet));
}

/// Whether the terms of each metadata are its numbers.
fn are_metas(
    terms: &[(Option<NodeId>, NameId, Vec<Cell<Term>>)],
    numbers: &[(Option<NodeId>, NameId, Vec<Cell<&Num>>)],
    packet: &[Num],
) -> bool {
    for ((owner, name, terms), (whose, wanted, numbers)) in terms.iter().zip(numbers) {
        if *owner != *whose || *name != *wanted || !are_same(terms, numbers, packet) {
            return false;
        }
    }
    terms.len() == numbers.len()
}

fn assert_metas(rt: &impl Abort, alloc: Global, fields: &Fields, state: &State, packet: &[Num]) {
    let metas = state.scopes.metas(alloc).expect(rt, "memory");
    assert!(rt; are_metas(&fields.metas, &metas, packet));
}

/// The fields are, at the packet, what is carried in numbers.
fn assert_fields(rt: &impl Abort, alloc: Global, fields: &Fields, state: &State, packet: &[Num]) {
    assert_tags(rt, alloc, &fields.tags, state);
    assert_heads(rt, alloc, fields, state, packet);
    assert_metas(rt, alloc, fields, state, packet);
}

/// The walk has these decisions, places and end.
fn assert_route(rt: &impl Abort, walk: &Walk, decisions: &[Decision], places: &[Place], end: &End) {
    assert!(rt; walk.decisions.len() == decisions.len());
    assert!(rt; walk.places.as_slice() == places);
    assert!(rt; walk.end == *end);
}

/// The walk does not begin with the decisions.
fn assert_other(rt: &impl Abort, walk: &Walk, decisions: &[Decision]) {
    assert!(rt; !walk.decisions.starts_with(decisions));
}

/// Whether the record is one of the walk's decisions; then it is its path: its decisions, its places, its end, and what is
/// carried there.
fn shows(rt: &impl Abort, alloc: Global, record: &Record, walk: &Walk, packet: &[Num]) -> bool {
    match record {
        Record::Path {
            decisions,
            places,
            end,
            fields,
            verdict: _,
        } => {
            if !walk.decisions.starts_with(decisions) {
                return false;
            }
            assert_route(rt, walk, decisions, places, end);
            assert_fields(rt, alloc, fields, &walk.state, packet);
            true
        }
        Record::Pruned { decisions, .. } => {
            assert_other(rt, walk, decisions);
            false
        }
        Record::Unexplored { decisions } => walk.decisions.starts_with(decisions),
    }
}

/// One record shows the walk.
fn assert_shown(rt: &impl Abort, alloc: Global, records: &[Record], walk: &Walk, packet: &[Num]) {
    let mut count: u64 = 0;
    for record in records {
        if shows(rt, alloc, record, walk, packet) {
            count = count.saturating_add(1);
        }
    }
    same(rt, count, 1);
}

/// The walks of a packet; none where it does not meet the injection.
fn walks_of(rt: &impl Abort, alloc: Global, job: &Accepted, packet: &[Num]) -> Vec<Walk>
    requires { AreOfOneJob (network job.now.net) (entry job.now.injection) }
{
    match walk_all(alloc, &job.net, &job.injection, packet, HOPS, 100_000) {
        Ok(walks) => walks,
        Err(WalkFault::Start { fault: _ }) => Vec::new(alloc),
        Err(_) => panic!(rt; "too many walks"),
    }
}

/// Each walk of the packet is shown once.
fn assert_packet(
    rt: &impl Abort,
    alloc: Global,
    job: &Accepted,
    records: &[Record],
    packet: &[Num],
    tally: &mut Tally,
)
    requires { AreOfOneJob (network job.now.net) (entry job.now.injection) }
{
    let walks = walks_of(rt, alloc, job, packet);
    for walk in walks.iter() {
        assert_shown(rt, alloc, records, walk, packet);
        count(tally, WALKS);
    }
}

/// The walk of these values with these decisions.
fn walk_of(
    rt: &impl Abort,
    alloc: Global,
    job: &Accepted,
    decisions: &[Decision],
    values: &[Num],
) -> Walk
    requires { AreOfOneJob (network job.now.net) (entry job.now.injection) }
{
    match walk_one(alloc, &job.net, &job.injection, values, HOPS, decisions) {
        Ok(Some(walk)) => walk,
        _ => panic!(rt; "no walk"),
    }
}

/// The values take the path.
fn assert_taken(
    rt: &impl Abort,
    alloc: Global,
    job: &Accepted,
    record: &Record,
    decisions: &[Decision],
    values: &[Num],
)
    requires { AreOfOneJob (network job.now.net) (entry job.now.injection) }
{
    let walk = walk_of(rt, alloc, job, decisions, values);
    assert!(rt; shows(rt, alloc, record, &walk, values));
    drop(walk);
}

fn assert_accepted(rt: &impl Abort, alloc: Global, condition: &PathCond, refutation: &Refutation) {
    let accepted = check(alloc, refutation, condition).expect(rt, "memory");
    assert!(rt; accepted);
}

/// The refutation is accepted.
fn assert_refuted(
    rt: &impl Abort,
    alloc: Global,
    job: &Accepted,
    decisions: &[Decision],
    refutation: &Refutation,
)
    requires { AreOfOneJob (network job.now.net) (entry job.now.injection) }
{
    let led = led(rt, alloc, job, HOPS, decisions);
    assert_accepted(rt, alloc, led.state.condition(), refutation);
    drop(led);
}

fn assert_holds(rt: &impl Abort, condition: &PathCond, values: &[Num]) {
    assert!(rt; condition.holds(values));
}

fn assert_licensed(rt: &impl Abort, alloc: Global, condition: &PathCond, cause: &Cause) {
    let licensed = lawful(alloc, cause, condition).expect(rt, "memory");
    assert!(rt; licensed);
}

/// The verdict is true of the condition where the decisions lead.
fn assert_verdict(
    rt: &impl Abort,
    alloc: Global,
    job: &Accepted,
    decisions: &[Decision],
    verdict: &Verdict,
)
    requires { AreOfOneJob (network job.now.net) (entry job.now.injection) }
{
    let led = led(rt, alloc, job, HOPS, decisions);
    let condition = led.state.condition();
    match verdict {
        Verdict::Sat { values } => assert_holds(rt, condition, values.as_slice()),
        Verdict::Undecided { cause } => assert_licensed(rt, alloc, condition, cause),
    }
    drop(led);
}

/// What came up: records by their kind, those that tell of something undecided, and walks.
type Tally = [u32; 10];

const UNDECIDED: usize = 8;

const WALKS: usize = 9;

fn count(tally: &mut Tally, kind: usize)
    requires { kind < 10 }
{
    tally[kind] = tally[kind].saturating_add(1);
}

/// The kind of a record: a path by its end, a refuted side, or a decision that is not tried.
fn kind_of(record: &Record) -> usize
    ensures { result < 8 }
{
    match record {
        Record::Path { end, .. } => match end {
            End::Stopped => 0,
            End::Delivered => 1,
            End::Cut => 2,
            End::Failed { failure, site: _ } => match failure {
                Failure::Layout(_) => 3,
                Failure::Constraint => 4,
                Failure::Message { text: _ } => 5,
            },
        },
        Record::Pruned { .. } => 6,
        Record::Unexplored { .. } => 7,
    }
}

/// Whether the record tells of something undecided.
fn is_open(record: &Record) -> bool {
    match record {
        Record::Path { verdict, .. } => is_undecided(verdict),
        Record::Pruned { before, .. } => before.as_ref().is_some_and(is_undecided),
        Record::Unexplored { .. } => false,
    }
}

fn is_undecided(verdict: &Verdict) -> bool {
    match verdict {
        Verdict::Sat { values: _ } => false,
        Verdict::Undecided { cause: _ } => true,
    }
}

/// What the record tells is so.
fn assert_record(rt: &impl Abort, alloc: Global, job: &Accepted, record: &Record)
    requires { AreOfOneJob (network job.now.net) (entry job.now.injection) }
{
    match record {
        Record::Path {
            decisions,
            verdict,
            ..
        } => {
            assert_verdict(rt, alloc, job, decisions, verdict);
            if let Verdict::Sat { values } = verdict {
                assert_taken(rt, alloc, job, record, decisions, values.as_slice());
            }
        }
        Record::Pruned {
            decisions,
            before,
            refutation,
        } => {
            assert_refuted(rt, alloc, job, decisions, refutation);
            assert_before(rt, alloc, job, decisions, before);
        }
        Record::Unexplored { .. } => panic!(rt; "the limit was met"),
    }
}

/// What was found before the last decision is true there.
fn assert_before(
    rt: &impl Abort,
    alloc: Global,
    job: &Accepted,
    decisions: &[Decision],
    before: &Option<Verdict>,
)
    requires { AreOfOneJob (network job.now.net) (entry job.now.injection) }
{
    match (decisions, before) {
        ([], None) => {}
        ([first @ .., _], Some(verdict)) => assert_verdict(rt, alloc, job, first, verdict),
        _ => panic!(rt; "before"),
    }
}

/// What each record tells is so.
fn assert_records(
    rt: &impl Abort,
    alloc: Global,
    job: &Accepted,
    records: &[Record],
    tally: &mut Tally,
)
    requires { AreOfOneJob (network job.now.net) (entry job.now.injection) }
{
    for record in records {
        assert_record(rt, alloc, job, record);
        count(tally, kind_of(record));
        if is_open(record) {
            count(tally, UNDECIDED);
        }
    }
}

/// Each packet walks one path on every fork.
fn assert_packets(
    rt: &impl Abort,
    alloc: Global,
    job: &Accepted,
    records: &[Record],
    few: &[Record],
    tally: &mut Tally,
)
    requires { AreOfOneJob (network job.now.net) (entry job.now.injection) }
{
    for number in 0..=255u8 {
        let packet = packet_of(number);
        assert_packet(rt, alloc, job, records, &packet, tally);
        assert_packet(rt, alloc, job, few, &packet, tally);
    }
}

/// Each packet walks one path on every fork, and what each record tells is so. Under a limit each walk is shown by one
/// record still.
fn assert_job(rt: &impl Abort, alloc: Global, text: &str, tally: &mut Tally) {
    let job = accepted(rt, alloc, text);
    let records = records_of(rt, alloc, &job, HOPS, 100_000);
    assert_records(rt, alloc, &job, records.as_slice(), tally);
    let few = records_of(rt, alloc, &job, HOPS, 3);
    assert_packets(rt, alloc, &job, records.as_slice(), few.as_slice(), tally);
    drop(job);
}

fn assert_tally(rt: &impl Abort, tally: Tally, wanted: Tally) {
    assert_eq!(rt; tally, wanted);
}

#[test]
fn each_packet_walks_one_path_on_every_fork(rt: HostRuntime) {
    let mut number = 1;
    let mut tally = [0; 10];
    for _ in 0..40u32 {
        number = next(number);
        let text = job_text(&rt, rt.alloc(), number);
        assert_job(&rt, rt.alloc(), text.as_str(), &mut tally);
    }
    assert_tally(&rt, tally, [25, 74, 72, 21, 63, 19, 52, 0, 56, 29_242]);
}
