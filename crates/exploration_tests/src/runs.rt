//! Runs that decisions guide.

ghost use Rattle.net_check.specs.Network.{entry, network};
ghost use Rattle.net_check.specs.Sound.{AreOfOneJob};

use crate::jobs::{accepted, same, same_text};
use crate::tables::{FORK, RING, TTL};
use net_check::Accepted;
use path_exec::FollowFault;
use path_exec::engine::Offer;
use sefl_meaning::{Decision, End, Place};
use sefl_syntax::Side;
use sn_width::NodeId;
use std::alloc::Global;
use std::process::Abort;
use sym_state::SymState;
use symbolic_engine::{Led, Waits, arrivals, follow};

/// Where these decisions, which are offered, lead.
pub fn led(rt: &impl Abort, alloc: Global, job: &Accepted, hops: u32, decisions: &[Decision]) -> Led
    requires { AreOfOneJob (network job.now.net) (entry job.now.injection) }
{
    match follow(alloc, &job.net, &job.injection, hops, decisions) {
        Ok(led) => led,
        Err(_) => panic!(rt; "not offered"),
    }
}

/// What comes next, and its number: the site of a failure, how many copies there are, or the first decision that is not offered.
type Coming = (&'static str, u64);

/// A job, the number of hops it is run with, and where decisions lead: how many formulas are met, and what comes next.
type Row = (&'static str, u32, &'static [Decision], u64, Coming);

const ROWS: &[Row] = &[
    (TTL, 16, &[], 0, ("if", 0)),
    (TTL, 16, &[Decision::Then], 1, ("failed", 3)),
    (TTL, 16, &[Decision::Else], 1, ("delivered", 0)),
    (TTL, 16, &[Decision::Pass], 0, ("not offered", 0)),
    (
        TTL,
        16,
        &[Decision::Else, Decision::Then],
        0,
        ("not offered", 1),
    ),
    (FORK, 16, &[], 0, ("fork", 3)),
    (FORK, 16, &[Decision::Copy(2)], 0, ("stopped", 0)),
    (FORK, 16, &[Decision::Copy(3)], 0, ("not offered", 0)),
    (RING, 3, &[], 0, ("cut", 0)),
];

fn what_comes(found: &Result<Led, FollowFault>) -> Coming {
    match found {
        Err(FollowFault::Impossible { at }) => ("not offered", *at as u64),
        Err(FollowFault::NoMemory) => ("no memory", 0),
        Ok(led) => match &led.waits {
            Waits::Nothing { how } => what_ended(how),
            Waits::Decides { offer } => what_is_offered(*offer),
        },
    }
}

fn what_ended(how: &End) -> Coming {
    match how {
        End::Stopped => ("stopped", 0),
        End::Delivered => ("delivered", 0),
        End::Cut => ("cut", 0),
        End::Failed { failure: _, site } => ("failed", u64::from(site.0)),
    }
}

fn what_is_offered(offer: Offer) -> Coming {
    match offer {
        Offer::If => ("if", 0),
        Offer::Constrain => ("constrain", 0),
        Offer::Fork { copies } => ("fork", u64::from(copies)),
    }
}

/// How many formulas are met there; 0 where the decisions are not offered.
fn met(found: &Result<Led, FollowFault>) -> u64 {
    match found {
        Ok(led) => led.state.condition().len(),
        Err(_) => 0,
    }
}

/// Where decisions lead in the job of a text.
fn lead(
    rt: &impl Abort,
    alloc: Global,
    text: &str,
    hops: u32,
    decisions: &[Decision],
) -> Result<Led, FollowFault> {
    let job = accepted(rt, alloc, text);
    let found = follow(alloc, &job.net, &job.injection, hops, decisions);
    drop(job);
    found
}

fn assert_led(rt: &impl Abort, alloc: Global, row: &Row) {
    let (text, hops, decisions, count, wanted) = row;
    let found = lead(rt, alloc, text, *hops, decisions);
    let (what, number) = what_comes(&found);
    same_text(rt, what, wanted.0);
    same(rt, number, wanted.1);
    same(rt, met(&found), *count);
    drop(found);
}

#[test]
fn decisions_lead_to_ends_and_to_questions(rt: HostRuntime) {
    for row in ROWS {
        assert_led(&rt, rt.alloc(), row);
    }
}

/// A job, decisions, a port with number 0, and how often the run arrives there; None where the decisions are not offered.
type Visit = (&'static str, &'static [Decision], u32, Side, Option<usize>);

const VISITS: &[Visit] = &[
    (TTL, &[Decision::Then], 0, Side::Inward, Some(1)),
    (TTL, &[Decision::Then], 0, Side::Outward, Some(0)),
    (TTL, &[Decision::Else], 0, Side::Outward, Some(1)),
    (TTL, &[Decision::Pass], 0, Side::Inward, None),
    (RING, &[], 0, Side::Inward, Some(2)),
    (RING, &[], 1, Side::Inward, Some(2)),
];

/// The states at a port of the job of a text.
fn arrived(
    rt: &impl Abort,
    alloc: Global,
    text: &str,
    decisions: &[Decision],
    port: Place,
) -> Result<Vec<SymState>, FollowFault> {
    let job = accepted(rt, alloc, text);
    let states = arrivals(alloc, &job.net, &job.injection, 3, decisions, port);
    drop(job);
    states
}

fn count_of(found: &Result<Vec<SymState>, FollowFault>) -> Option<usize> {
    match found {
        Ok(states) => Some(states.len()),
        Err(_) => None,
    }
}

fn assert_arrivals(rt: &impl Abort, alloc: Global, row: &Visit) {
    let (text, decisions, node, side, wanted) = row;
    let port = Place {
        node: NodeId(*node),
        side: *side,
        port: 0,
    };
    let found = arrived(rt, alloc, text, decisions, port);
    assert_eq!(rt; count_of(&found), *wanted);
}

#[test]
fn runs_arrive_at_ports(rt: HostRuntime) {
    for row in VISITS {
        assert_arrivals(&rt, rt.alloc(), row);
    }
}
