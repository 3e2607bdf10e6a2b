//! The walks of a packet.

ghost use Rattle.std.specs.Prelude.{◌≡◌, ◌↔◌, ◌+◌, ◌<◌, [], ◌∷◌, ◌++◌, suc, List, reverse, IsTrue, IfOk, OnOk};
ghost use Rattle.net_check.specs.Network.{entry, network, unknown_count};
ghost use Rattle.net_check.specs.Sound.{AreOfOneJob};
ghost use Rattle.sefl_meaning.specs.View.{carried_of};
ghost use Rattle.sefl_meaning.specs.Walks.{Trail};
ghost use Rattle.concrete_run.specs.Answers.{AllAnswer, GatherAnswer, OneAnswer, IsAtStart, SearchAnswer, SeekAnswer, StartedAnswer};
ghost use Rattle.concrete_run.specs.Pending.{BeginsWith, Sought, steps_of, steps_of_all, walk_found, walks_of, walks_of_all};

use crate::injecting::{StartFault, start};
use crate::pending::{Next, Pending, Stage};
use instr_steps::Numbers;
use net_check::{Injection, Net};
use packet_run::Packet;
use sefl_meaning::{Decision, State, Walk};
use sn_width::{NoMemory, Num, Steps};
use std::alloc::{AllocFailed, Global};
use std::marker::Brand;
use std::sync::ledger::{Blank, Ledger};

/// Why there are no walks to answer.
#[derive(Clone, Copy, PartialEq, Eq)]
pub enum WalkFault {
    /// The packet does not start; never for want of memory.
    Start { fault: StartFault },
    /// There are more walks than the limit, which is one less than this.
    TooMany { count: u64 },
    NoMemory,
}

impl From<NoMemory> for WalkFault {
    ghost use Rattle.std.specs.Prelude.{◌≡◌};
    ghost use Rattle.concrete_run.specs.declared.walks.WalkFault.TheVariants.{NoMemory as OutOfMemory};

    ghost from_gives = { λ _ fault. fault ≡ OutOfMemory };

    fn from(_error: NoMemory) -> WalkFault {
        WalkFault::NoMemory
    }
}

impl<T: Drop> From<AllocFailed<T>> for WalkFault {
    ghost use Rattle.std.specs.Prelude.{◌≡◌};
    ghost use Rattle.concrete_run.specs.declared.walks.WalkFault.TheVariants.{NoMemory as OutOfMemory};

    ghost from_gives = { λ _ fault. fault ≡ OutOfMemory };

    fn from(_error: AllocFailed<T>) -> WalkFault {
        WalkFault::NoMemory
    }
}

/// All walks of a packet, ascending by decisions, with `hops` hops; or that there are more than the limit.
pub fn walk_all(
    alloc: Global,
    net: &Net,
    injection: &Injection,
    values: &[Num],
    hops: u32,
    limit: u32,
) -> Result<Vec<Walk>, WalkFault>
    requires { AreOfOneJob (network net.now) (entry injection.now) }
    ensures { AllAnswer (network net.now) (entry injection.now) values.now hops limit result }
{
    let state = started(alloc, net, injection, values)?;
    let pending = at_start(alloc, injection, values, state, hops);
    gather::<Brand>(alloc, net, pending, limit, Blank::new(1))
}

/// The walk of a packet that has these decisions; None exactly where no walk has them.
pub fn walk_one(
    alloc: Global,
    net: &Net,
    injection: &Injection,
    values: &[Num],
    hops: u32,
    decisions: &[Decision],
) -> Result<Option<Walk>, WalkFault>
    requires { AreOfOneJob (network net.now) (entry injection.now) }
    ensures { OneAnswer (network net.now) (entry injection.now) values.now hops decisions.now result }
{
    let state = started(alloc, net, injection, values)?;
    let pending = at_start(alloc, injection, values, state, hops);
    let found = search::<Brand>(alloc, net, pending, decisions, Blank::new(1))?;
    Ok(found)
}

/// What the packet carries at its start.
fn started(
    alloc: Global,
    net: &Net,
    injection: &Injection,
    values: &[Num],
) -> Result<State, WalkFault>
    requires { AreOfOneJob (network net.now) (entry injection.now) }
    ensures { StartedAnswer (network net.now) (entry injection.now) values.now result }
{
    match start(alloc, net, injection, values) {
        Ok(state) => Ok(state),
        Err(StartFault::NoMemory) => Err(WalkFault::NoMemory),
        Err(fault) => Err(WalkFault::Start { fault }),
    }
}

/// The packet before the injection's port.
fn at_start<'a>(
    alloc: Global,
    injection: &Injection,
    values: &'a [Num],
    state: State,
    hops: u32,
) -> Pending<'a>
    ensures { IsAtStart (entry injection.now) (values.now, unknown_count (entry injection.now)) hops (carried_of state)
        result }
{
    let (node, port) = injection.place();
    Pending {
        hops,
        places: Vec::new(alloc),
        packet: Packet {
            numbers: Numbers {
                numbers: values,
                unknowns: injection.unknowns(),
            },
            decisions: Vec::new(alloc),
            state,
            choices: Vec::new(alloc),
        },
        stage: Stage::Arriving { node, port },
    }
}

/// All walks of what is pending, in their order, where they are no more than the limit.
fn gather<'a, L: Ledger>(
    alloc: Global,
    net: &'a Net,
    pending: Pending<'a>,
    limit: u32,
    blank: Blank,
) -> Result<Vec<Walk>, WalkFault>
    requires name { blank.name ≡ L.name }
    requires parts { blank.parts ≡ L.parts }
    requires some { 0 < blank.parts }
    ensures { GatherAnswer limit (walks_of (network net.now) pending.entry) result }
{
    let mut steps = Steps::<L>::new(blank);
    let mut walks = Vec::new(alloc);
    let mut work = Vec::new(alloc);
    work.push(pending)?;
    while let Some(next) = work.pop() {
        if let Some(walk) = take_on(alloc, net, next, &mut work, &mut steps)? {
            if walks.len() >= limit as usize {
                let_go(walk);
                return Err(WalkFault::TooMany {
                    count: u64::from(limit) + 1,
                });
            }
            walks.push(walk)?;
        }
    }
    Ok(walks)
}

/// Puts what comes of a packet on top of the work, or tells the walk that has ended.
fn take_on<'a, L: Ledger>(
    alloc: Global,
    net: &'a Net,
    pending: Pending<'a>,
    work: &mut Vec<Pending<'a>>,
    steps: &mut Steps<L>,
) -> Result<Option<Walk>, NoMemory>
    ensures walks { IfOk result (λ ended. walk_found ended ++ walks_of_all (network net.now) (reverse work.new.items)
        ≡ walks_of (network net.now) pending.entry ++ walks_of_all (network net.now) (reverse work.old.items)) }
    ensures work { OnOk result (suc (steps_of_all (network net.now) (reverse work.new.items))
        ≡ steps_of (network net.now) pending.entry + steps_of_all (network net.now) (reverse work.old.items)) }
{
    match pending.advance(alloc, net, steps)? {
        Next::Ended(walk) => Ok(Some(walk)),
        Next::Moved(moved) => {
            work.push(moved)?;
            Ok(None)
        }
        Next::Copied { first, others } => {
            put_both(work, others, first)?;
            Ok(None)
        }
        Next::Gone => Ok(None),
    }
}

/// Puts two packets on top of the work, the second on the first.
fn put_both<'a>(
    work: &mut Vec<Pending<'a>>,
    below: Pending<'a>,
    top: Pending<'a>,
) -> Result<(), NoMemory>
    ensures { OnOk result (work.new.items ≡ (work.old.items ++ below.entry ∷ []) ++ top.entry ∷ []) }
{
    work.push(below)?;
    work.push(top)?;
    Ok(())
}

/// The walk of what is pending that has these decisions. What cannot lead to it is left out.
fn search<'a, L: Ledger>(
    alloc: Global,
    net: &'a Net,
    pending: Pending<'a>,
    decisions: &[Decision],
    blank: Blank,
) -> Result<Option<Walk>, NoMemory>
    requires name { blank.name ≡ L.name }
    requires parts { blank.parts ≡ L.parts }
    requires some { 0 < blank.parts }
    ensures { SearchAnswer decisions.now (walks_of (network net.now) pending.entry) result }
{
    let mut steps = Steps::<L>::new(blank);
    let mut work = Vec::new(alloc);
    work.push(pending)?;
    while let Some(next) = work.pop() {
        if let Some(walk) = seek(alloc, net, next, decisions, &mut work, &mut steps)? {
            return Ok(Some(walk));
        }
    }
    Ok(None)
}

/// Takes a packet on where it may come to these decisions; the walk where it has ended with them.
fn seek<'a, L: Ledger>(
    alloc: Global,
    net: &'a Net,
    pending: Pending<'a>,
    decisions: &[Decision],
    work: &mut Vec<Pending<'a>>,
    steps: &mut Steps<L>,
) -> Result<Option<Walk>, NoMemory>
    ensures sought { IfOk result (λ found. (all : List Trail)
        → Sought (network net.now) decisions.now (pending.entry ∷ reverse work.old.items) all
        → SeekAnswer (network net.now) decisions.now (reverse work.new.items) all found) }
    ensures work { OnOk result (steps_of_all (network net.now) (reverse work.new.items)
        < steps_of (network net.now) pending.entry + steps_of_all (network net.now) (reverse work.old.items)) }
{
    if !leads_to(&pending.packet.decisions, decisions) {
        return Ok(None);
    }
    let Some(walk) = take_on(alloc, net, pending, work, steps)? else {
        return Ok(None);
    };
    if are_same(&walk.decisions, decisions) {
        return Ok(Some(walk));
    }
    let_go(walk);
    Ok(None)
}

/// Drops the walk, which is proved once here and not in each caller.
fn let_go(_walk: Walk) {}

/// Whether the second list of decisions begins with the first.
fn leads_to(first: &[Decision], decisions: &[Decision]) -> bool
    ensures { IsTrue result ↔ BeginsWith first.now decisions.now }
{
    decisions.starts_with(first)
}

fn are_same(first: &[Decision], second: &[Decision]) -> bool
    ensures { IsTrue result ↔ (first.now ≡ second.now) }
{
    first == second
}
