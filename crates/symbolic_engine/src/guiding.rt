//! The runs that decisions guide.

ghost use Rattle.std.specs.Prelude.{◌≡◌, ◌<◌, map, IfOk};
ghost use Rattle.std.specs.List.{AllByRecursion};
ghost use Rattle.net_check.specs.Network.{entry, network};
ghost use Rattle.net_check.specs.Sound.{AreOfOneJob};
ghost use Rattle.exact_records.specs.Packets.{IsExplored};
ghost use Rattle.symbolic_engine.specs.Origins.{IsFirstState, IsRunOf};
ghost use Rattle.symbolic_engine.specs.Exploring.{ArrivedFor, FollowedFor};

use crate::engine::Explorer;
use crate::origin::Origin;
use crate::points::{Finished, Standing, Waiting};
use net_check::{Injection, Net};
use path_exec::FollowFault;
use path_exec::engine::{Next, Offer};
use sefl_meaning::{Decision, End, Place};
use sn_width::{NoMemory, Steps};
use std::alloc::Global;
use std::marker::Brand;
use std::sync::ledger::{Blank, Ledger};
use sym_state::SymState;

/// What waits where decisions lead.
#[derive(Drop)]
pub enum Waits {
    /// Nothing, the run is over.
    Nothing { how: End },
    /// An instruction that takes one of these decisions.
    Decides { offer: Offer },
}

/// Where decisions lead.
#[derive(Drop)]
pub struct Led {
    pub state: SymState,
    pub waits: Waits,
}

/// The state to which these decisions lead, and what waits there; or the first decision that is not offered.
pub fn follow(
    alloc: Global,
    net: &Net,
    injection: &Injection,
    hops: u32,
    decisions: &[Decision],
) -> Result<Led, FollowFault>
    requires { AreOfOneJob (network net.now) (entry injection.now) }
    ensures { FollowedFor (network net.now) (entry injection.now) hops decisions.now result }
{
    let first = SymState::from_injection(alloc, net, injection)?;
    follow_from::<Brand, Brand>(alloc, net, injection, hops, first, decisions, Blank::new(1))
}

/// The same from the state that the injection begins with, and with a counter of its own.
fn follow_from<B: Origin, L: Ledger>(
    alloc: Global,
    net: &Net,
    injection: &Injection,
    hops: u32,
    first: SymState,
    decisions: &[Decision],
    blank: Blank,
) -> Result<Led, FollowFault>
    requires net { network net.now ≡ B.net }
    requires explored { IsExplored (network net.now) (entry injection.now) hops B.start }
    requires first { IsFirstState B.start (network net.now) hops injection.now.node injection.now.raw.port first }
    requires name { blank.name ≡ L.name }
    requires parts { blank.parts ≡ L.parts }
    requires some { 0 < blank.parts }
    ensures { FollowedFor (network net.now) (entry injection.now) hops decisions.now result }
{
    let engine = Explorer::<B>::new(alloc, net, injection.place(), hops, first);
    let mut steps = Steps::<L>::new(blank);
    let next = path_exec::follow(alloc, &engine, decisions, &mut steps)?;
    match next {
        Next::AtEnd { over } => {
            let Finished { run, how } = over;
            let state = run.into_state();
            let waits = Waits::Nothing { how };
            Ok(Led { state, waits })
        }
        Next::AtNode { node, offer } => {
            let Waiting { run, wait: _ } = node;
            let state = run.into_state();
            let waits = Waits::Decides { offer };
            Ok(Led { state, waits })
        }
    }
}

/// The states in which the run of these decisions arrives at the port, before the port's code, in order, each with the decisions,
/// ports and condition up to that arrival; or the first decision that is not offered.
pub fn arrivals(
    alloc: Global,
    net: &Net,
    injection: &Injection,
    hops: u32,
    decisions: &[Decision],
    port: Place,
) -> Result<Vec<SymState>, FollowFault>
    requires { AreOfOneJob (network net.now) (entry injection.now) }
    ensures { ArrivedFor (network net.now) (entry injection.now) hops port decisions.now result }
{
    let first = SymState::from_injection(alloc, net, injection)?;
    arrivals_from::<Brand, Brand>(
        alloc,
        net,
        injection,
        hops,
        first,
        decisions,
        port,
        Blank::new(1),
    )
}

/// The same from the state that the injection begins with, and with a counter of its own.
fn arrivals_from<B: Origin, L: Ledger>(
    alloc: Global,
    net: &Net,
    injection: &Injection,
    hops: u32,
    first: SymState,
    decisions: &[Decision],
    port: Place,
    blank: Blank,
) -> Result<Vec<SymState>, FollowFault>
    requires net { network net.now ≡ B.net }
    requires explored { IsExplored (network net.now) (entry injection.now) hops B.start }
    requires first { IsFirstState B.start (network net.now) hops injection.now.node injection.now.raw.port first }
    requires name { blank.name ≡ L.name }
    requires parts { blank.parts ≡ L.parts }
    requires some { 0 < blank.parts }
    ensures { ArrivedFor (network net.now) (entry injection.now) hops port decisions.now result }
{
    let engine = Explorer::<B>::new(alloc, net, injection.place(), hops, first);
    let mut steps = Steps::<L>::new(blank);
    let places = path_exec::arrivals(alloc, &engine, decisions, port, &mut steps)?;
    let states = states_of(alloc, places)?;
    Ok(states)
}

/// The states of places.
fn states_of<B: Origin>(
    alloc: Global,
    places: Vec<Standing<'_, B>>,
) -> Result<Vec<SymState>, NoMemory>
    ensures all { IfOk result (λ states. states.items ≡ map (λ place. place.run) places.entry.items) }
    ensures own { IfOk result (λ states. AllByRecursion (IsRunOf B.start) states.items) }
{
    let mut states = Vec::with_capacity(alloc, places.len())?;
    for place in places {
        let Standing { run, stage: _ } = place;
        states.push(run.into_state())?;
    }
    Ok(states)
}
