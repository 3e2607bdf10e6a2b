//! Walks that are still to come.

ghost use Rattle.std.specs.Prelude.{◌≡◌, suc, [], ◌∷◌, ◌++◌, IfOk, OnOk};
ghost use Rattle.net_check.specs.Network.{Network, network};
ghost use Rattle.sefl_meaning.specs.Runs.{noting};
ghost use Rattle.sefl_meaning.specs.Walks.{run_port};
ghost use Rattle.packet_run.specs.Packets.{RunsAs, given_of, progress_of};
ghost use Rattle.concrete_run.specs.Pending.{stage_before, stage_crossed, stage_over, stage_passed, steps_by, steps_next, steps_of, walks_by, walks_next, walks_of};
ghost use Rattle.concrete_run.specs.declared.pending.Stage.TheVariants.{Copying as CopyingTo};

use cell_values::{code_of, failed_at, first_site, hops_behind, link_of};
use code_frames::Exit;
use net_check::{Net, behind_item};
use packet_run::{Packet, run_code};
use sefl_meaning::{Decision, End, Place, State, Walk};
use sefl_syntax::Side;
use sn_width::{NoMemory, NodeId, Steps};
use std::alloc::Global;
use std::sync::ledger::Ledger;

/// Where a packet is on its way.
#[derive(Drop)]
pub(crate) enum Stage<'a> {
    /// Before an input port.
    Arriving {
        node: NodeId,
        port: u32,
    },
    /// Before an output port.
    Leaving {
        node: NodeId,
        port: u32,
    },
    /// Before a copy for each of these output ports; the first has the number.
    Copying {
        node: NodeId,
        number: u32,
        ports: &'a [u32],
    },
    Ended(End),
}

/// A packet on its way, the ports that it arrived at, and how many hops it has left.
pub(crate) struct Pending<'a> {
    pub hops: u32,
    pub places: Vec<Place>,
    pub packet: Packet<'a>,
    pub stage: Stage<'a>,
}

/// What comes of a packet on its way.
#[derive(Drop)]
pub(crate) enum Next<'a> {
    Ended(Walk),
    Moved(Pending<'a>),
    /// One copy, and then the others.
    Copied {
        first: Pending<'a>,
        others: Pending<'a>,
    },
    /// No copy.
    Gone,
}

impl<'a> Pending<'a> {
    /// Takes the packet over one port, or takes one copy of it.
    pub(crate) fn advance<L: Ledger>(
        self,
        alloc: Global,
        net: &'a Net,
        steps: &mut Steps<L>,
    ) -> Result<Next<'a>, NoMemory>
        ensures walks { IfOk result (λ next. walks_next (network net.now) next
            ≡ walks_of (network net.now) self.entry) }
        ensures work { IfOk result (λ next. suc (steps_next (network net.now) next)
            ≡ steps_of (network net.now) self.entry) }
    {
        let Pending {
            hops,
            places,
            packet,
            stage,
        } = self;
        match stage {
            Stage::Ended(end) => Ok(Next::Ended(packet.into_walk(places, end))),
            Stage::Arriving { node, port } => {
                let side = Side::Inward;
                let moved = arrive(alloc, net, hops, places, packet, node, side, port, steps)?;
                Ok(Next::Moved(moved))
            }
            Stage::Leaving { node, port } => {
                let side = Side::Outward;
                let moved = arrive(alloc, net, hops, places, packet, node, side, port, steps)?;
                Ok(Next::Moved(moved))
            }
            Stage::Copying {
                node,
                number,
                ports,
            } => copy(alloc, hops, places, packet, node, number, ports),
        }
    }
}

// Written out, and not derived, so that the proof of a function that lets one go sees a call.
impl<'a> Drop for Pending<'a> {
    fn drop(self) {
        let Pending {
            hops: _,
            places,
            packet,
            stage,
        } = self;
        drop(places);
        drop(packet);
        drop(stage);
    }
}

/// Arrives at a port and runs its code; where that does not run, the walk is cut.
fn arrive<'a, L: Ledger>(
    alloc: Global,
    net: &'a Net,
    hops: u32,
    places: Vec<Place>,
    packet: Packet<'a>,
    node: NodeId,
    side: Side,
    port: u32,
    steps: &mut Steps<L>,
) -> Result<Pending<'a>, NoMemory>
    ensures walks { IfOk result (λ moved. walks_of (network net.now) moved
        ≡ walks_by (network net.now) (stage_before node side port) hops places.items packet.entry) }
    ensures work { IfOk result (λ moved. suc (steps_of (network net.now) moved)
        ≡ steps_by (network net.now) (stage_before node side port) hops packet.entry) }
{
    let mut places = places;
    let mut packet = packet;
    places.push(Place { node, side, port })?;
    let Some(rest) = hops_behind(side, hops) else {
        let stage = Stage::Ended(End::Cut);
        return Ok(Pending {
            hops,
            places,
            packet,
            stage,
        });
    };
    let exit = run_port(alloc, net, node, side, port, &mut packet, steps)?;
    let stage = behind(net, node, side, port, exit);
    Ok(Pending {
        hops: rest,
        places,
        packet,
        stage,
    })
}

/// The first of the copies, and the others.
fn copy<'a>(
    alloc: Global,
    hops: u32,
    places: Vec<Place>,
    packet: Packet<'a>,
    node: NodeId,
    number: u32,
    ports: &'a [u32],
) -> Result<Next<'a>, NoMemory>
    ensures walks { IfOk result (λ next. (net : Network)
        → walks_next net next ≡ walks_by net (CopyingTo node number ports.entry) hops places.items packet.entry) }
    ensures work { IfOk result (λ next. (net : Network)
        → suc (steps_next net next) ≡ steps_by net (CopyingTo node number ports.entry) hops packet.entry) }
{
    let [port, rest @ ..] = ports else {
        return Ok(Next::Gone);
    };
    let behind = behind_item(number)?;
    let first = Pending {
        hops,
        places: copied(alloc, &places)?,
        packet: fork(alloc, &packet, Decision::Copy(number))?,
        stage: Stage::Leaving { node, port: *port },
    };
    let others = Pending {
        hops,
        places,
        packet,
        stage: Stage::Copying {
            node,
            number: behind,
            ports: rest,
        },
    };
    Ok(Next::Copied { first, others })
}

/// The same packet, with one decision more.
fn fork<'a>(alloc: Global, packet: &Packet<'a>, decision: Decision) -> Result<Packet<'a>, NoMemory>
    ensures given { IfOk result (λ copy. given_of copy ≡ given_of packet.now) }
    ensures decisions { IfOk result (λ copy. copy.decisions.items ≡ packet.now.decisions.items ++ decision ∷ []) }
    ensures progress { IfOk result (λ copy. progress_of copy ≡ progress_of packet.now) }
{
    let mut decisions = copied(alloc, &packet.decisions)?;
    decisions.push(decision)?;
    let choices = copied(alloc, &packet.choices)?;
    let scopes = packet.state.scopes.fork()?;
    let layers = packet.state.layers.fork()?;
    Ok(Packet {
        numbers: packet.numbers,
        decisions,
        state: State { layers, scopes },
        choices,
    })
}

fn copied<T: Copy>(alloc: Global, items: &[T]) -> Result<Vec<T>, NoMemory>
    ensures { IfOk result (λ copy. copy.items ≡ items.now) }
{
    let mut copy = Vec::new(alloc);
    copy.extend_from_slice(items)?;
    Ok(copy)
}

/// Runs the code of a port.
fn run_port<'a, L: Ledger>(
    alloc: Global,
    net: &'a Net,
    node: NodeId,
    side: Side,
    port: u32,
    packet: &mut Packet<'_>,
    steps: &mut Steps<L>,
) -> Result<Exit<'a>, NoMemory>
    ensures run { IfOk result (λ exit. RunsAs packet.new exit (noting packet.old.decisions.items
        (run_port (network net.now) packet.old.numbers.numbers.now packet.old.numbers.unknowns node side port
        (progress_of packet.old)))) }
    ensures given { OnOk result (given_of packet.new ≡ given_of packet.old) }
{
    let site = first_site(net, node, side, port)?;
    let code = code_of(net, node, side, port);
    run_code(alloc, net, node, site, code, packet, steps)
}

/// Behind the code of a port.
fn behind<'a>(net: &Net, node: NodeId, side: Side, port: u32, exit: Exit<'a>) -> Stage<'a>
    ensures { result ≡ stage_over (network net.now) node side port exit.entry }
{
    match side {
        Side::Inward => passed(node, exit),
        Side::Outward => crossed(link_of(net, node, port), exit),
    }
}

/// Behind the code of an input port.
fn passed<'a>(node: NodeId, exit: Exit<'a>) -> Stage<'a>
    ensures { result ≡ stage_passed node exit.entry }
{
    match exit {
        Exit::Off => Stage::Ended(End::Stopped),
        Exit::Go(port) => Stage::Leaving { node, port },
        Exit::Forked(ports) => Stage::Copying {
            node,
            number: 0,
            ports,
        },
        Exit::Failed { failure, site } => Stage::Ended(failed_at(failure, site)),
    }
}

/// Behind the code of an output port.
fn crossed<'a>(link: Option<(NodeId, u32)>, exit: Exit<'a>) -> Stage<'a>
    ensures { result ≡ stage_crossed link exit.entry }
{
    match exit {
        Exit::Off => match link {
            None => Stage::Ended(End::Delivered),
            Some((node, port)) => Stage::Arriving { node, port },
        },
        Exit::Failed { failure, site } => Stage::Ended(failed_at(failure, site)),
        // Forward and Fork do not stand at an output port.
        Exit::Go(_) => Stage::Ended(End::Stopped),
        Exit::Forked(_) => Stage::Ended(End::Stopped),
    }
}
