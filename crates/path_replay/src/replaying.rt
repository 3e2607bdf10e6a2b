//! Records that are confirmed by themselves.

ghost use Rattle.std.specs.Prelude.{◌≡◌, IfOk};
ghost use Rattle.net_check.specs.Network.{entry, network};
ghost use Rattle.net_check.specs.Sound.{AreOfOneJob};
ghost use Rattle.exact_records.specs.Packets.{IsExplored};
ghost use Rattle.exact_records.specs.View.{record_trees};
ghost use Rattle.symbolic_engine.specs.Origins.{IsFirstState};
ghost use Rattle.path_replay.specs.Replaying.{ConfirmsAllFor, ConfirmsFor, ConfirmsWholeFor, IsConfirmedBackFor, TellPackets};
ghost use Rattle.whole_checks.specs.Walks.{ShowEachWalk};

use crate::laws::{confirmed_records_tell_packets, one_answer_for_a_net, whole_records_show_walks};
use crate::runs::Runs;
use net_check::{Injection, Net};
use path_records::Record;
use record_checks::{Confirmed, ReplayFault, Supply, confirm_along, confirm_given_along};
use sn_width::NoMemory;
use std::alloc::Global;
use std::marker::Brand;
use sym_state::SymState;
use symbolic_engine::{Explorer, Origin};
use whole_checks::{WholeFault, confirm_whole_along};

/// Confirms that each record has its own meaning, of a net and an injection with `hops` hops: the counts of the records,
/// or the first that has not its meaning, by its first broken part. It speaks of each record by itself: not of whether all
/// packets are shown, and not of whether values are the least. Where all are confirmed, the values of each path are a packet
/// that takes it, and no packet takes a refuted side.
///
/// One run is guided along the decisions of all records, so that records that ascend by their decisions cost what exploring
/// them cost. The values of a path are tried in the condition to which its decisions lead. Refutations and causes are checked,
/// and nothing is solved.
pub fn confirm(
    alloc: Global,
    net: &Net,
    injection: &Injection,
    hops: u32,
    records: &[Record],
) -> Result<Confirmed, ReplayFault>
    requires { AreOfOneJob (network net.now) (entry injection.now) }
    ensures confirms { ConfirmsFor (network net.now) (entry injection.now) hops (record_trees records.now) result }
    ensures back { IsConfirmedBackFor (network net.now) (entry injection.now) hops (record_trees records.now) result }
    ensures packets { IfOk result (λ counts. TellPackets (network net.now) (entry injection.now) hops
        (record_trees records.now)) }
{
    one_answer_for_a_net();
    confirmed_records_tell_packets();
    confirm_job(alloc, net, injection, hops, records)
}

/// The same, one way.
fn confirm_job(
    alloc: Global,
    net: &Net,
    injection: &Injection,
    hops: u32,
    records: &[Record],
) -> Result<Confirmed, ReplayFault>
    requires { AreOfOneJob (network net.now) (entry injection.now) }
    ensures { ConfirmsFor (network net.now) (entry injection.now) hops (record_trees records.now) result }
{
    let first = SymState::from_injection(alloc, net, injection)?;
    confirm_from::<Brand>(alloc, net, injection, hops, first, records)
}

/// The same from the state that the injection begins with.
fn confirm_from<B: Origin>(
    alloc: Global,
    net: &Net,
    injection: &Injection,
    hops: u32,
    first: SymState,
    records: &[Record],
) -> Result<Confirmed, ReplayFault>
    requires net { network net.now ≡ B.net }
    requires explored { IsExplored (network net.now) (entry injection.now) hops B.start }
    requires first { IsFirstState B.start (network net.now) hops injection.now.node injection.now.raw.port first }
    ensures { ConfirmsFor (network net.now) (entry injection.now) hops (record_trees records.now) result }
{
    let runs: Runs<'_, B> = runs_from(alloc, net, injection, hops, first)?;
    confirm_along(alloc, &runs, records)
}

/// Confirms that each record has its own meaning, as `confirm` does, and with the same run that together they leave nothing out: each was
/// tried and comes next behind the one before it. Where all is confirmed, each walk of each packet that meets the injection has exactly
/// one path among them, whoever made them.
pub fn confirm_whole(
    alloc: Global,
    net: &Net,
    injection: &Injection,
    hops: u32,
    records: &[Record],
) -> Result<Confirmed, WholeFault>
    requires { AreOfOneJob (network net.now) (entry injection.now) }
    ensures confirms { ConfirmsWholeFor (network net.now) (entry injection.now) hops (record_trees records.now) result }
    ensures packets { IfOk result (λ counts. TellPackets (network net.now) (entry injection.now) hops
        (record_trees records.now)) }
    ensures walks { IfOk result (λ counts. ShowEachWalk (network net.now) (entry injection.now) hops
        (record_trees records.now)) }
{
    whole_records_show_walks();
    confirm_whole_job(alloc, net, injection, hops, records)
}

/// The same, without what follows.
fn confirm_whole_job(
    alloc: Global,
    net: &Net,
    injection: &Injection,
    hops: u32,
    records: &[Record],
) -> Result<Confirmed, WholeFault>
    requires { AreOfOneJob (network net.now) (entry injection.now) }
    ensures { ConfirmsWholeFor (network net.now) (entry injection.now) hops (record_trees records.now) result }
{
    let first = SymState::from_injection(alloc, net, injection)?;
    confirm_whole_from::<Brand>(alloc, net, injection, hops, first, records)
}

/// The same from the state that the injection begins with.
fn confirm_whole_from<B: Origin>(
    alloc: Global,
    net: &Net,
    injection: &Injection,
    hops: u32,
    first: SymState,
    records: &[Record],
) -> Result<Confirmed, WholeFault>
    requires net { network net.now ≡ B.net }
    requires explored { IsExplored (network net.now) (entry injection.now) hops B.start }
    requires first { IsFirstState B.start (network net.now) hops injection.now.node injection.now.raw.port first }
    ensures { ConfirmsWholeFor (network net.now) (entry injection.now) hops (record_trees records.now) result }
{
    let runs: Runs<'_, B> = runs_from(alloc, net, injection, hops, first)?;
    confirm_whole_along(alloc, &runs, records)
}

/// The runs from the state that the injection begins with.
fn runs_from<'a, B: Origin>(
    alloc: Global,
    net: &'a Net,
    injection: &Injection,
    hops: u32,
    first: SymState,
) -> Result<Runs<'a, B>, NoMemory>
    requires net { network net.now ≡ B.net }
    requires explored { IsExplored (network net.now) (entry injection.now) hops B.start }
    requires first { IsFirstState B.start (network net.now) hops injection.now.node injection.now.raw.port first }
{
    let condition = first.condition().fork()?;
    let engine = Explorer::<B>::new(alloc, net, injection.place(), hops, first);
    Ok(Runs { engine, condition })
}

/// The same as `confirm` for records that are handed over one by one. It keeps none of them. It takes all, also behind one that
/// is not confirmed.
pub fn confirm_given<S: Supply>(
    alloc: Global,
    net: &Net,
    injection: &Injection,
    hops: u32,
    supply: &mut S,
) -> Result<Confirmed, ReplayFault>
    requires { AreOfOneJob (network net.now) (entry injection.now) }
    ensures { ConfirmsAllFor (network net.now) (entry injection.now) hops S.steps supply.old supply.new result }
{
    let first = SymState::from_injection(alloc, net, injection)?;
    confirm_given_from::<Brand, S>(alloc, net, injection, hops, first, supply)
}

/// The same from the state that the injection begins with.
fn confirm_given_from<B: Origin, S: Supply>(
    alloc: Global,
    net: &Net,
    injection: &Injection,
    hops: u32,
    first: SymState,
    supply: &mut S,
) -> Result<Confirmed, ReplayFault>
    requires net { network net.now ≡ B.net }
    requires explored { IsExplored (network net.now) (entry injection.now) hops B.start }
    requires first { IsFirstState B.start (network net.now) hops injection.now.node injection.now.raw.port first }
    ensures { ConfirmsAllFor (network net.now) (entry injection.now) hops S.steps supply.old supply.new result }
{
    let runs: Runs<'_, B> = runs_from(alloc, net, injection, hops, first)?;
    confirm_given_along(alloc, &runs, supply)
}
