//! The exploration of a net from an injection.

ghost use Rattle.std.specs.Prelude.{◌≡◌, ◌<◌, [], IfOk};
ghost use Rattle.net_check.specs.Network.{entry, network};
ghost use Rattle.net_check.specs.Sound.{AreOfOneJob};
ghost use Rattle.sefl_meaning.specs.Routes.{Splits};
ghost use Rattle.path_records.specs.declared.records.Record.{Record as RecordOf};
ghost use Rattle.exact_records.specs.Packets.{IsExplored};
ghost use Rattle.path_exec.specs.Receiving.{IsSame};
ghost use Rattle.symbolic_engine.specs.Origins.{IsFirstState};
ghost use Rattle.symbolic_engine.specs.Exploring.{AreFound, ExploredFor, ObservedFor, TakesHanded};

use crate::engine::Explorer;
use crate::found::Found;
use crate::origin::Origin;
use crate::recording::{Mark, Recording};
use exact_records::laws::exact_records_show_each_walk;
use lin_term::Term;
use net_check::{Injection, Net};
use path_exec::{Ended, Kept, Observer, Receiver};
use path_records::Record;
use sefl_meaning::laws::accepted_forks_have_copies;
use sn_width::{NoMemory, Steps};
use std::alloc::Global;
use std::marker::{Brand, PhantomData};
use std::sync::ledger::Ledger;
use sym_state::SymState;
use term_values::Formulas;

/// Explores a net from an injection, with `hops` hops, and shows an observer what is found, at once and with the decisions that led
/// there: at most `limit` of paths and refuted sides, in the order of their decisions, and then each decision that is left. The records
/// of what is found are exact for the net, and the state of a path is where its decisions lead. The counter counts the instructions that begin, at most the work of the records.
///
/// For want of memory, and where the observer answers it, what was shown is exact so far.
pub fn observe<K: Observer<Found = Found>, L: Ledger>(
    alloc: Global,
    net: &Net,
    injection: &Injection,
    hops: u32,
    limit: u32,
    out: &mut K,
    steps: &mut Steps<L>,
) -> Result<Ended, NoMemory>
    requires job { AreOfOneJob (network net.now) (entry injection.now) }
    requires some { 0 < limit }
    requires stands { (K.seen out.old).StandsFor [] }
    requires takes { TakesHanded (network net.now) (entry injection.now) hops (K.seen out.old) }
    ensures same { IsSame (K.seen out.old) (K.seen out.new) }
    ensures observed { ObservedFor (network net.now) (entry injection.now) hops limit (K.seen out.old).stops
        (K.seen out.new) steps.old steps.new result }
{
    net.keeps_the_rules();
    accepted_forks_have_copies::<Term, Formulas>();
    let first = SymState::from_injection(alloc, net, injection)?;
    observe_from::<Brand, K, L>(alloc, net, injection, hops, limit, first, out, steps)
}

/// The same from the state that the injection begins with.
fn observe_from<B: Origin, K: Observer<Found = Found>, L: Ledger>(
    alloc: Global,
    net: &Net,
    injection: &Injection,
    hops: u32,
    limit: u32,
    first: SymState,
    out: &mut K,
    steps: &mut Steps<L>,
) -> Result<Ended, NoMemory>
    requires net { network net.now ≡ B.net }
    requires explored { IsExplored (network net.now) (entry injection.now) hops B.start }
    requires first { IsFirstState B.start (network net.now) hops injection.now.node injection.now.raw.port first }
    requires splits { Splits B.start.tree }
    requires some { 0 < limit }
    requires stands { (K.seen out.old).StandsFor [] }
    requires takes { TakesHanded (network net.now) (entry injection.now) hops (K.seen out.old) }
    ensures same { IsSame (K.seen out.old) (K.seen out.new) }
    ensures observed { ObservedFor (network net.now) (entry injection.now) hops limit (K.seen out.old).stops
        (K.seen out.new) steps.old steps.new result }
{
    exact_records_show_each_walk();
    let engine = Explorer::<B>::new(alloc, net, injection.place(), hops, first);
    path_exec::explore_into(alloc, &engine, limit, out, steps)
}

/// Explores a net from an injection, with `hops` hops, and hands over a record of all that is found, at once: at most `limit` of paths
/// and refuted sides, in the order of their decisions, and then one for each decision that is left. The records are exact for the
/// net. The counter counts the instructions that begin, at most the work of the records.
///
/// For want of memory, and where the receiver answers it, what was handed over is exact so far.
pub fn explore_into<K: Receiver<Item = Record>, L: Ledger>(
    alloc: Global,
    net: &Net,
    injection: &Injection,
    hops: u32,
    limit: u32,
    out: &mut K,
    steps: &mut Steps<L>,
) -> Result<Ended, NoMemory>
    requires job { AreOfOneJob (network net.now) (entry injection.now) }
    requires some { 0 < limit }
    requires stands { (K.seen out.old).StandsFor [] }
    requires takes { (item : RecordOf) → (K.seen out.old).Takes item }
    ensures same { IsSame (K.seen out.old) (K.seen out.new) }
    ensures explored { ExploredFor (network net.now) (entry injection.now) hops limit (K.seen out.old).stops
        (K.seen out.new) steps.old steps.new result }
{
    record_into::<Brand, K, L>(alloc, net, injection, hops, limit, out, steps)
}

/// The same, where this is what the receiver puts the records into.
fn record_into<M: Mark, K: Receiver<Item = Record>, L: Ledger>(
    alloc: Global,
    net: &Net,
    injection: &Injection,
    hops: u32,
    limit: u32,
    out: &mut K,
    steps: &mut Steps<L>,
) -> Result<Ended, NoMemory>
    requires job { AreOfOneJob (network net.now) (entry injection.now) }
    requires some { 0 < limit }
    requires stands { (K.seen out.old).StandsFor [] }
    requires takes { (item : RecordOf) → (K.seen out.old).Takes item }
    requires target { (K.seen out.old).target ≡ M.target }
    ensures same { IsSame (K.seen out.old) (K.seen out.new) }
    ensures explored { ExploredFor (network net.now) (entry injection.now) hops limit (K.seen out.old).stops
        (K.seen out.new) steps.old steps.new result }
{
    let mut recording: Recording<'_, M, K> = Recording {
        alloc,
        out,
        of: PhantomData,
    };
    observe(alloc, net, injection, hops, limit, &mut recording, steps)
}

/// All records of an exploration, at most `limit` and those that are left then.
pub fn explore<L: Ledger>(
    alloc: Global,
    net: &Net,
    injection: &Injection,
    hops: u32,
    limit: u32,
    steps: &mut Steps<L>,
) -> Result<Vec<Record>, NoMemory>
    requires job { AreOfOneJob (network net.now) (entry injection.now) }
    requires some { 0 < limit }
    ensures { IfOk result (λ records. AreFound (network net.now) (entry injection.now) hops limit steps.old steps.new
        records.items) }
{
    let mut kept = Kept {
        items: Vec::new(alloc),
    };
    explore_into(alloc, net, injection, hops, limit, &mut kept, steps)?;
    Ok(kept.items)
}
