//! The exploration of a net that is to be compared: its records, and the states of the delivered paths.

ghost use Rattle.std.specs.Prelude.{◌≡◌, ◌<◌, IfOk};
ghost use Rattle.net_check.specs.Network.{entry, network};
ghost use Rattle.net_check.specs.Sound.{AreOfOneJob};
ghost use Rattle.exact_records.specs.Packets.{AreExactFor};
ghost use Rattle.exact_records.specs.View.{record_trees};
ghost use Rattle.path_questions.specs.Formulas.{explored};
ghost use Rattle.net_compare.specs.Delivering.{AreStatesOf, state_if, state_in, with_last};

use net_check::{Injection, Net};
use path_exec::{Observer, Took};
use path_records::Record;
use sefl_meaning::{Decision, End};
use sn_width::{NoMemory, Steps};
use std::alloc::Global;
use std::marker::{Brand, PhantomData};
use std::sync::ledger::Ledger;
use sym_state::SymState;
use symbolic_engine::{Found, observe};

/// The records of an exploration, in the order of their decisions, and the state of each delivered path among them.
#[derive(Drop)]
pub struct Explored {
    pub records: Vec<Record>,
    pub states: Vec<SymState>,
}

/// What is explored.
pub trait Mark {
    ghost use Rattle.exact_records.specs.Records.{SymStart};

    ghost start: { SymStart };
}

impl Mark for Brand {
    ghost use Rattle.path_questions.specs.Formulas.{no_start};

    ghost start = { no_start };
}

/// Makes a record of all that is found, and keeps the states of delivered paths.
#[derive(Drop)]
struct Gathering<M: Mark> {
    alloc: Global,
    gathered: Explored,
    /// Whether memory ended before a record was made with its state.
    failed: bool,
    of: PhantomData<M>,
}

/// The state of what was found, where it is a delivered path.
fn state_of(found: &Found) -> Result<Option<SymState>, NoMemory>
    ensures { IfOk result (λ state. state ≡ state_in found.now) }
{
    match found {
        Found::Path {
            state,
            end,
            verdict: _,
        } => state_if(state, end),
        Found::Pruned { .. } => Ok(None),
        Found::Unexplored => Ok(None),
    }
}

/// The state of a path that ended so, where it is delivered.
fn state_if(state: &SymState, end: &End) -> Result<Option<SymState>, NoMemory>
    ensures { IfOk result (λ found. found ≡ state_if end.now state.now) }
{
    match end {
        End::Delivered => {
            let state = state.fork()?;
            Ok(Some(state))
        }
        End::Stopped => Ok(None),
        End::Failed { .. } => Ok(None),
        End::Cut => Ok(None),
    }
}

/// Adds a state, if there is one.
fn put(states: &mut Vec<SymState>, state: Option<SymState>) -> Result<(), NoMemory>
    ensures { IfOk result (λ done. states.new.items ≡ with_last states.old.items state) }
{
    match state {
        None => Ok(()),
        Some(state) => {
            states.push(state)?;
            Ok(())
        }
    }
}

impl Explored {
    ghost use Rattle.net_compare.specs.Delivering.{IsOneMore};

    /// Adds what was found behind these decisions. After an `Err` the record may be missing of which there is a state.
    fn add(&mut self, alloc: Global, found: Found, decisions: &[Decision]) -> Result<(), NoMemory>
        ensures { IfOk result (λ done. IsOneMore found decisions.now self.old self.new) }
    {
        let state = state_of(&found)?;
        let made = found.into_record(alloc, decisions)?;
        self.records.push(made)?;
        put(&mut self.states, state)
    }
}

impl<M: Mark> Observer for Gathering<M> {
    ghost use Rattle.std.specs.Prelude.{map};
    ghost use Rattle.symbolic_engine.specs.Finds.{handed_tree};
    ghost use Rattle.symbolic_engine.specs.Leading.{IsHanded};
    ghost use Rattle.net_compare.specs.Delivering.{AreGathered};

    type Found = Found;

    ghost seen = { λ gathering. record {
      StandsFor = λ items. AreGathered M.start gathering.gathered gathering.failed (map handed_tree items);
      StoppedIn = λ items. Unit {0};
      stops = 0;
      target = 0;
      Takes = λ item. IsHanded M.start item;
    } };

    fn see(&mut self, found: Found, decisions: &[Decision]) -> Took {
        if self.failed {
            drop(found);
            return Took::NoMemory;
        }
        match self.gathered.add(self.alloc, found, decisions) {
            Ok(()) => Took::More,
            Err(_) => {
                self.failed = true;
                Took::NoMemory
            }
        }
    }
}

/// Explores a net from an injection, with `hops` hops and at most `limit` of paths and refuted sides. The records are exact for the net.
pub fn explore<L: Ledger>(
    alloc: Global,
    net: &Net,
    injection: &Injection,
    hops: u32,
    limit: u32,
    steps: &mut Steps<L>,
) -> Result<Explored, NoMemory>
    requires job { AreOfOneJob (network net.now) (entry injection.now) }
    requires some { 0 < limit }
    ensures exact { IfOk result (λ e. AreExactFor (network net.now) (entry injection.now) hops limit
        (record_trees e.records.items)) }
    ensures states { IfOk result (λ e. AreStatesOf (explored (network net.now) (entry injection.now) hops)
        (record_trees e.records.items) e.states.items) }
{
    gather::<Brand, L>(alloc, net, injection, hops, limit, steps)
}

/// The same, where this is what is explored.
fn gather<M: Mark, L: Ledger>(
    alloc: Global,
    net: &Net,
    injection: &Injection,
    hops: u32,
    limit: u32,
    steps: &mut Steps<L>,
) -> Result<Explored, NoMemory>
    requires job { AreOfOneJob (network net.now) (entry injection.now) }
    requires some { 0 < limit }
    requires start { M.start ≡ explored (network net.now) (entry injection.now) hops }
    ensures exact { IfOk result (λ e. AreExactFor (network net.now) (entry injection.now) hops limit
        (record_trees e.records.items)) }
    ensures states { IfOk result (λ e. AreStatesOf (explored (network net.now) (entry injection.now) hops)
        (record_trees e.records.items) e.states.items) }
{
    let mut gathering: Gathering<M> = Gathering {
        alloc,
        gathered: Explored {
            records: Vec::new(alloc),
            states: Vec::new(alloc),
        },
        failed: false,
        of: PhantomData,
    };
    let _ended = observe(alloc, net, injection, hops, limit, &mut gathering, steps)?;
    let Gathering {
        gathered,
        failed,
        ..
    } = gathering;
    // It does not come: where memory ended, `observe` has answered so.
    if failed {
        return Err(NoMemory);
    }
    Ok(gathered)
}
