//! Guided runs of a net from an injection.

ghost use Rattle.std.specs.Prelude.{◌≡◌, ◌<◌, ◌++◌, ◌∷◌, [], IfOk};
ghost use Rattle.path_exec.specs.Following.{LeadsTo, location_of};
ghost use Rattle.path_exec.specs.Stepping.{IsLedThere, LeadsOn};
ghost use Rattle.symbolic_engine.specs.Origins.{IsRunOf};
ghost use Rattle.symbolic_engine.specs.Seeing.{views_of};
ghost use Rattle.path_replay.specs.Stopping.{state_of};

use crate::stop::Stop;
use path_cond::PathCond;
use path_exec::engine::Next;
use path_exec::{first_next, next_behind, side_behind};
use record_checks::guide::Guide;
use sefl_meaning::{Decision, End};
use sn_width::{NoMemory, Steps};
use std::alloc::Global;
use std::marker::{Brand, Model};
use std::sync::ledger::{Blank, Ledger};
use sym_state::SymState;
use symbolic_engine::{Explorer, Finished, Origin, Run, Waiting};

/// The runs of a net from an injection, which contracts see as the condition of the injection alone.
#[derive(Drop)]
pub(crate) struct Runs<'a, B: Origin> {
    pub engine: Explorer<'a, B>,
    pub condition: PathCond,
}

impl<'a, B: Origin> Model for Runs<'a, B> {
    ghost use Rattle.std.specs.Prelude.{◌≡◌};
    ghost use Rattle.std.specs.Coded.{codes};
    ghost use Rattle.path_formula.specs.contracts.formula.Formula as the_formula;
    ghost use Rattle.path_cond.specs.Conditions.{Condition};
    ghost use Rattle.exact_records.specs.Records.{first_condition};
    ghost use Rattle.record_checks.specs.Stops.{trees_of};

    ghost Value = { Condition };

    ghost coded = { Prim.hlevel (codes, the_formula.the_row.coded) };

    ghost view = { λ runs. runs.condition };

    ghost invariant = { λ runs. trees_of runs.condition ≡ first_condition B.start };
}

/// Says that the state there is of a run of this exploration. It does nothing.
fn is_own<B: Origin>(next: &Next<Finished<B>, Waiting<'_, B>>)
    ensures { IsRunOf B.start (state_of next.now) }
{
    match next {
        Next::AtEnd { over } => over.run.is_own(),
        Next::AtNode { node, offer: _ } => node.run.is_own(),
    }
}

/// The condition where a run of this exploration stands.
fn condition_of<B: Origin>(run: &Run<B>) -> Result<PathCond, NoMemory>
    ensures own { IsRunOf B.start run.now }
    ensures condition { IfOk result (λ own. own ≡ run.now.condition) }
{
    let condition = run.state().condition().fork()?;
    Ok(condition)
}

/// The first stop, with a counter of its own.
fn begin<'a, B: Origin, L: Ledger>(
    alloc: Global,
    engine: &Explorer<'a, B>,
    blank: Blank,
) -> Result<Next<Finished<B>, Waiting<'a, B>>, NoMemory>
    requires name { blank.name ≡ L.name }
    requires parts { blank.parts ≡ L.parts }
    requires some { 0 < blank.parts }
    ensures { IfOk result (LeadsTo (views_of B.start B.net) []) }
{
    let mut steps = Steps::<L>::new(blank);
    first_next(alloc, engine, &mut steps)
}

/// The stop behind a decision, with a counter of its own.
fn go_on<'a, B: Origin, L: Ledger>(
    alloc: Global,
    engine: &Explorer<'a, B>,
    next: &Next<Finished<B>, Waiting<'a, B>>,
    decision: Decision,
    blank: Blank,
) -> Result<Option<Next<Finished<B>, Waiting<'a, B>>>, NoMemory>
    requires name { blank.name ≡ L.name }
    requires parts { blank.parts ≡ L.parts }
    requires some { 0 < blank.parts }
    requires led { IsLedThere (views_of B.start B.net) next.now }
    ensures { IfOk result (LeadsOn (views_of B.start B.net)
        ((location_of (views_of B.start B.net) next.now).decisions ++ decision ∷ [])) }
{
    let mut steps = Steps::<L>::new(blank);
    next_behind(alloc, engine, next, decision, &mut steps)
}

impl<'a, B: Origin> Guide for Runs<'a, B> {
    type Stop = Stop<'a, B>;

    ghost start = { B.start };

    ghost seen = { λ stop. stop };

    fn injected(&self) -> &PathCond {
        &self.condition
    }

    fn first(&self, alloc: Global) -> Result<Stop<'a, B>, NoMemory> {
        let next = begin::<B, Brand>(alloc, &self.engine, Blank::new(1))?;
        is_own(&next);
        let there = Stop { next };
        Ok(there)
    }

    fn behind(
        &self,
        alloc: Global,
        stop: &Stop<'a, B>,
        decision: Decision,
    ) -> Result<Option<Stop<'a, B>>, NoMemory> {
        let behind = go_on::<B, Brand>(alloc, &self.engine, &stop.next, decision, Blank::new(1))?;
        let Some(next) = behind else {
            return Ok(None);
        };
        is_own(&next);
        let there = Stop { next };
        Ok(Some(there))
    }

    fn side(
        &self,
        alloc: Global,
        stop: &Stop<'a, B>,
        decision: Decision,
    ) -> Result<Option<PathCond>, NoMemory> {
        let Some(place) = side_behind(alloc, &self.engine, &stop.next, decision)? else {
            return Ok(None);
        };
        let condition = condition_of(&place.run)?;
        Ok(Some(condition))
    }

    fn state<'b>(&self, stop: &'b Stop<'a, B>) -> &'b SymState {
        match &stop.next {
            Next::AtEnd { over } => over.run.state(),
            Next::AtNode { node, offer: _ } => node.run.state(),
        }
    }

    fn end<'b>(&self, stop: &'b Stop<'a, B>) -> Option<&'b End> {
        match &stop.next {
            Next::AtEnd { over } => Some(&over.how),
            Next::AtNode { node: _, offer: _ } => None,
        }
    }
}
