//! The runs of a net on symbolic states, and the decision of their conditions.

ghost use Rattle.std.specs.Prelude.{◌≡◌, ℕ, List, Some, length, reverse};
ghost use Rattle.net_check.specs.Network.{network};
ghost use Rattle.sefl_meaning.specs.declared.walk.Decision.{Decision as ADecision};
ghost use Rattle.exact_records.specs.Records.{pruned};
ghost use Rattle.exact_records.specs.Points.{filled_verdict};
ghost use Rattle.path_exec.specs.Following.{IsLed};
ghost use Rattle.path_exec.specs.Handing.{IsListed, handed};
ghost use Rattle.path_exec.specs.Location.{point_at};
ghost use Rattle.path_exec.specs.Trials.{IsPathOf};
ghost use Rattle.path_exec.specs.Views.{IsMade};
ghost use Rattle.symbolic_engine.specs.Origins.{IsFirstState};
ghost use Rattle.symbolic_engine.specs.Seeing.{finished_at, views_of};

use crate::deciding::{Judged, base_of, find};
use crate::found::{Before, Found};
use crate::moving::onward;
use crate::origin::{Origin, Run};
use crate::points::{Finished, Standing, Waiting};
use crate::stage::{Stage, same_stage};
use crate::turning::{noted, stage_behind};
use net_check::Net;
use path_exec::engine::{Engine, Moved, Tried};
use path_solver::laws::a_base_stays_one;
use refutation_check::{Refutation, Verdict};
use sefl_meaning::{Decision, Place};
use sn_width::{NoMemory, NodeId, Steps};
use std::alloc::Global;
use std::marker::{Model, PhantomData};
use std::rc::Rc;
use std::sync::ledger::Ledger;
use sym_state::SymState;

/// A net, the port that is entered first, the hops that there are, and the state that the runs begin with.
#[derive(Drop)]
pub struct Explorer<'a, B: Origin> {
    alloc: Global,
    net: &'a Net,
    node: NodeId,
    port: u32,
    hops: u32,
    first: SymState,
    of: PhantomData<B>,
}

impl<'a, B: Origin> Model for Explorer<'a, B> {
    ghost use Rattle.std.specs.Prelude.{◌≡◌};
    ghost use Rattle.std.specs.Coded.{codes};
    ghost use Rattle.net_check.specs.Network.{network};
    ghost use Rattle.path_formula.specs.contracts.formula.Formula as the_formula;
    ghost use Rattle.sym_state.specs.Symbolic.{Symbolic};
    ghost use Rattle.symbolic_engine.specs.Origins.{IsFirstState};

    ghost Value = { Symbolic };

    ghost coded = { Prim.hlevel (codes, the_formula.the_row.coded) };

    ghost view = { λ e. e.first };

    ghost invariant = { λ e. (network e.net.now ≡ B.net) × IsFirstState B.start (network e.net.now) e.hops e.node e.port e.first };
}

impl<'a, B: Origin> Explorer<'a, B> {
    /// The explorer of this exploration.
    pub fn new(
        alloc: Global,
        net: &'a Net,
        at: (NodeId, u32),
        hops: u32,
        first: SymState,
    ) -> Explorer<'a, B>
        requires net { network net.now ≡ B.net }
        requires first { IsFirstState B.start (network net.now) hops at.0 at.1 first }
        ensures { result ≡ first }
    {
        let (node, port) = at;
        Explorer {
            alloc,
            net,
            node,
            port,
            hops,
            first,
            of: PhantomData,
        }
    }
}

impl<'a, B: Origin> Engine for Explorer<'a, B> {
    type Place = Standing<'a, B>;

    type Over = Finished<B>;

    type Node = Waiting<'a, B>;

    type Finding = Verdict;

    type Found = Found;

    ghost views = { λ e. views_of B.start B.net };

    fn begin(&self, alloc: Global) -> Result<Standing<'a, B>, NoMemory> {
        let first = self.first.fork()?;
        let run = Run::<B>::new(alloc, first)?;
        let stage = Stage::Entering {
            node: self.node,
            port: self.port,
            hops: self.hops,
        };
        Ok(Standing { run, stage })
    }

    fn try_begin(&self, alloc: Global) -> Result<Tried<Standing<'a, B>, Verdict>, NoMemory> {
        let first = self.first.fork()?;
        let run = Run::<B>::new(alloc, first)?;
        match find(alloc, run.state(), None)? {
            Judged::Refuted { refutation } => Ok(Tried::Refuted { refutation }),
            Judged::Open { verdict } => {
                let stage = Stage::Entering {
                    node: self.node,
                    port: self.port,
                    hops: self.hops,
                };
                let place = Standing { run, stage };
                let finding = verdict;
                Ok(Tried::Open { place, finding })
            }
        }
    }

    fn fork(&self, place: &Standing<'a, B>) -> Result<Standing<'a, B>, NoMemory> {
        let run = place.run.fork(self.alloc)?;
        let stage = same_stage(self.alloc, &place.stage)?;
        Ok(Standing { run, stage })
    }

    fn stands_at(&self, place: &Standing<'a, B>, port: Place) -> bool {
        match place.run.state().last_place() {
            None => false,
            Some(last) => last == port,
        }
    }

    fn onward<L: Ledger>(
        &self,
        alloc: Global,
        place: Standing<'a, B>,
        steps: &mut Steps<L>,
    ) -> Result<Moved<Standing<'a, B>, Finished<B>, Waiting<'a, B>>, NoMemory> {
        onward(alloc, self.net, place, steps)
    }

    fn take(
        &self,
        alloc: Global,
        node: &Waiting<'a, B>,
        decision: Decision,
    ) -> Result<Standing<'a, B>, NoMemory> {
        node.run.is_own();
        let run = noted(alloc, node, decision)?;
        let stage = stage_behind(alloc, self.net, &node.wait, decision)?;
        Ok(Standing { run, stage })
    }

    fn try_take(
        &self,
        alloc: Global,
        node: &Waiting<'a, B>,
        decision: Decision,
        before: &Verdict,
    ) -> Result<Tried<Standing<'a, B>, Verdict>, NoMemory> {
        a_base_stays_one();
        node.run.is_own();
        let base = base_of(alloc, node.run.state().condition(), before)?;
        let run = noted(alloc, node, decision)?;
        match find(alloc, run.state(), base.as_ref())? {
            Judged::Refuted { refutation } => Ok(Tried::Refuted { refutation }),
            Judged::Open { verdict } => {
                let stage = stage_behind(alloc, self.net, &node.wait, decision)?;
                let place = Standing { run, stage };
                let finding = verdict;
                Ok(Tried::Open { place, finding })
            }
        }
    }

    fn path(&self, over: Finished<B>, finding: Rc<Verdict>) -> Found
        ensures { IsListed (reverse over.run.decisions) → (begun : ℕ)
            → IsLed B.start (reverse over.run.decisions) (point_at begun (finished_at B.start over.run over.how))
            → IsPathOf (views_of {origin = B.Origin} B.start B.net)
            (point_at begun (finished_at B.start over.run over.how)) finding.value
            (handed (reverse over.run.decisions) result) }
    {
        let Finished { run, how } = over;
        Found::Path {
            state: run.into_state(),
            end: how,
            verdict: finding,
        }
    }

    fn refuted(&self, refutation: Refutation) -> Found {
        let before = None;
        Found::Pruned { before, refutation }
    }

    fn pruned(&self, node: &Waiting<'a, B>, before: Rc<Verdict>, refutation: Refutation) -> Found
        ensures { (ds : List ADecision) → IsListed ds → IsMade (views_of {origin = B.Origin} B.start B.net)
            (pruned ds (Some (filled_verdict (length node.now.run.condition.widths) before.value)) refutation)
            (handed ds result) }
    {
        let before = Some(Before {
            verdict: before,
            symbols: node.run.state().condition().symbols(),
        });
        Found::Pruned { before, refutation }
    }

    fn unexplored(&self) -> Found {
        Found::Unexplored
    }
}
