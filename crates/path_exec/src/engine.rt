//! What an exploration stands on: places of a run, and the decision of their conditions.

ghost use Rattle.std.specs.Prelude.{◌≡◌, ◌↔◌, [], ℕ, List, Some, None, IfOk, IsTrue, length};
ghost use Rattle.sefl_meaning.specs.declared.walk.Decision.{Decision as ADecision};
ghost use Rattle.exact_records.specs.Records.{pruned, unexplored};
ghost use Rattle.exact_records.specs.Points.{Point, condition_at, filled_verdict, first_point, IsKnown};
ghost use Rattle.path_exec.specs.Following.{IsLed};
ghost use Rattle.path_exec.specs.Handing.{Handed, IsListed, handed};
ghost use Rattle.path_exec.specs.Location.{EndsWith, point_at};
ghost use Rattle.path_exec.specs.Views.{Views, IsMade};
ghost use Rattle.path_exec.specs.Offers.{IsOffered, next_point};
ghost use Rattle.path_exec.specs.Moves.{Moves};
ghost use Rattle.path_exec.specs.Trials.{IsPathOf, IsTrial};

use refutation_check::Refutation;
use sefl_meaning::{Decision, Place};
use sn_width::{NoMemory, Steps};
use std::alloc::Global;
use std::rc::Rc;
use std::sync::ledger::Ledger;

/// The instruction that waits for a decision.
#[derive(Clone, Copy)]
pub enum Offer {
    /// It takes Then or Else.
    If,
    /// It takes Pass or Broken.
    Constrain,
    /// It takes Copy, by a number below that of its copies.
    Fork { copies: u32 },
}

/// Where the next decision is taken, or the run is over.
#[derive(Drop)]
pub enum Next<O: Drop, N: Drop> {
    AtEnd { over: O },
    AtNode { node: N, offer: Offer },
}

/// How far a run came.
#[derive(Drop)]
pub enum Moved<P: Drop, O: Drop, N: Drop> {
    /// It arrived at a port, and has not begun its code.
    Arrived { place: P },
    Stopped { next: Next<O, N> },
}

/// A place whose condition was decided.
#[derive(Drop)]
pub enum Tried<P: Drop, D: Drop> {
    /// It is not refuted.
    Open { place: P, finding: D },
    Refuted { refutation: Refutation },
}

/// Places of the runs of a net, and the decision of their conditions.
pub trait Engine {
    /// Where a run goes on.
    type Place: Drop;

    /// Where it is over.
    type Over: Drop;

    /// Where it waits for a decision.
    type Node: Drop;

    /// What was found of a condition that is not refuted.
    type Finding: Drop;

    /// What is found at the end of a list of decisions.
    type Found: Drop;

    /// What all these are seen as.
    ghost views: { Self → Views Self.Place Self.Over Self.Node Self.Finding (Handed Self.Found) };

    /// The place before the injection's port.
    fn begin(&self, alloc: Global) -> Result<Self::Place, NoMemory>
        ensures { IfOk result (λ place. point_at 0 ((views self.now).place_at place)
            ≡ first_point (views self.now).start) };

    /// The same, with the decision of the injection's condition.
    fn try_begin(&self, alloc: Global) -> Result<Tried<Self::Place, Self::Finding>, NoMemory>
        ensures { IfOk result (IsTrial (views self.now) 0 (first_point (views self.now).start)) };

    /// The same place.
    fn fork(&self, place: &Self::Place) -> Result<Self::Place, NoMemory>
        ensures stands { IfOk result (λ copy. (views self.now).place_at copy ≡ (views self.now).place_at place.now) }
        ensures carries { IfOk result (λ copy. (views self.now).carried_at copy
            ≡ (views self.now).carried_at place.now) };

    /// Whether the last port that it arrived at is this one.
    fn stands_at(&self, place: &Self::Place, port: Place) -> bool
        ensures { IsTrue result ↔ EndsWith ((views self.now).place_at place.now).places port };

    /// Runs on to the next port, the next decision or the end.
    fn onward<L: Ledger>(
        &self,
        alloc: Global,
        place: Self::Place,
        steps: &mut Steps<L>,
    ) -> Result<Moved<Self::Place, Self::Over, Self::Node>, NoMemory>
        ensures { IfOk result (Moves (views self.now) ((views self.now).place_at place) steps.old steps.new) };

    /// The place behind a decision.
    fn take(
        &self,
        alloc: Global,
        node: &Self::Node,
        decision: Decision,
    ) -> Result<Self::Place, NoMemory>
        requires { IsOffered ((views self.now).node_at node.now) decision }
        ensures { IfOk result (λ place. (begun : ℕ) (c : Point)
            → next_point (point_at begun ((views self.now).node_at node.now)) decision ≡ Some c
            → point_at begun ((views self.now).place_at place) ≡ c) };

    /// The same, with the decision of the condition there. Before the decision this was found, of the condition without its last
    /// formula.
    fn try_take(
        &self,
        alloc: Global,
        node: &Self::Node,
        decision: Decision,
        before: &Self::Finding,
    ) -> Result<Tried<Self::Place, Self::Finding>, NoMemory>
        requires offered { IsOffered ((views self.now).node_at node.now) decision }
        requires known { IsKnown (condition_at (views self.now).start (point_at 0 ((views self.now).node_at node.now)))
            ((views self.now).verdict_of before.now) }
        ensures { IfOk result (λ tried. (begun : ℕ) (c : Point)
            → next_point (point_at begun ((views self.now).node_at node.now)) decision ≡ Some c
            → IsTrial (views self.now) begun c tried) };

    /// A path that is over where its decisions lead, and this was found of its condition.
    fn path(&self, over: Self::Over, finding: Rc<Self::Finding>) -> Self::Found
        ensures { IsListed ((views self.now).over_at over).decisions → (begun : ℕ)
            → IsLed (views self.now).start ((views self.now).over_at over).decisions
            (point_at begun ((views self.now).over_at over))
            → IsPathOf (views self.now) (point_at begun ((views self.now).over_at over))
            ((views self.now).verdict_of finding.value)
            (handed ((views self.now).over_at over).decisions result) };

    /// A refuted injection.
    fn refuted(&self, refutation: Refutation) -> Self::Found
        ensures { IsMade (views self.now) (pruned [] None refutation) (handed [] result) };

    /// A refuted side behind a node, where this was found before its decision.
    fn pruned(
        &self,
        node: &Self::Node,
        before: Rc<Self::Finding>,
        refutation: Refutation,
    ) -> Self::Found
        ensures { (ds : List ADecision) → IsListed ds → IsMade (views self.now)
            (pruned ds (Some (filled_verdict (length ((views self.now).node_at node.now).widths)
            ((views self.now).verdict_of before.value)))
            refutation)
            (handed ds result) };

    /// A decision that is not tried.
    fn unexplored(&self) -> Self::Found
        ensures { (ds : List ADecision) → IsListed ds → IsMade (views self.now) (unexplored ds) (handed ds result) };
}
