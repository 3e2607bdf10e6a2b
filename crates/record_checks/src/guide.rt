//! Runs that decisions guide, one decision after another.

use path_cond::PathCond;
use sefl_meaning::{Decision, End};
use sn_width::NoMemory;
use std::alloc::Global;
use sym_state::SymState;

/// The runs of one net from one injection, guided by decisions. It decides no condition.
pub trait Guide {
    ghost use Rattle.std.specs.Prelude.{◌≡◌, List, [], ◌∷◌, ◌++◌, IfOk, option_map};
    ghost use Rattle.sefl_meaning.specs.declared.walk.Decision.{Decision as DecisionOf};
    ghost use Rattle.exact_records.specs.Records.{SymStart, first_condition};
    ghost use Rattle.record_checks.specs.Stops.{LeadsOn, LeadsTo, SideOf, Stop, trees_of};

    /// Where a run waits for a decision, or is over.
    type Stop: Drop;

    /// What is explored.
    ghost start: { SymStart };

    /// What a stop is seen as.
    ghost seen: { Self.Stop → Stop };

    /// The condition of the injection alone.
    fn injected(&self) -> &PathCond
        ensures { trees_of result.now ≡ first_condition start };

    /// The first stop.
    fn first(&self, alloc: Global) -> Result<Self::Stop, NoMemory>
        ensures { IfOk result (λ stop. LeadsTo start [] (seen stop)) };

    /// The stop behind a decision; None exactly where it is not offered.
    fn behind(
        &self,
        alloc: Global,
        stop: &Self::Stop,
        decision: Decision,
    ) -> Result<Option<Self::Stop>, NoMemory>
        ensures { IfOk result (λ next. (ds : List DecisionOf) → LeadsTo start ds (seen stop.now)
            → LeadsOn start (ds ++ decision ∷ []) (option_map seen next)) };

    /// The condition behind a decision of an If or of a Constrain, before the run goes on; None exactly where no such
    /// instruction offers it.
    fn side(
        &self,
        alloc: Global,
        stop: &Self::Stop,
        decision: Decision,
    ) -> Result<Option<PathCond>, NoMemory>
        ensures { IfOk result (λ side. (ds : List DecisionOf) → LeadsTo start ds (seen stop.now)
            → SideOf start (ds ++ decision ∷ []) side) };

    /// The state there.
    fn state<'a>(&self, stop: &'a Self::Stop) -> &'a SymState
        ensures { result.now ≡ (seen stop.now).state };

    /// The end, where the run is over.
    fn end<'a>(&self, stop: &'a Self::Stop) -> Option<&'a End>
        ensures { option_map (λ how. how.now) result ≡ (seen stop.now).how };
}
