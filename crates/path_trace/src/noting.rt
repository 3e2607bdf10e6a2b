//! What a path meets on its way: formulas, decisions and ports.

ghost use Rattle.std.specs.Prelude.{◌≡◌, OnOk, OnErr};
ghost use Rattle.path_formula.specs.Typed.{IsTyped};
ghost use Rattle.path_formula.specs.View.{view};
ghost use Rattle.path_trace.specs.Traces.{decided, polarity, with_decision, with_entry, with_place};
ghost use Rattle.sefl_meaning.specs.declared.walk.Decision.TheVariants.{Copy as CopyOf};

use crate::trace::Trace;
use interval_solver::laws::one_formula_more_may_be_met;
use path_formula::Formula;
use sefl_meaning::{Decision, Place};
use sn_width::NoMemory;
use std::alloc::Global;

/// A refusal changes nothing.
impl Trace {
    /// Adds the formula with the truth that the decision gives it, and the decision.
    pub fn constrain(
        &mut self,
        alloc: Global,
        formula: Formula,
        decision: Decision,
    ) -> Result<(), NoMemory>
        requires { IsTyped self.old.condition.widths (view formula) }
        ensures decided { OnOk result (self.new ≡ decided self.old formula decision) }
        ensures unchanged { OnErr result (self.new ≡ self.old) }
    {
        let decisions = self.decisions.push(alloc, decision)?;
        self.assume(alloc, formula, holds(decision))?;
        self.decisions = decisions;
        Ok(())
    }

    /// Adds the formula with the truth that it must have. The domains are met with this formula alone.
    pub fn assume(&mut self, alloc: Global, formula: Formula, holds: bool) -> Result<(), NoMemory>
        requires { IsTyped self.old.condition.widths (view formula) }
        ensures noted { OnOk result (self.new ≡ with_entry self.old (formula, holds)) }
        ensures unchanged { OnErr result (self.new ≡ self.old) }
    {
        one_formula_more_may_be_met();
        let condition = self.condition.with(alloc, formula, holds)?;
        let domains = self.domains.meet(alloc, &condition)?;
        self.condition = condition;
        self.domains = domains;
        Ok(())
    }

    /// Notes the copy of this number.
    pub fn copy(&mut self, alloc: Global, index: u32) -> Result<(), NoMemory>
        ensures decided { OnOk result (self.new ≡ with_decision self.old (CopyOf index)) }
        ensures unchanged { OnErr result (self.new ≡ self.old) }
    {
        let decisions = self.decisions.push(alloc, Decision::Copy(index))?;
        self.decisions = decisions;
        Ok(())
    }

    /// Notes that the port was arrived at.
    pub fn arrive(&mut self, alloc: Global, place: Place) -> Result<(), NoMemory>
        ensures arrived { OnOk result (self.new ≡ with_place self.old place) }
        ensures unchanged { OnErr result (self.new ≡ self.old) }
    {
        let places = self.places.push(alloc, place)?;
        self.places = places;
        Ok(())
    }
}

/// The truth that the decision gives to its formula.
pub fn holds(decision: Decision) -> bool
    ensures { result ≡ polarity decision }
{
    match decision {
        Decision::Then => true,
        Decision::Else => false,
        Decision::Pass => true,
        Decision::Broken => false,
        Decision::Copy(_) => true,
    }
}
