//! What a state meets on its way: formulas, decisions and ports.

ghost use Rattle.std.specs.Prelude.{◌≡◌, [], ◌∷◌, OnOk, OnErr};
ghost use Rattle.path_formula.specs.Typed.{IsTyped};
ghost use Rattle.path_formula.specs.View.{view};
ghost use Rattle.sefl_meaning.specs.declared.walk.Decision.TheVariants.{Copy as CopyOf};
ghost use Rattle.sym_state.specs.Symbolic.{decided, with_decision, with_entries, with_place};

use crate::state::SymState;
use path_formula::Formula;
use sefl_meaning::{Decision, Place};
use sn_width::NoMemory;
use std::alloc::Global;

impl SymState {
    /// Adds the formula with the truth that the decision gives it, and the decision. A refusal changes nothing.
    pub fn constrain(
        &mut self,
        alloc: Global,
        formula: Formula,
        decision: Decision,
    ) -> Result<(), NoMemory>
        requires { IsTyped self.old.condition.widths (view formula) }
        ensures decided { OnOk result (self.new ≡ decided self.old formula decision) }
        ensures unchanged { OnErr result (self.new ≡ self.old) }
    {
        self.trace.constrain(alloc, formula, decision)?;
        Ok(())
    }

    /// Adds the formula with the truth that it must have. The domains are met with this formula alone.
    pub(crate) fn assume(
        &mut self,
        alloc: Global,
        formula: Formula,
        holds: bool,
    ) -> Result<(), NoMemory>
        requires { IsTyped self.old.condition.widths (view formula) }
        ensures noted { OnOk result (self.new ≡ with_entries self.old ((formula, holds) ∷ [])) }
        ensures unchanged { OnErr result (self.new ≡ self.old) }
    {
        self.trace.assume(alloc, formula, holds)?;
        Ok(())
    }

    /// Notes the copy of this number. A refusal changes nothing.
    pub fn copy(&mut self, alloc: Global, index: u32) -> Result<(), NoMemory>
        ensures decided { OnOk result (self.new ≡ with_decision self.old (CopyOf index)) }
        ensures unchanged { OnErr result (self.new ≡ self.old) }
    {
        self.trace.copy(alloc, index)?;
        Ok(())
    }

    /// Notes that the port was arrived at. A refusal changes nothing.
    pub fn arrive(&mut self, alloc: Global, place: Place) -> Result<(), NoMemory>
        ensures arrived { OnOk result (self.new ≡ with_place self.old place) }
        ensures unchanged { OnErr result (self.new ≡ self.old) }
    {
        self.trace.arrive(alloc, place)?;
        Ok(())
    }
}
