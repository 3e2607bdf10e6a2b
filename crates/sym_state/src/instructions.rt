//! The instructions of a port's code on a symbolic state. Each call is one step, whether it is refused or not.

ghost use Rattle.std.specs.Prelude.{◌≡◌, ◌+◌, ℕ, List, [], length};
ghost use Rattle.cell_stacks.specs.Outcome.{Meets, on_ok};
ghost use Rattle.job_items.specs.AtomRules.{width_of};
ghost use Rattle.net_check.specs.Network.{network};
ghost use Rattle.sefl_meaning.specs.Steps.{allocated, assigned, deallocated, evaluated, tag_created, tag_destroyed, tag_set};
ghost use Rattle.sefl_meaning.specs.Values.{numbers};
ghost use Rattle.sefl_syntax.specs.Views.{expr_tree};
ghost use Rattle.sym_state.specs.Symbolic.{choices_of, numbers_in, scene_in, with_carried, with_symbol};
ghost use Rattle.term_values.specs.TermValues.{symbol_term, terms};

use crate::state::SymState;
use instr_steps::Step;
use net_check::Net;
use sefl_meaning::Iteration;
use sefl_syntax::{Addr, Expr, Name, Target};
use sn_tree::Shared;
use sn_width::{StepFault, Steps};
use std::alloc::Global;
use std::sync::ledger::Ledger;

/// Local names belong to the node of the port that was arrived at last. `bound` lists the iterations of the
/// Fors round the instruction, the innermost on top. A refusal changes nothing but the counter. At all
/// values of the symbols each call does with the carried numbers what the instruction does.
impl SymState {
    /// Puts an unset cell on top.
    pub fn allocate<L: Ledger>(
        &mut self,
        alloc: Global,
        net: &Net,
        bound: &Shared<Iteration>,
        target: &Target,
        steps: &mut Steps<L>,
    ) -> Result<(), StepFault>
        ensures step { Meets (on_ok (with_carried self.old)
            (allocated (scene_in (network net.now) bound.now self.old) target.now self.old.carried)) result self.old
            self.new }
        ensures commutes { (v : List ℕ) → Meets (allocated (scene_in (network net.now) bound.now self.old) target.now
            (numbers_in v self.old))
            result (numbers_in v self.old) (numbers_in v self.new) }
        ensures counted { steps.new ≡ steps.old + 1 }
    {
        steps.tick();
        self.change_here(alloc, net, bound, Step::Allocate(target))
    }

    /// Removes the top cell.
    pub fn deallocate<L: Ledger>(
        &mut self,
        alloc: Global,
        net: &Net,
        bound: &Shared<Iteration>,
        target: &Target,
        steps: &mut Steps<L>,
    ) -> Result<(), StepFault>
        ensures step { Meets (on_ok (with_carried self.old)
            (deallocated (scene_in (network net.now) bound.now self.old) target.now self.old.carried)) result self.old
            self.new }
        ensures commutes { (v : List ℕ) → Meets (deallocated (scene_in (network net.now) bound.now self.old) target.now
            (numbers_in v self.old))
            result (numbers_in v self.old) (numbers_in v self.new) }
        ensures counted { steps.new ≡ steps.old + 1 }
    {
        steps.tick();
        self.change_here(alloc, net, bound, Step::Deallocate(target))
    }

    /// Puts an expression's value, at the target's width, into the top cell. The expression's faults come first.
    pub fn assign<L: Ledger>(
        &mut self,
        alloc: Global,
        net: &Net,
        bound: &Shared<Iteration>,
        target: &Target,
        value: &Expr,
        steps: &mut Steps<L>,
    ) -> Result<(), StepFault>
        ensures step { Meets (on_ok (with_carried self.old)
            (evaluated (terms self.old.unknowns) (scene_in (network net.now) bound.now self.old) target.now
            (expr_tree value.now) self.old.carried)) result self.old self.new }
        ensures commutes { (v : List ℕ) → Meets (evaluated (numbers v self.old.unknowns)
            (scene_in (network net.now) bound.now self.old) target.now (expr_tree value.now) (numbers_in v self.old))
            result (numbers_in v self.old) (numbers_in v self.new) }
        ensures counted { steps.new ≡ steps.old + 1 }
    {
        steps.tick();
        self.change_here(alloc, net, bound, Step::Assign { target, value })
    }

    /// Puts a new symbol, at the target's width, into the top cell. Its number is that of the symbols before.
    pub fn assign_any<L: Ledger>(
        &mut self,
        alloc: Global,
        net: &Net,
        bound: &Shared<Iteration>,
        target: &Target,
        steps: &mut Steps<L>,
    ) -> Result<(), StepFault>
        ensures step { Meets (on_ok (with_symbol self.old (width_of target.now))
            (assigned (scene_in (network net.now) bound.now self.old) target.now
            (symbol_term (width_of target.now) (length self.old.condition.widths)) self.old.carried)) result
            self.old self.new }
        ensures commutes { (v : List ℕ) → Meets (assigned (scene_in (network net.now) bound.now self.old) target.now
            ((numbers v self.old.unknowns).choice (width_of target.now) (length (choices_of self.old)))
            (numbers_in v self.old))
            result (numbers_in v self.old) (numbers_in v self.new) }
        ensures counted { steps.new ≡ steps.old + 1 }
    {
        steps.tick();
        self.choose_here(alloc, net, bound, target)
    }

    /// Puts an address on top of the tag's list.
    pub fn create_tag<L: Ledger>(
        &mut self,
        alloc: Global,
        net: &Net,
        name: &Name,
        addr: &Addr,
        steps: &mut Steps<L>,
    ) -> Result<(), StepFault>
        ensures step { Meets (on_ok (with_carried self.old)
            (tag_created (scene_in (network net.now) [] self.old) name.now addr.now self.old.carried)) result self.old
            self.new }
        ensures commutes { (v : List ℕ) → Meets (tag_created (scene_in (network net.now) [] self.old) name.now addr.now
            (numbers_in v self.old))
            result (numbers_in v self.old) (numbers_in v self.new) }
        ensures counted { steps.new ≡ steps.old + 1 }
    {
        steps.tick();
        let iterations = Shared::empty();
        self.change_here(alloc, net, &iterations, Step::CreateTag { name, addr })
    }

    /// Puts an address in place of the tag's top one, or alone.
    pub fn set_tag<L: Ledger>(
        &mut self,
        alloc: Global,
        net: &Net,
        name: &Name,
        addr: &Addr,
        steps: &mut Steps<L>,
    ) -> Result<(), StepFault>
        ensures step { Meets (on_ok (with_carried self.old)
            (tag_set (scene_in (network net.now) [] self.old) name.now addr.now self.old.carried)) result self.old
            self.new }
        ensures commutes { (v : List ℕ) → Meets (tag_set (scene_in (network net.now) [] self.old) name.now addr.now
            (numbers_in v self.old))
            result (numbers_in v self.old) (numbers_in v self.new) }
        ensures counted { steps.new ≡ steps.old + 1 }
    {
        steps.tick();
        let iterations = Shared::empty();
        self.change_here(alloc, net, &iterations, Step::SetTag { name, addr })
    }

    /// Removes the tag's top address.
    pub fn destroy_tag<L: Ledger>(
        &mut self,
        alloc: Global,
        net: &Net,
        name: &Name,
        steps: &mut Steps<L>,
    ) -> Result<(), StepFault>
        ensures step { Meets (on_ok (with_carried self.old)
            (tag_destroyed (scene_in (network net.now) [] self.old) name.now self.old.carried)) result self.old
            self.new }
        ensures commutes { (v : List ℕ) → Meets (tag_destroyed (scene_in (network net.now) [] self.old) name.now
            (numbers_in v self.old))
            result (numbers_in v self.old) (numbers_in v self.new) }
        ensures counted { steps.new ≡ steps.old + 1 }
    {
        steps.tick();
        let iterations = Shared::empty();
        self.change_here(alloc, net, &iterations, Step::DestroyTag(name))
    }
}
