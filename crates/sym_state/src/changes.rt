//! Steps on what is carried, and choices.

ghost use Rattle.std.specs.Prelude.{◌≡◌, ◌≤◌, ℕ, List, length};
ghost use Rattle.cell_stacks.specs.Outcome.{Meets, on_ok};
ghost use Rattle.code_frames.specs.Steps.{chosen};
ghost use Rattle.instr_steps.specs.Scenes.{scene_of};
ghost use Rattle.instr_steps.specs.Stepping.{stepped};
ghost use Rattle.job_items.specs.AtomRules.{width_of};
ghost use Rattle.net_check.specs.Network.{network};
ghost use Rattle.sefl_meaning.specs.Steps.{assigned};
ghost use Rattle.sefl_meaning.specs.Valued.{CarriedFits};
ghost use Rattle.sefl_meaning.specs.Values.{numbers};
ghost use Rattle.sym_state.specs.Symbolic.{choices_of, held_of, numbers_in, rest_of, scene_in, with_carried, with_symbol};
ghost use Rattle.term_values.specs.Fits.{typed_fits};
ghost use Rattle.term_values.specs.TermValues.{symbol_term, terms};

use crate::state::SymState;
use instr_steps::{Scene, Step, put, take};
use lin_term::Term;
use net_check::Net;
use sefl_meaning::Iteration;
use sefl_meaning::laws::{expressions_keep, steps_commute, steps_keep, valuing_commutes};
use sefl_syntax::Target;
use sn_tree::Shared;
use sn_width::{Num, StepFault};
use std::alloc::Global;
use term_values::laws::{
    terms_keep_types, the_tests_of_fitting_terms, values_respect_the_operations,
};
use term_values::{Formulas, Terms};

impl SymState {
    /// Takes the step on the terms that are carried. At all values of the symbols that is what it does with numbers.
    pub(crate) fn change(
        &mut self,
        alloc: Global,
        at: &Scene<'_>,
        step: Step<'_>,
    ) -> Result<(), StepFault>
        ensures step { Meets (on_ok (with_carried self.old)
            (stepped (terms self.old.unknowns) (scene_of at.now) step.entry self.old.carried)) result self.old
            self.new }
        ensures commutes { (v : List ℕ) → Meets (stepped (numbers v self.old.unknowns) (scene_of at.now) step.entry
            (numbers_in v self.old))
            result (numbers_in v self.old) (numbers_in v self.new) }
        ensures carried { Meets (stepped (terms self.old.unknowns) (scene_of at.now) step.entry self.old.carried) result
            self.old.carried self.new.carried }
        ensures unknowns { self.new.unknowns ≡ self.old.unknowns }
        ensures choices { choices_of self.new ≡ choices_of self.old }
        ensures rest { rest_of self.new ≡ rest_of self.old }
    {
        valuing_commutes::<Term, Formulas, Num, bool>();
        steps_commute::<Term, Num>();
        expressions_keep::<Term, Formulas>();
        steps_keep::<Term>();
        terms_keep_types();
        the_tests_of_fitting_terms();
        values_respect_the_operations();
        let o = Terms {
            unknowns: self.unknowns,
        };
        take(alloc, &o, at, &mut self.carried, step)
    }

    /// Takes the step at the port that was arrived at last.
    pub(crate) fn change_here(
        &mut self,
        alloc: Global,
        net: &Net,
        bound: &Shared<Iteration>,
        step: Step<'_>,
    ) -> Result<(), StepFault>
        ensures step { Meets (on_ok (with_carried self.old)
            (stepped (terms self.old.unknowns) (scene_in (network net.now) bound.now self.old) step.entry
            self.old.carried)) result self.old self.new }
        ensures commutes { (v : List ℕ) → Meets (stepped (numbers v self.old.unknowns)
            (scene_in (network net.now) bound.now self.old) step.entry (numbers_in v self.old))
            result (numbers_in v self.old) (numbers_in v self.new) }
    {
        let at = self.scene(net, bound);
        self.change(alloc, &at, step)
    }

    /// Puts the next symbol, at the target's width, into the top cell. At all values of the symbols that is the next choice.
    pub(crate) fn choose(
        &mut self,
        alloc: Global,
        at: &Scene<'_>,
        target: &Target,
    ) -> Result<(), StepFault>
        ensures step { Meets (on_ok (with_symbol self.old (width_of target.now))
            (assigned (scene_of at.now) target.now
            (symbol_term (width_of target.now) (length self.old.condition.widths)) self.old.carried)) result
            self.old self.new }
        ensures commutes { (v : List ℕ) → Meets (assigned (scene_of at.now) target.now
            ((numbers v self.old.unknowns).choice (width_of target.now) (length (choices_of self.old)))
            (numbers_in v self.old))
            result (numbers_in v self.old) (numbers_in v self.new) }
        ensures choice { Meets (chosen (terms self.old.unknowns) (scene_of at.now) target.now (held_of self.old)) result
            (held_of self.old) (held_of self.new) }
        ensures unknowns { self.new.unknowns ≡ self.old.unknowns }
        ensures rest { rest_of self.new ≡ rest_of self.old }
    {
        steps_commute::<Term, Num>();
        steps_keep::<Term>();
        the_tests_of_fitting_terms();
        values_respect_the_operations();
        self.choose_symbol(alloc, at, target)
    }

    fn choose_symbol(
        &mut self,
        alloc: Global,
        at: &Scene<'_>,
        target: &Target,
    ) -> Result<(), StepFault>
        ensures step { Meets (on_ok (with_symbol self.old (width_of target.now))
            (assigned (scene_of at.now) target.now
            (symbol_term (width_of target.now) (length self.old.condition.widths)) self.old.carried)) result
            self.old self.new }
        ensures typed { CarriedFits (typed_fits self.old.condition.widths) self.old.carried }
        ensures known { self.old.unknowns ≤ length self.old.condition.widths }
    {
        steps_keep::<Term>();
        terms_keep_types();
        let width = target.width();
        let term = self.trace.next_symbol(alloc, width)?;
        let trace = self.trace.with_symbol(alloc, width)?;
        put(alloc, at, &mut self.carried, target, term)?;
        self.trace = trace;
        Ok(())
    }

    /// Puts the next symbol into the top cell at the port that was arrived at last.
    pub(crate) fn choose_here(
        &mut self,
        alloc: Global,
        net: &Net,
        bound: &Shared<Iteration>,
        target: &Target,
    ) -> Result<(), StepFault>
        ensures step { Meets (on_ok (with_symbol self.old (width_of target.now))
            (assigned (scene_in (network net.now) bound.now self.old) target.now
            (symbol_term (width_of target.now) (length self.old.condition.widths)) self.old.carried)) result
            self.old self.new }
        ensures commutes { (v : List ℕ) → Meets (assigned (scene_in (network net.now) bound.now self.old) target.now
            ((numbers v self.old.unknowns).choice (width_of target.now) (length (choices_of self.old)))
            (numbers_in v self.old))
            result (numbers_in v self.old) (numbers_in v self.new) }
    {
        let at = self.scene(net, bound);
        self.choose(alloc, &at, target)
    }
}
