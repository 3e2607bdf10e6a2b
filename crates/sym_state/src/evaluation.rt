//! Tests, the keys of Fors, and the steps that change nothing.

ghost use Rattle.std.specs.Prelude.{◌≡◌, ◌+◌, ℕ, List, Ok, IfOk};
ghost use Rattle.instr_steps.specs.Scenes.{GivesBy, scene_of};
ghost use Rattle.metadata_scopes.specs.Snapshot.{snapshot};
ghost use Rattle.net_check.specs.Network.{network};
ghost use Rattle.path_formula.specs.Formulas.{truth_at};
ghost use Rattle.path_formula.specs.Typed.{IsTyped};
ghost use Rattle.path_formula.specs.View.{view};
ghost use Rattle.sefl_meaning.specs.Terms.{truth_in};
ghost use Rattle.sefl_meaning.specs.Values.{numbers};
ghost use Rattle.sefl_syntax.specs.Views.{cond_tree};
ghost use Rattle.sym_state.specs.Symbolic.{node_of, numbers_in, scene_in};
ghost use Rattle.term_values.specs.TermValues.{terms};

use crate::state::SymState;
use instr_steps::{Scene, truth_of};
use lin_term::Term;
use metadata_scopes::laws::valuing_commutes as metadata_commute;
use net_check::Net;
use path_formula::Formula;
use sefl_meaning::Iteration;
use sefl_meaning::laws::{expressions_keep, steps_keep, valuing_commutes};
use sefl_syntax::Cond;
use sn_tree::Shared;
use sn_width::{NameId, NoMemory, NodeId, Num, StepFault, Steps};
use std::alloc::Global;
use std::sync::ledger::Ledger;
use term_values::laws::{
    terms_keep_types, the_tests_of_fitting_terms, values_respect_the_operations,
};
use term_values::{Formulas, Terms};

impl SymState {
    /// The formula of a condition, or its first fault. At all values of the symbols it has the truth of the condition on the
    /// carried numbers, and it may be given to `constrain`. One step.
    pub fn test<L: Ledger>(
        &self,
        alloc: Global,
        net: &Net,
        bound: &Shared<Iteration>,
        test: &Cond,
        steps: &mut Steps<L>,
    ) -> Result<Formula, StepFault>
        ensures test { GivesBy view (truth_in (terms self.now.unknowns) (scene_in (network net.now) bound.now self.now)
            (cond_tree test.now) self.now.carried) result }
        ensures truth { IfOk result (λ f. (v : List ℕ)
            → truth_in (numbers v self.now.unknowns) (scene_in (network net.now) bound.now self.now)
            (cond_tree test.now) (numbers_in v self.now) ≡ Ok (truth_at (view f) v)) }
        ensures typed { IfOk result (λ f. IsTyped self.now.condition.widths (view f)) }
        ensures counted { steps.new ≡ steps.old + 1 }
    {
        steps.tick();
        let at = self.scene(net, bound);
        self.formula(alloc, &at, test)
    }

    /// The formula of a condition where code runs, or its first fault.
    pub(crate) fn formula(
        &self,
        alloc: Global,
        at: &Scene<'_>,
        test: &Cond,
    ) -> Result<Formula, StepFault>
        ensures test { GivesBy view (truth_in (terms self.now.unknowns) (scene_of at.now) (cond_tree test.now)
            self.now.carried) result }
        ensures truth { IfOk result (λ f. (v : List ℕ)
            → truth_in (numbers v self.now.unknowns) (scene_of at.now) (cond_tree test.now) (numbers_in v self.now)
            ≡ Ok (truth_at (view f) v)) }
        ensures typed { IfOk result (λ f. IsTyped self.now.condition.widths (view f)) }
    {
        valuing_commutes::<Term, Formulas, Num, bool>();
        expressions_keep::<Term, Formulas>();
        steps_keep::<Term>();
        terms_keep_types();
        the_tests_of_fitting_terms();
        values_respect_the_operations();
        self.terms_are_typed();
        self.evaluated(alloc, at, test)
    }

    fn evaluated(&self, alloc: Global, at: &Scene<'_>, test: &Cond) -> Result<Formula, StepFault>
        ensures { GivesBy view (truth_in (terms self.now.unknowns) (scene_of at.now) (cond_tree test.now)
            self.now.carried) result }
    {
        let o = Terms {
            unknowns: self.unknowns,
        };
        truth_of(alloc, &o, at, &self.carried, test)
    }

    /// What a For goes over at the port that was arrived at last: those of the names that are allocated, globals first. It is the
    /// same at all values of the symbols. One step.
    pub fn iterations<L: Ledger>(
        &self,
        alloc: Global,
        names: &[NameId],
        steps: &mut Steps<L>,
    ) -> Result<Vec<(Option<NodeId>, NameId)>, NoMemory>
        ensures keys { IfOk result (λ keys. keys.items
            ≡ snapshot (node_of self.now.places) names.now self.now.carried.scopes) }
        ensures commutes { IfOk result (λ keys. (v : List ℕ)
            → keys.items ≡ snapshot (node_of self.now.places) names.now (numbers_in v self.now).scopes) }
        ensures counted { steps.new ≡ steps.old + 1 }
    {
        metadata_commute::<Term, Num>();
        steps.tick();
        self.present(alloc, self.node(), names)
    }

    /// The same at a node.
    pub(crate) fn present(
        &self,
        alloc: Global,
        node: NodeId,
        names: &[NameId],
    ) -> Result<Vec<(Option<NodeId>, NameId)>, NoMemory>
        ensures { IfOk result (λ keys. keys.items ≡ snapshot node names.now self.now.carried.scopes) }
    {
        self.carried.scopes.present(alloc, node, names)
    }

    /// The step of an instruction that leaves the state as it is: a port, a failure, a block, or nothing.
    pub fn pass<L: Ledger>(&self, steps: &mut Steps<L>)
        ensures { steps.new ≡ steps.old + 1 }
    {
        steps.tick();
    }
}
