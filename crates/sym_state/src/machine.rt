//! A symbolic state as what code runs on.

use crate::state::SymState;
use code_frames::Machine;
use instr_steps::{Scene, Step};
use lin_term::Term;
use path_formula::Formula;
use sefl_syntax::{Cond, Target};
use sn_width::{NameId, NoMemory, NodeId, StepFault, Steps};
use std::alloc::Global;
use std::sync::ledger::Ledger;

impl Machine for SymState {
    ghost use Rattle.path_formula.specs.Formulas.{FormulaTree};
    ghost use Rattle.path_formula.specs.Typed.{IsTyped};
    ghost use Rattle.path_formula.specs.View.{view};
    ghost use Rattle.term_values.specs.TermValues.{terms};
    ghost use Rattle.sym_state.specs.Symbolic.{Rest, choices_of, rest_of};

    type Value = Term;

    type Test = Formula;

    ghost Truth = { FormulaTree };

    ghost truth = { view };

    ghost values = { λ s. terms s.unknowns };

    ghost carried = { λ s. s.carried };

    ghost choices = { choices_of };

    ghost Rest = { Rest };

    ghost rest = { rest_of };

    ghost IsFit = { λ s formula. IsTyped s.condition.widths (view formula) };

    fn step<L: Ledger>(
        &mut self,
        alloc: Global,
        at: &Scene<'_>,
        step: Step<'_>,
        steps: &mut Steps<L>,
    ) -> Result<(), StepFault> {
        steps.tick();
        self.change(alloc, at, step)
    }

    fn choose<L: Ledger>(
        &mut self,
        alloc: Global,
        at: &Scene<'_>,
        target: &Target,
        steps: &mut Steps<L>,
    ) -> Result<(), StepFault> {
        steps.tick();
        self.choose(alloc, at, target)
    }

    fn test<L: Ledger>(
        &self,
        alloc: Global,
        at: &Scene<'_>,
        test: &Cond,
        steps: &mut Steps<L>,
    ) -> Result<Formula, StepFault> {
        steps.tick();
        self.formula(alloc, at, test)
    }

    fn iterations<L: Ledger>(
        &self,
        alloc: Global,
        node: NodeId,
        names: &[NameId],
        steps: &mut Steps<L>,
    ) -> Result<Vec<(Option<NodeId>, NameId)>, NoMemory> {
        steps.tick();
        self.present(alloc, node, names)
    }

    fn pass<L: Ledger>(&self, steps: &mut Steps<L>) {
        steps.tick();
    }
}
