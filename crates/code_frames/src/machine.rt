//! What code runs on.

ghost use Rattle.std.specs.Prelude.{◌≡◌, ◌+◌, ℕ, List, IfOk};
ghost use Rattle.cell_stacks.specs.Outcome.{Meets};
ghost use Rattle.metadata_scopes.specs.Snapshot.{snapshot};
ghost use Rattle.sefl_syntax.specs.Views.{cond_tree};
ghost use Rattle.sefl_meaning.specs.Carried.{Carried};
ghost use Rattle.sefl_meaning.specs.Terms.{truth_in};
ghost use Rattle.sefl_meaning.specs.Values.{Values};
ghost use Rattle.instr_steps.specs.Scenes.{GivesBy, scene_of};
ghost use Rattle.code_frames.specs.Steps.{chosen, stepped};

use instr_steps::{Scene, Step};
use sefl_syntax::{Cond, Target};
use sn_width::{NameId, NoMemory, NodeId, StepFault, Steps};
use std::alloc::Global;
use std::sync::ledger::Ledger;

/// What code runs on: it carries values, counts choices and makes tests. Each call counts one instruction
/// that begins, also where the instruction is refused.
pub trait Machine {
    /// What a cell holds.
    type Value: Drop;

    /// What a condition is evaluated to.
    type Test: Drop;

    /// What a test is seen as.
    ghost Truth: { Type 0 };

    /// The truth of a test.
    ghost truth: { Self.Test → Truth };

    /// The operations of the meaning.
    ghost values: { Self → Values Self.Value Truth };

    /// What is carried.
    ghost carried: { Self → Carried Self.Value };

    /// The widths of the choices so far.
    ghost choices: { Self → List ℕ };

    /// What no instruction changes.
    ghost Rest: { Type 0 };

    /// That of this machine.
    ghost rest: { Self → Rest };

    /// The test is one that this machine may make.
    ghost IsFit: { Self → Self.Test → Type 0 };

    /// Takes a step on what is carried. A refused one changes nothing.
    fn step<L: Ledger>(
        &mut self,
        alloc: Global,
        at: &Scene<'_>,
        step: Step<'_>,
        steps: &mut Steps<L>,
    ) -> Result<(), StepFault>
        ensures step { Meets (stepped (values self.old) (scene_of at.now) step.entry (carried self.old))
            result (carried self.old) (carried self.new) }
        ensures choices { choices self.new ≡ choices self.old }
        ensures kept { values self.new ≡ values self.old }
        ensures rest { rest self.new ≡ rest self.old }
        ensures counted { steps.new ≡ steps.old + 1 };

    /// Puts the next choice, at the target's width, into the top cell. A refused one changes nothing.
    fn choose<L: Ledger>(
        &mut self,
        alloc: Global,
        at: &Scene<'_>,
        target: &Target,
        steps: &mut Steps<L>,
    ) -> Result<(), StepFault>
        ensures choice { Meets (chosen (values self.old) (scene_of at.now) target.now
            (carried self.old, choices self.old))
            result (carried self.old, choices self.old) (carried self.new, choices self.new) }
        ensures kept { values self.new ≡ values self.old }
        ensures rest { rest self.new ≡ rest self.old }
        ensures counted { steps.new ≡ steps.old + 1 };

    /// The test of an If or of a Constrain, or its first fault.
    fn test<L: Ledger>(
        &self,
        alloc: Global,
        at: &Scene<'_>,
        test: &Cond,
        steps: &mut Steps<L>,
    ) -> Result<Self::Test, StepFault>
        ensures test { GivesBy truth (truth_in (values self.now) (scene_of at.now) (cond_tree test.now)
            (carried self.now)) result }
        ensures fit { IfOk result (IsFit self.now) }
        ensures counted { steps.new ≡ steps.old + 1 };

    /// What a For goes over in a box: those of the names that are allocated now, with their owners.
    fn iterations<L: Ledger>(
        &self,
        alloc: Global,
        node: NodeId,
        names: &[NameId],
        steps: &mut Steps<L>,
    ) -> Result<Vec<(Option<NodeId>, NameId)>, NoMemory>
        ensures keys { IfOk result (λ keys. keys.items ≡ snapshot node names.now (carried self.now).scopes) }
        ensures counted { steps.new ≡ steps.old + 1 };

    /// An instruction that touches nothing: a block, a port, a failure or a Noop.
    fn pass<L: Ledger>(&self, steps: &mut Steps<L>)
        ensures { steps.new ≡ steps.old + 1 };
}
