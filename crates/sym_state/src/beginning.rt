//! The state that an injection begins with.

ghost use Rattle.std.specs.Prelude.{◌≡◌, ℕ, [], length, map, Ok, IfOk};
ghost use Rattle.instr_steps.specs.Scenes.{scene_of};
ghost use Rattle.net_check.specs.Network.{entry, network, unknown_count, unknown_widths};
ghost use Rattle.net_check.specs.Sound.{AreOfOneJob};
ghost use Rattle.sefl_meaning.specs.Start.{start_of};
ghost use Rattle.sefl_syntax.specs.Views.{cond_tree, injection_tree};
ghost use Rattle.sym_state.specs.Beginning.{AsksAs, Begins, BegunAs, CarriesAs, start_in};
ghost use Rattle.term_values.specs.TermValues.{terms};

use crate::state::SymState;
use instr_steps::{Scene, injected};
use lin_term::Term;
use net_check::{Injection, Net};
use path_cond::PathCond;
use path_trace::Trace;
use sefl_meaning::laws::symbols_are_typed;
use sefl_meaning::starts::injections_have_a_start;
use sefl_syntax::{Cond, RawField, RawInjection};
use sn_tree::Shared;
use sn_width::{NoMemory, Num, StepFault, Width};
use std::alloc::Global;
use term_values::laws::terms_keep_types;
use term_values::{Formulas, Terms};

/// Where a packet is injected, the operations on its terms, and the bound on the choices of cases that are tried.
#[derive(Clone, Copy)]
struct Origin<'a> {
    scene: Scene<'a>,
    terms: Terms,
    most_choices: u64,
}

impl SymState {
    /// The state that an injection begins with: its tags and fields, in text order, each unknown field as a symbol, and its
    /// tests, which must be true. The net and the injection are those of one job.
    pub fn from_injection(
        alloc: Global,
        net: &Net,
        injection: &Injection,
    ) -> Result<SymState, NoMemory>
        requires { AreOfOneJob (network net.now) (entry injection.now) }
        ensures begins { IfOk result (Begins (network net.now) (entry injection.now)) }
        ensures start { IfOk result (λ s. (hops : ℕ)
            → start_of (terms (unknown_count (entry injection.now))) (network net.now) (entry injection.now) hops
            ≡ Ok (start_in (network net.now) (entry injection.now) hops s)) }
    {
        injection.keeps_the_rules();
        injections_have_a_start::<Term, Formulas, Num, bool>();
        let (node, _) = injection.place();
        let iterations = Shared::empty();
        let at = Origin {
            scene: Scene {
                net,
                node,
                iterations: &iterations,
            },
            terms: Terms {
                unknowns: injection.unknowns() as u64,
            },
            most_choices: injection.most_choices(),
        };
        match begun(alloc, &at, injection.raw()) {
            Ok(state) => Ok(state),
            Err(StepFault::NoMemory) => Err(NoMemory),
            // An accepted injection has no fault.
            Err(StepFault::Layout(_)) => unreachable!(),
        }
    }

    /// Adds the formulas of the tests, which must be true.
    fn ask(&mut self, alloc: Global, at: &Scene<'_>, tests: &[Cond]) -> Result<(), StepFault>
        ensures { AsksAs self.old.unknowns (scene_of at.now) (map cond_tree tests.now) result self.old self.new }
    {
        for test in tests {
            let formula = self.formula(alloc, at, test)?;
            self.assume(alloc, formula, true)?;
        }
        Ok(())
    }
}

/// The state that the injection begins with, or its first fault.
fn begun(alloc: Global, at: &Origin<'_>, raw: &RawInjection) -> Result<SymState, StepFault>
    requires { at.now.terms.unknowns ≡ length (unknown_widths raw.now.fields.items) }
    ensures { BegunAs at.now.terms.unknowns at.now.most_choices (scene_of at.now.scene) (injection_tree raw.now) result }
{
    let mut state = carrying(alloc, at, raw)?;
    state.ask(alloc, &at.scene, &raw.tests)?;
    Ok(state)
}

/// The state with the tags and the fields, and without the tests.
fn carrying(alloc: Global, at: &Origin<'_>, raw: &RawInjection) -> Result<SymState, StepFault>
    requires { at.now.terms.unknowns ≡ length (unknown_widths raw.now.fields.items) }
    ensures { CarriesAs at.now.terms.unknowns at.now.most_choices (scene_of at.now.scene) (injection_tree raw.now) result }
{
    symbols_are_typed::<Term, Formulas>();
    terms_keep_types();
    let trace = unmet(alloc, &raw.fields, at.most_choices)?;
    let carried = injected(alloc, &at.terms, &at.scene, raw)?;
    Ok(SymState {
        carried,
        trace,
        unknowns: at.terms.unknowns,
    })
}

/// The unknown fields as symbols, before anything is met.
fn unmet(alloc: Global, fields: &[RawField], most_choices: u64) -> Result<Trace, NoMemory>
    ensures { IfOk result (λ t. t ≡ record {
      condition = record { widths = unknown_widths fields.now; entries = []; most_choices = most_choices };
      decisions = [];
      places = [];
    }) }
{
    let widths = widths_of(alloc, fields)?;
    let condition = PathCond::new(alloc, widths, most_choices)?;
    let trace = Trace::of(alloc, condition)?;
    Ok(trace)
}

/// The widths of the unknown fields.
fn widths_of(alloc: Global, fields: &[RawField]) -> Result<Vec<Width>, NoMemory>
    ensures { IfOk result (λ widths. widths.items ≡ unknown_widths fields.now) }
{
    let mut widths = Vec::new(alloc);
    for field in fields {
        if field.value.is_none() {
            widths.push(field.target.width())?;
        }
    }
    Ok(widths)
}
