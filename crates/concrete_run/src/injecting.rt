//! What a packet carries where it is injected.

ghost use Rattle.std.specs.Prelude.{◌≡◌, ◌≤◌, length, IfOk, Ok, map};
ghost use Rattle.net_check.specs.Network.{entry, network};
ghost use Rattle.net_check.specs.Sound.{AreOfOneJob};
ghost use Rattle.sefl_syntax.specs.Views.{cond_tree, injection_tree};
ghost use Rattle.sefl_meaning.specs.Injected.{IsTrueIn, injected, unknown_widths};
ghost use Rattle.sefl_meaning.specs.View.{carried_of};
ghost use Rattle.instr_steps.specs.Scenes.{scene_of};
ghost use Rattle.concrete_run.specs.Starting.{Goes, OtherAnswer, StartAnswer, TooWideAnswer, operations_of};

use instr_steps::{Numbers, Scene, injected, truth_of};
use net_check::{Injection, Net};
use sefl_meaning::State;
use sefl_meaning::laws::accepted_injections_go;
use sefl_syntax::{Cond, RawField, RawInjection};
use sn_tree::Shared;
use sn_width::{NoMemory, Num, StepFault};
use std::alloc::Global;

/// Why a packet does not start.
#[derive(Clone, Copy, PartialEq, Eq)]
pub enum StartFault {
    /// There are fewer numbers than the unknown fields that there are.
    Short { needed: u64 },
    /// The number of this unknown field, from 0, exceeds the field's width; it is the first that does.
    ValueTooWide { field: u64 },
    /// The test of this index, from 0, is not true; it is the first that is not.
    WhereFalse { index: u64 },
    NoMemory,
}

impl From<NoMemory> for StartFault {
    ghost use Rattle.std.specs.Prelude.{◌≡◌};
    ghost use Rattle.concrete_run.specs.declared.injecting.StartFault.TheVariants.{NoMemory as OutOfMemory};

    ghost from_gives = { λ _ fault. fault ≡ OutOfMemory };

    fn from(_error: NoMemory) -> StartFault {
        StartFault::NoMemory
    }
}

/// What the packet with these numbers carries where it is injected: its tags and then its fields, in text order. The net and
/// the injection are those of one job. Of several causes that it does not start the first in the order of `StartFault` is told.
pub fn start(
    alloc: Global,
    net: &Net,
    injection: &Injection,
    values: &[Num],
) -> Result<State, StartFault>
    requires { AreOfOneJob (network net.now) (entry injection.now) }
    ensures { StartAnswer (network net.now) (entry injection.now) values.now result }
{
    injection.keeps_the_rules();
    accepted_injections_go::<Num, bool>();
    let raw = injection.raw();
    let unknowns = injection.unknowns();
    if values.len() < unknowns {
        return Err(StartFault::Short {
            needed: unknowns as u64,
        });
    }
    if let Some(field) = first_too_wide(&raw.fields, values) {
        return Err(StartFault::ValueTooWide { field });
    }
    let (node, _) = injection.place();
    let iterations = Shared::empty();
    let at = Origin {
        scene: Scene {
            net,
            node,
            iterations: &iterations,
        },
        values: Numbers {
            numbers: values,
            unknowns,
        },
    };
    let state = carried(alloc, &at, raw)?;
    match first_false(alloc, &at, &state, &raw.tests)? {
        Some(index) => Err(StartFault::WhereFalse { index }),
        None => Ok(state),
    }
}

/// Where a packet is injected, and its numbers.
#[derive(Clone, Copy)]
struct Origin<'a> {
    scene: Scene<'a>,
    values: Numbers<'a>,
}

/// The first unknown field, by its number from 0, whose number exceeds its width.
fn first_too_wide(fields: &[RawField], values: &[Num]) -> Option<u64>
    requires { length (unknown_widths fields.now) ≤ length values.now }
    ensures { TooWideAnswer (unknown_widths fields.now) values.now result }
{
    let mut number: usize = 0;
    for field in fields {
        if field.value.is_none() {
            if values[number] > field.target.width().max() {
                return Some(number as u64);
            }
            number += 1;
        }
    }
    None
}

/// The first test, by its index from 0, that is not true.
fn first_false(
    alloc: Global,
    at: &Origin<'_>,
    state: &State,
    tests: &[Cond],
) -> Result<Option<u64>, NoMemory>
    ensures { IfOk result (OtherAnswer (IsTrueIn (scene_of at.now.scene) (operations_of at.now) (carried_of state.now))
        (map cond_tree tests.now)) }
{
    for (index, test) in tests.iter().enumerate() {
        match truth_of(alloc, &at.values, &at.scene, state, test) {
            Ok(true) => {}
            Ok(false) => return Ok(Some(index as u64)),
            Err(StepFault::Layout(_)) => return Ok(Some(index as u64)),
            Err(StepFault::NoMemory) => return Err(NoMemory),
        }
    }
    Ok(None)
}

/// The tags and then the fields, which have no fault.
fn carried(alloc: Global, at: &Origin<'_>, raw: &RawInjection) -> Result<State, NoMemory>
    requires { Goes (injected (operations_of at.now) (scene_of at.now.scene) (injection_tree raw.now)) }
    ensures { IfOk result (λ s. injected (operations_of at.now) (scene_of at.now.scene) (injection_tree raw.now)
        ≡ Ok (carried_of s)) }
{
    match injected(alloc, &at.values, &at.scene, raw) {
        Ok(state) => Ok(state),
        Err(StepFault::NoMemory) => Err(NoMemory),
        // The tags and the fields of an accepted injection have no fault.
        Err(StepFault::Layout(_)) => unreachable!(),
    }
}
