//! What is carried where a packet is injected.

ghost use Rattle.std.specs.Prelude.{◌≡◌, IfOk};
ghost use Rattle.sefl_syntax.specs.Views.{injection_tree};
ghost use Rattle.sefl_meaning.specs.Injected.{field_value, injected, with_field, with_fields, with_tags};
ghost use Rattle.sefl_meaning.specs.View.{carried_of};
ghost use Rattle.instr_steps.specs.Scenes.{GivesBy, Leads, scene_of};

use crate::steps::{allocate, put, set_tag};
use cell_values::{Arithmetic, Scene};
use header_layers::Layers;
use metadata_scopes::Scopes;
use sefl_meaning::Carried;
use sefl_syntax::{Addr, Name, RawField, RawInjection};
use sn_width::{NoMemory, Num, StepFault, Width};
use std::alloc::Global;

/// Where a packet is injected, and the operations on its values.
#[derive(Drop)]
struct Origin<'a, A: Arithmetic> {
    scene: Scene<'a>,
    values: &'a A,
}

/// The tags and then the fields of an injection, in text order, each unknown field with its value; or the first fault.
pub fn injected<A: Arithmetic>(
    alloc: Global,
    o: &A,
    at: &Scene<'_>,
    raw: &RawInjection,
) -> Result<Carried<A::Value>, StepFault>
    ensures { GivesBy carried_of (injected (A.values o.now) (scene_of at.now) (injection_tree raw.now)) result }
{
    let mut carried = Carried {
        layers: Layers::new(),
        scopes: Scopes::new(),
    };
    let origin = Origin {
        scene: *at,
        values: o,
    };
    add_tags(alloc, &origin, &mut carried, &raw.tags)?;
    add_fields(alloc, &origin, &mut carried, &raw.fields)?;
    Ok(carried)
}

fn add_tags<A: Arithmetic>(
    alloc: Global,
    at: &Origin<'_, A>,
    carried: &mut Carried<A::Value>,
    tags: &[(Name, Addr)],
) -> Result<(), StepFault>
    ensures { Leads (with_tags (A.values at.now.values.now) (scene_of at.now.scene) tags.now (carried_of carried.old))
        result (carried_of carried.new) }
{
    for (name, addr) in tags {
        set_tag(alloc, &at.scene, carried, name, addr)?;
    }
    Ok(())
}

fn add_fields<A: Arithmetic>(
    alloc: Global,
    at: &Origin<'_, A>,
    carried: &mut Carried<A::Value>,
    fields: &[RawField],
) -> Result<(), StepFault>
    ensures { Leads (with_fields (A.values at.now.values.now) (scene_of at.now.scene) 0 fields.now
        (carried_of carried.old)) result (carried_of carried.new) }
{
    let mut number: u64 = 0;
    for field in fields {
        add_field(alloc, at, carried, number, field)?;
        if field.value.is_none() {
            number += 1;
        }
    }
    Ok(())
}

/// A field is one cell, with the given value or with that of the unknown field of this number.
fn add_field<A: Arithmetic>(
    alloc: Global,
    at: &Origin<'_, A>,
    carried: &mut Carried<A::Value>,
    number: u64,
    field: &RawField,
) -> Result<(), StepFault>
    ensures { Leads (with_field (A.values at.now.values.now) (scene_of at.now.scene) number field.now
        (carried_of carried.old)) result (carried_of carried.new) }
{
    let width = field.target.width();
    let value = field_value(alloc, at.values, width, number, field.value)?;
    allocate(alloc, &at.scene, carried, &field.target)?;
    put(alloc, &at.scene, carried, &field.target, value)
}

/// The given value, or that of the unknown field of this number.
fn field_value<A: Arithmetic>(
    alloc: Global,
    o: &A,
    width: Width,
    number: u64,
    value: Option<Num>,
) -> Result<A::Value, NoMemory>
    ensures { IfOk result (λ v. v ≡ field_value (A.values o.now) width number value) }
{
    match value {
        None => o.unknown(alloc, width, number),
        Some(given) => o.constant(alloc, width, given),
    }
}
