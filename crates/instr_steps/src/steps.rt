//! Instructions without tests, blocks and ports.

ghost use Rattle.cell_stacks.specs.Outcome.{Meets};
ghost use Rattle.sefl_syntax.specs.Views.{expr_tree};
ghost use Rattle.sefl_meaning.specs.Steps.{allocated, assigned, deallocated, evaluated, tag_created, tag_destroyed, tag_set};
ghost use Rattle.sefl_meaning.specs.View.{carried_of};
ghost use Rattle.instr_steps.specs.Scenes.{scene_of};
ghost use Rattle.instr_steps.specs.Stepping.{stepped};

use crate::values::value_of;
use cell_values::{Arithmetic, Scene};
use sefl_meaning::Carried;
use sefl_syntax::{Addr, Expr, Name, Target};
use sn_width::StepFault;
use std::alloc::Global;

/// An instruction that changes what is carried, and makes no choice, by its parts.
#[derive(Clone, Copy)]
pub enum Step<'a> {
    Allocate(&'a Target),
    Deallocate(&'a Target),
    Assign { target: &'a Target, value: &'a Expr },
    CreateTag { name: &'a Name, addr: &'a Addr },
    SetTag { name: &'a Name, addr: &'a Addr },
    DestroyTag(&'a Name),
}

/// Takes a step. A refused one changes nothing.
pub fn take<A: Arithmetic>(
    alloc: Global,
    o: &A,
    at: &Scene<'_>,
    state: &mut Carried<A::Value>,
    step: Step<'_>,
) -> Result<(), StepFault>
    ensures { Meets (stepped (A.values o.now) (scene_of at.now) step.entry (carried_of state.old)) result
        (carried_of state.old) (carried_of state.new) }
{
    match step {
        Step::Allocate(target) => allocate(alloc, at, state, target),
        Step::Deallocate(target) => deallocate(alloc, at, state, target),
        Step::Assign { target, value } => assign(alloc, o, at, state, target, value),
        Step::CreateTag { name, addr } => create_tag(alloc, at, state, name, addr),
        Step::SetTag { name, addr } => set_tag(alloc, at, state, name, addr),
        Step::DestroyTag(name) => destroy_tag(alloc, at, state, name),
    }
}

/// Puts an unset cell on top.
pub(crate) fn allocate<V: Drop>(
    alloc: Global,
    at: &Scene<'_>,
    state: &mut Carried<V>,
    target: &Target,
) -> Result<(), StepFault>
    ensures { Meets (allocated (scene_of at.now) target.now (carried_of state.old)) result (carried_of state.old)
        (carried_of state.new) }
{
    match target {
        Target::Header { addr, width } => {
            state
                .layers
                .allocate(alloc, at.base(addr), addr.offset, *width)
        }
        Target::Meta { scope, name, width } => {
            state
                .scopes
                .allocate(alloc, at.owner(*scope), at.name_id(name), *width)
        }
        Target::Bound { var, width } => {
            let (owner, name) = at.bound(var)?;
            state.scopes.allocate(alloc, owner, name, *width)
        }
    }
}

/// Removes the top cell.
fn deallocate<V: Drop>(
    alloc: Global,
    at: &Scene<'_>,
    state: &mut Carried<V>,
    target: &Target,
) -> Result<(), StepFault>
    ensures { Meets (deallocated (scene_of at.now) target.now (carried_of state.old)) result (carried_of state.old)
        (carried_of state.new) }
{
    match target {
        Target::Header { addr, width } => {
            state
                .layers
                .deallocate(alloc, at.base(addr), addr.offset, *width)
        }
        Target::Meta { scope, name, width } => {
            state
                .scopes
                .deallocate(alloc, at.owner(*scope), at.name_id(name), *width)
        }
        Target::Bound { var, width } => {
            let (owner, name) = at.bound(var)?;
            state.scopes.deallocate(alloc, owner, name, *width)
        }
    }
}

/// Puts a value into the top cell.
pub fn put<V: Drop>(
    alloc: Global,
    at: &Scene<'_>,
    state: &mut Carried<V>,
    target: &Target,
    value: V,
) -> Result<(), StepFault>
    ensures { Meets (assigned (scene_of at.now) target.now value (carried_of state.old)) result (carried_of state.old)
        (carried_of state.new) }
{
    match target {
        Target::Header { addr, width } => {
            state
                .layers
                .assign(alloc, at.base(addr), addr.offset, *width, value)
        }
        Target::Meta { scope, name, width } => {
            state
                .scopes
                .assign(alloc, at.owner(*scope), at.name_id(name), *width, value)
        }
        Target::Bound { var, width } => {
            let (owner, name) = at.bound(var)?;
            state.scopes.assign(alloc, owner, name, *width, value)
        }
    }
}

/// Puts an expression's value, at the target's width, into the top cell. The expression's faults come first.
fn assign<A: Arithmetic>(
    alloc: Global,
    o: &A,
    at: &Scene<'_>,
    state: &mut Carried<A::Value>,
    target: &Target,
    value: &Expr,
) -> Result<(), StepFault>
    ensures { Meets (evaluated (A.values o.now) (scene_of at.now) target.now (expr_tree value.now)
        (carried_of state.old)) result (carried_of state.old) (carried_of state.new) }
{
    let value = value_of(alloc, o, at, state, target.width(), value)?;
    put(alloc, at, state, target, value)
}

/// Puts an address on top of the tag's list.
fn create_tag<V: Drop>(
    alloc: Global,
    at: &Scene<'_>,
    state: &mut Carried<V>,
    name: &Name,
    addr: &Addr,
) -> Result<(), StepFault>
    ensures { Meets (tag_created (scene_of at.now) name.now addr.now (carried_of state.old)) result
        (carried_of state.old) (carried_of state.new) }
{
    state
        .layers
        .create_tag(alloc, at.tag_id(name), at.base(addr), addr.offset)
}

/// Puts an address in place of the tag's top one, or alone.
pub(crate) fn set_tag<V: Drop>(
    alloc: Global,
    at: &Scene<'_>,
    state: &mut Carried<V>,
    name: &Name,
    addr: &Addr,
) -> Result<(), StepFault>
    ensures { Meets (tag_set (scene_of at.now) name.now addr.now (carried_of state.old)) result (carried_of state.old)
        (carried_of state.new) }
{
    state
        .layers
        .set_tag(alloc, at.tag_id(name), at.base(addr), addr.offset)
}

/// Removes the tag's top address.
fn destroy_tag<V: Drop>(
    alloc: Global,
    at: &Scene<'_>,
    state: &mut Carried<V>,
    name: &Name,
) -> Result<(), StepFault>
    ensures { Meets (tag_destroyed (scene_of at.now) name.now (carried_of state.old)) result (carried_of state.old)
        (carried_of state.new) }
{
    state.layers.destroy_tag(alloc, at.tag_id(name))
}
