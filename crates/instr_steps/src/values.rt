//! Values of expressions.

ghost use Rattle.std.specs.Prelude.{◌≡◌};
ghost use Rattle.sefl_syntax.specs.Views.{expr_tree, summand_trees};
ghost use Rattle.cell_stacks.specs.Outcome.{Gives, lent};
ghost use Rattle.sefl_meaning.specs.Carried.{read_at};
ghost use Rattle.sefl_meaning.specs.Terms.{sum_in, value_in};
ghost use Rattle.sefl_meaning.specs.View.{carried_of};
ghost use Rattle.instr_steps.specs.Scenes.{scene_of};

use cell_values::{Arithmetic, Scene, joined};
use sefl_meaning::Carried;
use sefl_syntax::{Expr, Sign, Target};
use sn_width::{LayoutFault, StepFault, Width};
use std::alloc::Global;

/// What a reference reads at a width.
fn read<'a, V: Drop>(
    at: &Scene<'_>,
    state: &'a Carried<V>,
    width: Width,
    target: &Target,
) -> Result<&'a V, LayoutFault>
    ensures { lent result ≡ read_at (scene_of at.now) width target.now (carried_of state.now) }
{
    match target {
        Target::Header { addr, .. } => state.layers.read(at.base(addr), addr.offset, width),
        Target::Meta { scope, name, .. } => {
            state.scopes.read(at.owner(*scope), at.name_id(name), width)
        }
        Target::Bound { var, .. } => {
            let (owner, name) = at.bound(var)?;
            state.scopes.read(owner, name, width)
        }
    }
}

/// The value of an expression at a width, or its first fault, from left to right.
#[cycle(value_of)]
pub fn value_of<A: Arithmetic>(
    alloc: Global,
    o: &A,
    at: &Scene<'_>,
    state: &Carried<A::Value>,
    width: Width,
    expr: &Expr,
) -> Result<A::Value, StepFault>
    ensures { Gives (value_in (A.values o.now) (scene_of at.now) width (expr_tree expr.now) (carried_of state.now))
        result }
{
    match expr {
        Expr::Const(number) => {
            let value = o.constant(alloc, width, *number)?;
            Ok(value)
        }
        Expr::Read(target) => {
            let value = read(at, state, width, target)?;
            let copy = o.copied(alloc, value)?;
            Ok(copy)
        }
        Expr::Sum { first, rest } => {
            let first = value_of(alloc, o, at, state, width, first)?;
            sum_of(alloc, o, at, state, width, first, rest)
        }
    }
}

/// The sum of a value and the further members of a chain.
#[cycle(value_of)]
fn sum_of<A: Arithmetic>(
    alloc: Global,
    o: &A,
    at: &Scene<'_>,
    state: &Carried<A::Value>,
    width: Width,
    first: A::Value,
    rest: &[(Sign, Expr)],
) -> Result<A::Value, StepFault>
    ensures { Gives (sum_in (A.values o.now) (scene_of at.now) width first (summand_trees rest.now)
        (carried_of state.now)) result }
{
    let mut sum = first;
    for (sign, operand) in rest {
        let value = value_of(alloc, o, at, state, width, operand)?;
        sum = joined(alloc, o, width, *sign, &sum, &value)?;
    }
    Ok(sum)
}
