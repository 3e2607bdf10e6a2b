//! The conditions of patterns.

ghost use Rattle.std.specs.Prelude.{◌≡◌, ◌++◌, [], ◌∷◌, map, IfOk, OnOk};
ghost use Rattle.sefl_syntax.specs.Trees as tree;
ghost use Rattle.sefl_syntax.specs.Views.{cond_tree};
ghost use Rattle.table_nodes.specs.Fields.{cell};
ghost use Rattle.click_elements.specs.Patterns.{address_field, port_field, equals, within, is_ported, tests_of, all_tests, joined, pattern_test};

use crate::class::{Direction, Primitive};
use sefl_syntax::{Cond, Expr};
use sn_width::{NoMemory, Num, Rel};
use std::alloc::Global;
use table_nodes::{Field, cell};

fn address_field(direction: Direction) -> Field
    ensures { result ≡ address_field direction }
{
    match direction {
        Direction::Source => Field::SourceAddress,
        Direction::Destination => Field::DestinationAddress,
    }
}

fn port_field(direction: Direction) -> Field
    ensures { result ≡ port_field direction }
{
    match direction {
        Direction::Source => Field::SourcePort,
        Direction::Destination => Field::DestinationPort,
    }
}

fn equals(alloc: Global, field: Field, number: Num) -> Result<Cond, NoMemory>
    ensures { IfOk result (λ test. cond_tree test ≡ equals field number) }
{
    let left = Expr::Read(cell(alloc, field)?);
    let right = Expr::Const(number);
    Ok(Cond::Compare {
        rel: Rel::Eq,
        left,
        right,
    })
}

fn within(alloc: Global, field: Field, first: Num, last: Num) -> Result<Cond, NoMemory>
    ensures { IfOk result (λ test. cond_tree test ≡ within field first last) }
{
    let value = Expr::Read(cell(alloc, field)?);
    let mut ranges = Vec::new(alloc);
    ranges.push((first, last))?;
    Cond::member(alloc, value, ranges)
}

/// Whether the protocol has ports: TCP or UDP.
pub(crate) fn is_ported(alloc: Global) -> Result<Cond, NoMemory>
    ensures { IfOk result (λ test. cond_tree test ≡ is_ported) }
{
    let value = Expr::Read(cell(alloc, Field::Protocol)?);
    let mut ranges = Vec::new(alloc);
    ranges.push((6, 6))?;
    ranges.push((17, 17))?;
    Cond::member(alloc, value, ranges)
}

/// Adds a port's two tests.
fn add_port(
    tests: &mut Vec<Cond>,
    alloc: Global,
    direction: Direction,
    port: Num,
) -> Result<(), NoMemory>
    ensures { OnOk result (map cond_tree tests.new.items
        ≡ (map cond_tree tests.old.items ++ is_ported ∷ []) ++ equals (port_field direction) port ∷ []) }
{
    add_test(tests, is_ported(alloc)?)?;
    add_test(tests, equals(alloc, port_field(direction), port)?)
}

fn add_test(tests: &mut Vec<Cond>, test: Cond) -> Result<(), NoMemory>
    ensures { OnOk result (map cond_tree tests.new.items ≡ map cond_tree tests.old.items ++ cond_tree test ∷ []) }
{
    tests.push(test)?;
    Ok(())
}

/// Adds the tests of a primitive.
fn add_primitive(tests: &mut Vec<Cond>, alloc: Global, primitive: Primitive) -> Result<(), NoMemory>
    ensures { OnOk result (map cond_tree tests.new.items ≡ map cond_tree tests.old.items ++ tests_of primitive) }
{
    match primitive {
        Primitive::All => add_test(tests, Cond::True),
        Primitive::Host { direction, address } => {
            add_test(tests, equals(alloc, address_field(direction), address)?)
        }
        Primitive::Net {
            direction,
            first,
            last,
        } => add_test(tests, within(alloc, address_field(direction), first, last)?),
        Primitive::Protocol(number) => add_test(tests, equals(alloc, Field::Protocol, number)?),
        Primitive::Port { direction, port } => add_port(tests, alloc, direction, port),
    }
}

fn all_tests(alloc: Global, pattern: &[Primitive]) -> Result<Vec<Cond>, NoMemory>
    ensures { IfOk result (λ tests. map cond_tree tests.items ≡ all_tests pattern.now) }
{
    let mut tests = Vec::new(alloc);
    for primitive in pattern {
        add_primitive(&mut tests, alloc, *primitive)?;
    }
    Ok(tests)
}

/// One test, or all of several.
fn joined(tests: Vec<Cond>) -> Cond
    ensures { cond_tree result ≡ joined (map cond_tree tests.items) }
{
    let mut tests = tests;
    if tests.len() != 1 {
        return Cond::And(tests);
    }
    let Some(only) = tests.pop() else {
        unreachable!();
    };
    only
}

/// The condition of a pattern.
pub(crate) fn pattern_test(alloc: Global, pattern: &[Primitive]) -> Result<Cond, NoMemory>
    ensures { IfOk result (λ test. cond_tree test ≡ pattern_test pattern.now) }
{
    Ok(joined(all_tests(alloc, pattern)?))
}
