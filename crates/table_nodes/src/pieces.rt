//! The instructions that the nodes of tables are made of.

ghost use Rattle.std.specs.Prelude.{◌≡◌, ◌+◌, ◌-◌, ◌≤◌, ◌^◌, List, [], ◌∷◌, map, IfOk, OnOk};
ghost use Rattle.sefl_syntax.specs.Trees as tree;
ghost use Rattle.sefl_syntax.specs.Trees.{CodeTree};
ghost use Rattle.sefl_syntax.specs.Views.{cond_tree, instr_tree};
ghost use Rattle.table_nodes.specs.TableNodes.{Set, guard_instr, guarded, set_guards, set_test, row_guard, destination, ports_from, last_of, alone, to_all};
ghost use Rattle.table_nodes.specs.Codes.{code_before};

use crate::destination::destination;
use crate::field::copied;
use sefl_syntax::{Cond, Expr, Instr, TableKind, Target, Text};
use sn_width::{NoMemory, Num, Rel};
use std::alloc::Global;

/// An If that forwards what passes the test.
pub fn guard(alloc: Global, test: Cond, port: u32) -> Result<Instr, NoMemory>
    ensures { IfOk result (λ i. instr_tree i ≡ guard_instr (cond_tree test, port)) }
{
    let first = vec![in alloc; Instr::Forward(port)]?;
    let other = Vec::new(alloc);
    Ok(Instr::If { test, first, other })
}

/// Whether the cell lies in one of the ranges.
fn is_member(alloc: Global, cell: Target, ranges: Vec<(Num, Num)>) -> Result<Cond, NoMemory>
    ensures { IfOk result (λ test. cond_tree test ≡ tree.member (tree.reading cell) ranges.items) }
{
    Cond::member(alloc, Expr::Read(cell), ranges)
}

/// Whether the cell is the address.
fn is_address(cell: Target, address: u64) -> Cond
    ensures { cond_tree result ≡ tree.compare Rel.Eq (tree.reading cell) (tree.constant address) }
{
    Cond::Compare {
        rel: Rel::Eq,
        left: Expr::Read(cell),
        right: Expr::Const(Num::from(address)),
    }
}

/// The range of the addresses of a prefix.
fn prefix_range(alloc: Global, row: (u64, u32, u32)) -> Result<Vec<(Num, Num)>, NoMemory>
    requires length { row.1 ≤ 32 }
    ensures { IfOk result (λ ranges. ranges.items ≡ (row.0, row.0 + 2 ^ (32 - row.1) - 1) ∷ []) }
{
    let size: Num = 1 << (32 - row.1);
    let first = Num::from(row.0);
    Ok(vec![in alloc; (first, first + size - 1)]?)
}

/// The test of a row, of a copy of the destination.
pub(crate) fn row_guard(
    alloc: Global,
    kind: TableKind,
    cell: &Target,
    row: (u64, u32, u32),
) -> Result<Instr, NoMemory>
    requires cell { cell.now ≡ destination kind }
    requires length { row.1 ≤ 48 }
    requires prefix { kind ≡ TableKind.Fib → row.1 ≤ 32 }
    ensures { IfOk result (λ i. instr_tree i ≡ guard_instr (row_guard kind row)) }
{
    let cell = copied(cell)?;
    let test = match kind {
        TableKind::Mac => is_address(cell, row.0),
        TableKind::Fib => is_member(alloc, cell, prefix_range(alloc, row)?)?,
    };
    guard(alloc, test, row.2)
}

/// Adds the test of a port's set, where the set is not empty.
pub(crate) fn add_guard(
    code: &mut Vec<Instr>,
    alloc: Global,
    kind: TableKind,
    set: &[(Num, Num)],
    port: u32,
) -> Result<(), NoMemory>
    ensures { OnOk result ((sets : List Set) (last : CodeTree)
        → code_before (map instr_tree code.new.items) (guarded (set_guards (destination kind) (port + 1) sets) last)
        ≡ code_before (map instr_tree code.old.items)
        (guarded (set_guards (destination kind) port (set.now ∷ sets)) last)) }
{
    if set.is_empty() {
        return Ok(());
    }
    let ranges = Vec::from_slice(alloc, set)?;
    let test = is_member(alloc, destination(alloc, kind)?, ranges)?;
    code.push(guard(alloc, test, port)?)?;
    Ok(())
}

/// The test of an output port that lets a set pass.
pub(crate) fn set_test(alloc: Global, kind: TableKind, set: &[(Num, Num)]) -> Result<Cond, NoMemory>
    ensures { IfOk result (λ test. cond_tree test ≡ set_test (destination kind) set.now) }
{
    if set.is_empty() {
        return Ok(Cond::Not(Box::new(alloc, Cond::True)?));
    }
    let ranges = Vec::from_slice(alloc, set)?;
    is_member(alloc, destination(alloc, kind)?, ranges)
}

fn all_ports(alloc: Global, ports: u32) -> Result<Vec<u32>, NoMemory>
    ensures { IfOk result (λ all. all.items ≡ ports_from 0 ports) }
{
    let mut all = Vec::new(alloc);
    for port in 0..ports {
        all.push(port)?;
    }
    Ok(all)
}

/// A copy for each port.
pub fn to_all(alloc: Global, ports: u32) -> Result<Instr, NoMemory>
    ensures { IfOk result (λ i. alone (instr_tree i) ≡ to_all ports) }
{
    Ok(Instr::Fork(all_ports(alloc, ports)?))
}

/// What is done with an address that no row has.
pub(crate) fn last_instr(alloc: Global, kind: TableKind, ports: u32) -> Result<Instr, NoMemory>
    ensures { IfOk result (λ i. alone (instr_tree i) ≡ last_of kind ports) }
{
    match kind {
        TableKind::Mac => to_all(alloc, ports),
        TableKind::Fib => Ok(Instr::Fail(Text::of(alloc, "no route")?)),
    }
}
