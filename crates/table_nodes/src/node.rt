//! The nodes of tables.

ghost use Rattle.std.specs.Prelude.{◌≡◌, ◌≤◌, [], ◌∷◌, length, map, All, IfOk};
ghost use Rattle.sefl_syntax.specs.Trees.{CodeTree};
ghost use Rattle.sefl_syntax.specs.Views.{code_tree, instr_tree, node_tree, port_tree};
ghost use Rattle.table_nodes.specs.TableNodes.{guarded, set_guards, row_guard, destination, last_of, in_code, out_code, out_codes, to_all, node_with, guard_instr};
ghost use Rattle.table_nodes.specs.Codes.{code_before, lists};

use crate::destination::destination;
use crate::pieces::{add_guard, last_instr, row_guard, set_test, to_all};
use sefl_syntax::{Instr, PortCode, RawNode, Side, TableKind};
use sn_width::{NoMemory, Num};
use std::alloc::Global;

/// A node whose input port has this code, and whose output ports have none.
pub fn one_input(alloc: Global, ports: u32, code: Vec<Instr>) -> Result<RawNode, NoMemory>
    ensures { IfOk result (λ node. node_tree node ≡ node_with ports (in_code (code_tree code.items) ∷ [])) }
{
    let mut codes = Vec::new(alloc);
    codes.push(PortCode {
        side: Side::Inward,
        port: 0,
        code,
    })?;
    Ok(RawNode {
        ins: 1,
        outs: ports,
        codes,
    })
}

/// A test for each set that is not empty.
fn set_guards(
    alloc: Global,
    kind: TableKind,
    ports: u32,
    sets: &[Vec<(Num, Num)>],
) -> Result<Vec<Instr>, NoMemory>
    requires { length sets.now ≡ ports }
    ensures { IfOk result (λ code. (last : CodeTree) → code_before (map instr_tree code.items) last
        ≡ guarded (set_guards (destination kind) 0 (lists sets.now)) last) }
{
    let mut code = Vec::new(alloc);
    for port in 0..ports {
        add_guard(&mut code, alloc, kind, &sets[port as usize], port)?;
    }
    Ok(code)
}

/// The node of a table in style grouped: a test for each port whose set is not empty.
pub fn grouped_node(
    alloc: Global,
    kind: TableKind,
    ports: u32,
    sets: &[Vec<(Num, Num)>],
) -> Result<RawNode, NoMemory>
    requires { length sets.now ≡ ports }
    ensures { IfOk result (λ node. node_tree node ≡ node_with ports
        (in_code (guarded (set_guards (destination kind) 0 (lists sets.now)) (last_of kind ports)) ∷ [])) }
{
    let mut code = set_guards(alloc, kind, ports, sets)?;
    code.push(last_instr(alloc, kind, ports)?)?;
    one_input(alloc, ports, code)
}

/// A test for each row.
fn row_guards(
    alloc: Global,
    kind: TableKind,
    rows: &[(u64, u32, u32)],
) -> Result<Vec<Instr>, NoMemory>
    requires length { All (λ row. row.1 ≤ 48) rows.now }
    requires prefix { kind ≡ TableKind.Fib → All (λ row. row.1 ≤ 32) rows.now }
    ensures { IfOk result (λ code. map instr_tree code.items ≡ map (λ row. guard_instr (row_guard kind row)) rows.now) }
{
    // Room for the instruction behind the tests, too.
    let mut code = Vec::with_capacity(alloc, rows.len().saturating_add(1))?;
    let cell = destination(alloc, kind)?;
    for row in rows {
        code.push(row_guard(alloc, kind, &cell, *row)?)?;
    }
    Ok(code)
}

/// The node of a table in style chain: a test for each row, in the order given.
pub fn chain_node(
    alloc: Global,
    kind: TableKind,
    ports: u32,
    rows: &[(u64, u32, u32)],
) -> Result<RawNode, NoMemory>
    requires length { All (λ row. row.1 ≤ 48) rows.now }
    requires prefix { kind ≡ TableKind.Fib → All (λ row. row.1 ≤ 32) rows.now }
    ensures { IfOk result (λ node. node_tree node ≡ node_with ports
        (in_code (guarded (map (row_guard kind) rows.now) (last_of kind ports)) ∷ [])) }
{
    let mut code = row_guards(alloc, kind, rows)?;
    code.push(last_instr(alloc, kind, ports)?)?;
    one_input(alloc, ports, code)
}

/// The code of an output port that lets a set pass.
fn output(
    alloc: Global,
    kind: TableKind,
    port: u32,
    set: &[(Num, Num)],
) -> Result<PortCode, NoMemory>
    ensures { IfOk result (λ code. port_tree code ≡ out_code (destination kind) port set.now) }
{
    let mut code = Vec::new(alloc);
    code.push(Instr::Constrain(set_test(alloc, kind, set)?))?;
    Ok(PortCode {
        side: Side::Outward,
        port,
        code,
    })
}

/// The node of a table in style egress: copies go to all ports, and each port lets its set pass.
pub fn egress_node(
    alloc: Global,
    kind: TableKind,
    ports: u32,
    sets: &[Vec<(Num, Num)>],
) -> Result<RawNode, NoMemory>
    requires { length sets.now ≡ ports }
    ensures { IfOk result (λ node. node_tree node ≡ node_with ports
        (in_code (to_all ports) ∷ out_codes (destination kind) 0 (lists sets.now))) }
{
    let mut code = Vec::new(alloc);
    code.push(to_all(alloc, ports)?)?;
    let mut node = one_input(alloc, ports, code)?;
    for port in 0..ports {
        node.codes
            .push(output(alloc, kind, port, &sets[port as usize])?)?;
    }
    Ok(node)
}
