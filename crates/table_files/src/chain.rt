//! The text of a table's node in style chain, row by row.

ghost use Rattle.std.specs.Prelude.{◌≡◌, ◌++◌, ◌≤◌, All, IfOk, OnOk, codes, string_bytes};
ghost use Rattle.std.specs.List.{flat_map};
ghost use Rattle.sefl_syntax.specs.CodeText.{code_text, fork_text};
ghost use Rattle.sefl_syntax.specs.NetText.{node_text};
ghost use Rattle.sefl_syntax.specs.TermText.{cond_text, range_text};
ghost use Rattle.sefl_syntax.specs.declared.net.TableKind.TheVariants.{Fib};
ghost use Rattle.table_nodes.specs.TableNodes.{destination, fib_destination, last_of, ports_from, row_guard};
ghost use Rattle.table_files.specs.ChainTexts.{chain_of, forward_text, heading, last_text, next_port, row_end, row_text};

use sefl_syntax::{Name, Side, TableKind, Target};
use sn_width::{NoMemory, Num};
use std::alloc::{AllocError, Global};
use std::fmt::Write;

/// Appends a range; one of one number is that number.
#[tactic(auto, unfolding(sefl_syntax::specs::TermText::range_text))]
fn write_range(out: &mut String, first: Num, last: Num) -> Result<(), AllocError>
    ensures { OnOk result (string_bytes out.new ≡ string_bytes out.old ++ range_text (first, last)) }
{
    if first == last {
        return write!(out, "{first}");
    }
    write!(out, "{first}..{last}")
}

/// Appends the test for the addresses of a prefix.
fn write_prefix(out: &mut String, cell: &Target, row: (u64, u32, u32)) -> Result<(), AllocError>
    requires cell { cell.now ≡ fib_destination }
    requires length { row.1 ≤ 32 }
    ensures { OnOk result (string_bytes out.new ≡ string_bytes out.old
        ++ cond_text (row_guard Fib row).0) }
{
    let size: Num = 1 << (32 - row.1);
    let first = Num::from(row.0);
    write!(out, "{cell} in {{")?;
    write_range(out, first, first + size - 1)?;
    out.push_str("}")
}

/// Appends the test of a row.
fn write_test(
    out: &mut String,
    kind: TableKind,
    cell: &Target,
    row: (u64, u32, u32),
) -> Result<(), AllocError>
    requires cell { cell.now ≡ destination kind }
    requires prefix { kind ≡ TableKind.Fib → row.1 ≤ 32 }
    ensures { OnOk result (string_bytes out.new ≡ string_bytes out.old
        ++ cond_text (row_guard kind row).0) }
{
    let address = row.0;
    match kind {
        TableKind::Mac => write!(out, "{cell} == {address}"),
        TableKind::Fib => write_prefix(out, cell, row),
    }
}

/// Appends what follows the test of a row up to its forward.
#[tactic(auto, unfolding(crate::specs::ChainTexts::forward_text))]
fn write_forward(out: &mut String, port: u32) -> Result<(), AllocError>
    ensures { OnOk result (string_bytes out.new ≡ string_bytes out.old ++ forward_text port) }
{
    write!(out, " {{\n      forward {port};\n")
}

/// Appends the lines that end a row.
#[tactic(auto, unfolding(crate::specs::ChainTexts::row_end))]
fn write_row_end(out: &mut String) -> Result<(), AllocError>
    ensures { OnOk result (string_bytes out.new ≡ string_bytes out.old ++ row_end) }
{
    out.push_str("    } else {\n    }\n")
}

/// Appends the lines of a row.
fn write_row(
    out: &mut String,
    kind: TableKind,
    cell: &Target,
    row: (u64, u32, u32),
) -> Result<(), AllocError>
    requires cell { cell.now ≡ destination kind }
    requires prefix { kind ≡ TableKind.Fib → row.1 ≤ 32 }
    ensures { OnOk result (string_bytes out.new ≡ string_bytes out.old ++ row_text kind row) }
{
    out.push_str("    if ")?;
    write_test(out, kind, cell, row)?;
    write_forward(out, row.2)?;
    write_row_end(out)
}

fn write_rows(
    out: &mut String,
    kind: TableKind,
    cell: &Target,
    rows: &[(u64, u32, u32)],
) -> Result<(), AllocError>
    requires cell { cell.now ≡ destination kind }
    requires prefix { kind ≡ TableKind.Fib → All (λ row. row.1 ≤ 32) rows.now }
    ensures { OnOk result (string_bytes out.new ≡ string_bytes out.old
        ++ flat_map (row_text kind) rows.now) }
{
    for row in rows {
        write_row(out, kind, cell, *row)?;
    }
    Ok(())
}

/// Appends a port of a fork.
fn write_port(out: &mut String, port: u32) -> Result<(), AllocError>
    ensures { OnOk result (string_bytes out.new ≡ string_bytes out.old ++ next_port port) }
{
    if port == 0 {
        return write!(out, " {port}");
    }
    write!(out, ", {port}")
}

/// Appends a fork to all ports.
#[tactic(auto, unfolding(sefl_syntax::specs::CodeText::fork_text), using(crate::proofs::ChainLemmas::port_added))]
fn write_fork(out: &mut String, ports: u32) -> Result<(), AllocError>
    ensures { OnOk result (string_bytes out.new ≡ string_bytes out.old
        ++ fork_text (ports_from 0 ports)) }
{
    out.push_str("fork")?;
    for port in 0..ports {
        write_port(out, port)?;
    }
    out.push_str(";")
}

/// Appends the statement for an address that no row has.
fn write_last(out: &mut String, kind: TableKind, ports: u32) -> Result<(), AllocError>
    ensures { OnOk result (string_bytes out.new ≡ string_bytes out.old ++ last_text kind ports) }
{
    match kind {
        TableKind::Mac => write_fork(out, ports),
        TableKind::Fib => out.push_str("fail \"no route\";"),
    }
}

/// Appends the line of that statement.
#[tactic(auto, using(crate::proofs::ChainLemmas::last_written))]
fn write_last_line(out: &mut String, kind: TableKind, ports: u32) -> Result<(), AllocError>
    ensures { OnOk result (string_bytes out.new ≡ string_bytes out.old
        ++ code_text (codes "    ") (last_of kind ports)) }
{
    out.push_str("    ")?;
    write_last(out, kind, ports)?;
    out.push_str("\n")
}

/// Appends the lines before those of the rows.
#[tactic(auto, unfolding(sefl_syntax::specs::NetText::node_heading))]
fn write_heading(out: &mut String, name: &Name, ports: u32) -> Result<(), AllocError>
    ensures { OnOk result (string_bytes out.new ≡ string_bytes out.old ++ heading name.now ports) }
{
    let (ins, side, port): (u32, Side, u32) = (1, Side::Inward, 0);
    write!(out, "node {name} {ins} -> {ports} {{\n")?;
    write!(out, "  {side} {port} {{\n")
}

/// The text of the node in style chain whose tests are those of the rows, in the order given.
#[tactic(auto, using(crate::proofs::ChainLemmas::chain_written))]
pub(crate) fn chain_text(
    alloc: Global,
    name: &Name,
    kind: TableKind,
    cell: &Target,
    ports: u32,
    rows: &[(u64, u32, u32)],
) -> Result<String, NoMemory>
    requires cell { cell.now ≡ destination kind }
    requires prefix { kind ≡ TableKind.Fib → All (λ row. row.1 ≤ 32) rows.now }
    ensures { IfOk result (λ text. string_bytes text ≡ node_text name.now (chain_of kind ports rows.now)) }
{
    let mut out = String::new(alloc);
    write_heading(&mut out, name, ports)?;
    write_rows(&mut out, kind, cell, rows)?;
    write_last_line(&mut out, kind, ports)?;
    out.push_str("  }\n}\n")?;
    Ok(out)
}
