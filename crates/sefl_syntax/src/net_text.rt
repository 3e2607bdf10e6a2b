//! The canonical texts of nodes, nets and jobs.

ghost use Rattle.std.specs.Prelude.{◌≡◌, ◌++◌, IfOk, OnOk, map, string_bytes};
ghost use Rattle.std.specs.List.{flat_map};
ghost use Rattle.sefl_syntax.specs.NetText.{node_heading, node_text, port_text, table_text, decl_text, link_text, net_text};
ghost use Rattle.sefl_syntax.specs.Views.{port_tree, node_tree, decl_tree, net_tree};

use crate::code::write_code;
use crate::name::Name;
use crate::net::{Body, Link, NodeDecl, PortCode, RawNet, RawNode, Style, TableKind};
use crate::text::Text;
use sn_width::NoMemory;
use std::alloc::{AllocError, Global};
use std::fmt::Write;

/// The canonical text of a node that is code.
pub fn print_node(alloc: Global, name: &Name, node: &RawNode) -> Result<String, NoMemory>
    ensures { IfOk result (λ text. string_bytes text ≡ node_text name.now (node_tree node.now)) }
{
    let mut out = String::new(alloc);
    write_node(&mut out, name, node)?;
    Ok(out)
}

/// The canonical text of a net: its nodes, then its links.
pub fn print_net(alloc: Global, net: &RawNet) -> Result<String, NoMemory>
    ensures { IfOk result (λ text. string_bytes text ≡ net_text (net_tree net.now)) }
{
    let mut out = String::new(alloc);
    write_net(&mut out, net)?;
    Ok(out)
}

#[tactic(auto, unfolding(crate::specs::NetText::net_text))]
pub(crate) fn write_net(out: &mut String, net: &RawNet) -> Result<(), AllocError>
    ensures { OnOk result (string_bytes out.new ≡ string_bytes out.old
        ++ net_text (net_tree net.now)) }
{
    write_nodes(out, &net.nodes)?;
    write_links(out, &net.links)
}

fn write_nodes(out: &mut String, nodes: &[NodeDecl]) -> Result<(), AllocError>
    ensures { OnOk result (string_bytes out.new ≡ string_bytes out.old
        ++ flat_map decl_text (map decl_tree nodes.now)) }
{
    for node in nodes {
        write_decl(out, node)?;
    }
    Ok(())
}

fn write_decl(out: &mut String, node: &NodeDecl) -> Result<(), AllocError>
    ensures { OnOk result (string_bytes out.new ≡ string_bytes out.old
        ++ decl_text (decl_tree node.now)) }
{
    match &node.body {
        Body::Code(code) => write_node(out, &node.name, code),
        Body::Table { kind, file, style } => write_table(out, &node.name, *kind, file, *style),
    }
}

#[tactic(auto, unfolding(crate::specs::NetText::table_text, crate::specs::CodeText::quoted))]
fn write_table(
    out: &mut String,
    name: &Name,
    kind: TableKind,
    file: &Text,
    style: Style,
) -> Result<(), AllocError>
    ensures { OnOk result (string_bytes out.new ≡ string_bytes out.old
        ++ table_text name.now kind file.now style) }
{
    write!(out, "node {name} = {kind} \"{file}\" ")?;
    write!(out, "{style};\n")
}

#[tactic(auto, unfolding(crate::specs::NetText::node_text))]
fn write_node(out: &mut String, name: &Name, node: &RawNode) -> Result<(), AllocError>
    ensures { OnOk result (string_bytes out.new ≡ string_bytes out.old
        ++ node_text name.now (node_tree node.now)) }
{
    write_node_heading(out, name, node.ins, node.outs)?;
    write_ports(out, &node.codes)?;
    out.push_str("}\n")
}

#[tactic(auto, unfolding(crate::specs::NetText::node_heading))]
fn write_node_heading(out: &mut String, name: &Name, ins: u32, outs: u32) -> Result<(), AllocError>
    ensures { OnOk result (string_bytes out.new ≡ string_bytes out.old
        ++ node_heading name.now ins outs) }
{
    write!(out, "node {name} {ins} -> {outs} {{\n")
}

fn write_ports(out: &mut String, ports: &[PortCode]) -> Result<(), AllocError>
    ensures { OnOk result (string_bytes out.new ≡ string_bytes out.old
        ++ flat_map port_text (map port_tree ports.now)) }
{
    for port in ports {
        write_port(out, port)?;
    }
    Ok(())
}

/// Appends the code of a port.
#[tactic(auto, unfolding(crate::specs::NetText::port_text))]
fn write_port(out: &mut String, port: &PortCode) -> Result<(), AllocError>
    ensures { OnOk result (string_bytes out.new ≡ string_bytes out.old
        ++ port_text (port_tree port.now)) }
{
    let (side, number) = (port.side, port.port);
    write!(out, "  {side} {number} {{\n")?;
    write_code(out, "    ", &port.code)?;
    out.push_str("  }\n")
}

fn write_links(out: &mut String, links: &[Link]) -> Result<(), AllocError>
    ensures { OnOk result (string_bytes out.new ≡ string_bytes out.old
        ++ flat_map link_text links.now) }
{
    for link in links {
        write_link(out, link)?;
    }
    Ok(())
}

#[tactic(auto, unfolding(crate::specs::NetText::link_text))]
fn write_link(out: &mut String, link: &Link) -> Result<(), AllocError>
    ensures { OnOk result (string_bytes out.new ≡ string_bytes out.old ++ link_text link.now) }
{
    let (from, from_port, to, to_port) = (&link.from, link.from_port, &link.to, link.to_port);
    write!(out, "link {from}.{from_port}")?;
    write!(out, " -> {to}.{to_port};\n")
}
