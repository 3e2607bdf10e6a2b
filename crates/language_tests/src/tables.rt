//! The tables of a net: nodes by name, codes by port, links by output port.

ghost use Rattle.std.specs.Prelude.{◌<◌};

use crate::jobs::{check, job_of, joined, name_of, repeated};
use net_check::NetTables;
use sefl_syntax::{Name, Side};
use sn_width::NodeId;
use std::alloc::Global;
use std::fmt::Write;
use std::process::Abort;

/// The number of a node, a side, a port, and the site and the index of the code there.
type Row = (u32, Side, u32, Option<(u32, usize)>);

/// A node whose codes are items 1 to 16: the first has items 2 to 7, with blocks in blocks, and the
/// third items 10 to 14; two tables, one with the name of the first node, and a node with
/// codes of one instruction and of none.
const NODES: &str = "node a 2 -> 2 { \
    in 0 { noop; { noop; { fail \"dead\"; } } noop; } \
    out 1 { } \
    in 1 { if true { noop; } else { for x in \"opt\" { noop; } } noop; } \
    in 0 { noop; } } \
    node t = mac \"f\" chain; \
    node b 2 -> 2 { out 0 { noop; } in 0 { } } \
    node a = mac \"f\" chain; ";

/// Links, some from or to a node that is not there, and two from one port.
const LINKS: &str = "link b.0 -> a.1; link a.0 -> none.0; link none.0 -> a.0; link a.1 -> b.0; \
    link a.1 -> t.0; ";

/// The tables of the net of a text.
fn tables_of(rt: &impl Abort, alloc: Global, text: &str) -> NetTables {
    let job = job_of(rt, alloc, text);
    let tables = NetTables::of(alloc, &job.net).expect(rt, "memory");
    drop(job);
    tables
}

fn tables(rt: &impl Abort, alloc: Global) -> NetTables {
    let text = joined(rt, alloc, &[NODES, LINKS, "inject a.0 { }"]);
    tables_of(rt, alloc, text.as_str())
}

/// The site and the index of the code at a port.
fn place_of(tables: &NetTables, node: NodeId, side: Side, port: u32) -> Option<(u32, usize)> {
    let place = tables.code_place(node, side, port)?;
    Some((place.site.0, place.index))
}

const CODES: &[Row] = &[
    (0, Side::Inward, 0, Some((1, 0))),
    (0, Side::Outward, 1, Some((8, 1))),
    (0, Side::Inward, 1, Some((9, 2))),
    (0, Side::Outward, 0, None),
    (1, Side::Inward, 0, None),
    (2, Side::Outward, 0, Some((19, 0))),
    (2, Side::Inward, 0, Some((21, 1))),
    (2, Side::Inward, 1, None),
    (4, Side::Inward, 0, None),
];

fn check_code(rt: &impl Abort, tables: &NetTables, row: Row) {
    let (node, side, port, expected) = row;
    let found = place_of(tables, NodeId(node), side, port);
    assert!(rt; found == expected, "{node} {side} {port}");
}

#[test]
fn codes_are_found_by_port(rt: HostRuntime) {
    let tables = tables(&rt, rt.alloc());
    for row in CODES {
        check_code(&rt, &tables, *row);
    }
    drop(tables);
}

fn check_node(
    rt: &impl Abort,
    alloc: Global,
    tables: &NetTables,
    text: &str,
    expected: Option<NodeId>,
) {
    let name = name_of(rt, alloc, text);
    check(rt, tables.node_id(&name) == expected, text);
}

#[test]
fn nodes_are_found_by_name(rt: HostRuntime) {
    let tables = tables(&rt, rt.alloc());
    for (name, expected) in [
        ("a", Some(NodeId(0))),
        ("t", Some(NodeId(1))),
        ("b", Some(NodeId(2))),
        ("none", None),
    ] {
        check_node(&rt, rt.alloc(), &tables, name, expected);
    }
    drop(tables);
}

fn check_link(
    rt: &impl Abort,
    tables: &NetTables,
    node: u32,
    port: u32,
    expected: Option<(NodeId, u32)>,
) {
    let found = tables.link_from(NodeId(node), port);
    assert!(rt; found == expected, "{node} {port}");
}

#[test]
fn links_are_found_by_output_port(rt: HostRuntime) {
    let tables = tables(&rt, rt.alloc());
    for (node, port, expected) in [
        (0, 0, None),
        (0, 1, Some((NodeId(2), 0))),
        (1, 0, None),
        (2, 0, Some((NodeId(0), 1))),
        (2, 1, None),
    ] {
        check_link(&rt, &tables, node, port, expected);
    }
    drop(tables);
}

/// The name of the node of a number.
fn numbered(rt: &impl Abort, alloc: Global, number: u32) -> Name {
    let text = format!(in alloc; "n{number}").expect(rt, "memory");
    name_of(rt, alloc, text.as_str())
}

/// The text of a node of each number, each with code of 30 instructions at an input port.
fn numbered_nodes(rt: &impl Abort, alloc: Global, count: u32) -> String {
    let code = repeated(rt, alloc, "noop; ", 30);
    let mut text = String::new(alloc);
    for number in 0..count {
        write!(text, "node n{number} 1 -> 1 {{ in 0 {{ {code}}} }} ").expect(rt, "memory");
    }
    text
}

/// The text of a link from the node of each number to the first.
fn numbered_links(rt: &impl Abort, alloc: Global, count: u32) -> String {
    let mut text = String::new(alloc);
    for number in 0..count {
        write!(text, "link n{number}.0 -> n0.0; ").expect(rt, "memory");
    }
    text
}

fn large_tables(rt: &impl Abort, alloc: Global, count: u32) -> NetTables {
    let nodes = numbered_nodes(rt, alloc, count);
    let links = numbered_links(rt, alloc, count);
    let pieces = [nodes.as_str(), links.as_str(), "inject n0.0 { }"];
    let text = joined(rt, alloc, &pieces);
    tables_of(rt, alloc, text.as_str())
}

/// Whether the node has its name, its code at this site, and its link to the first.
fn is_numbered(tables: &NetTables, name: &Name, id: NodeId, site: u32) -> bool {
    tables.node_id(name) == Some(id)
        && place_of(tables, id, Side::Inward, 0) == Some((site, 0))
        && tables.link_from(id, 0) == Some((NodeId(0), 0))
}

fn check_numbered(rt: &impl Abort, alloc: Global, tables: &NetTables, number: u32)
    requires { number < 10000 }
{
    let name = numbered(rt, alloc, number);
    let is_numbered = is_numbered(tables, &name, NodeId(number), number * 32 + 1);
    assert!(rt; is_numbered, "{number}");
}

#[test]
fn a_large_net_has_tables(rt: HostRuntime) {
    let tables = large_tables(&rt, rt.alloc(), 10_000);
    for number in 0..10_000u32 {
        check_numbered(&rt, rt.alloc(), &tables, number);
    }
    drop(tables);
}
