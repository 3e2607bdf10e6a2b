//! The nodes of a net and the code of their ports.

ghost use Rattle.std.specs.Prelude.{◌≡◌, ◌∷◌, [], OnOk, IfOk, map, nat_eq, bytes_eq};
ghost use Rattle.std.specs.List.{list_any};
ghost use Rattle.indexmap.specs.IndexMap.{insert_entry};
ghost use Rattle.indexmap.specs.IndexSet.{insert_key};
ghost use Rattle.sefl_syntax.specs.Views.{body_tree, decl_tree, port_tree};
ghost use Rattle.job_items.specs.Items.{decl_items, node_item, node_items, one_port_items, port_item, port_items, with_input, with_output};
ghost use Rattle.job_items.specs.LentNodes.{lent_nodes};
ghost use Rattle.job_items.specs.Nodes.{node_named, with_node, nodes_after, ports_of, codes_of};
ghost use Rattle.job_items.specs.Progress.{progress_of, outcome_from, Follows};
ghost use Rattle.job_items.specs.Rules.{on_side};

use crate::code::check_code;
use crate::halt::Halt;
use crate::place::{Place, Vars};
use crate::ports::Ports;
use crate::rule::{Breach, Rule};
use crate::tally::{Tally, first_breach};
use indexmap::{IndexMap, IndexSet};
use sefl_syntax::{Body, Name, NodeDecl, PortCode, Side};
use sn_width::NoMemory;
use std::alloc::Global;

/// Passes the nodes with their code, up to the first item that breaks a rule.
pub(crate) fn check_nodes<'a>(
    alloc: Global,
    tally: &mut Tally<'a>,
    nodes: &mut IndexMap<&'a Name, Ports>,
    decls: &'a [NodeDecl],
) -> Result<(), Halt>
    ensures follows { Follows (outcome_from (progress_of tally.old)
        (node_items (lent_nodes nodes.old.entries) (map decl_tree decls.now))) result (progress_of tally.new) }
    ensures made { OnOk result (lent_nodes nodes.new.entries
        ≡ nodes_after (lent_nodes nodes.old.entries) (map decl_tree decls.now)) }
{
    for decl in decls {
        check_node(alloc, tally, nodes, decl)?;
    }
    Ok(())
}

fn check_node<'a>(
    alloc: Global,
    tally: &mut Tally<'a>,
    nodes: &mut IndexMap<&'a Name, Ports>,
    decl: &'a NodeDecl,
) -> Result<(), Halt>
    ensures follows { Follows (outcome_from (progress_of tally.old)
        (decl_items (lent_nodes nodes.old.entries) (decl_tree decl.now))) result (progress_of tally.new) }
    ensures made { OnOk result (lent_nodes nodes.new.entries
        ≡ with_node (lent_nodes nodes.old.entries) (decl_tree decl.now)) }
{
    begin_node(tally, nodes, decl)?;
    check_body(alloc, tally, &decl.body)
}

/// Passes the heading of a node.
fn begin_node<'a>(
    tally: &mut Tally<'a>,
    nodes: &mut IndexMap<&'a Name, Ports>,
    decl: &'a NodeDecl,
) -> Result<(), Halt>
    ensures follows { Follows (outcome_from (progress_of tally.old)
        (node_item (lent_nodes nodes.old.entries) (decl_tree decl.now) ∷ [])) result (progress_of tally.new) }
    ensures made { OnOk result (lent_nodes nodes.new.entries
        ≡ with_node (lent_nodes nodes.old.entries) (decl_tree decl.now)) }
{
    let ports = Ports::of(&decl.body);
    let is_twice = node_named(nodes, &decl.name).is_some();
    let early = first_breach(&[(is_twice, Breach::Breaks(Rule::TwiceNode))]);
    tally.add_node()?;
    tally.weigh(&[], early, ports.on_wider_side(), 0)?;
    name_node(nodes, &decl.name, ports)?;
    tally.step()
}

fn name_node<'a>(
    nodes: &mut IndexMap<&'a Name, Ports>,
    name: &'a Name,
    ports: Ports,
) -> Result<(), NoMemory>
    ensures { OnOk result (lent_nodes nodes.new.entries
        ≡ insert_entry bytes_eq (lent_nodes nodes.old.entries) name.now ports) }
{
    nodes.insert(name, ports)?;
    Ok(())
}

/// Passes the code of a node.
fn check_body<'a>(alloc: Global, tally: &mut Tally<'a>, body: &'a Body) -> Result<(), Halt>
    ensures { Follows (outcome_from (progress_of tally.old)
        (port_items (ports_of (body_tree body.now)) [] [] (codes_of (body_tree body.now)))) result
        (progress_of tally.new) }
{
    match body {
        Body::Table { .. } => Ok(()),
        Body::Code(node) => check_ports(alloc, tally, Ports::of(body), &node.codes),
    }
}

/// The ports of the node of the name.
pub(crate) fn node_named<'a>(nodes: &IndexMap<&'a Name, Ports>, name: &'a Name) -> Option<Ports>
    ensures { result ≡ node_named (lent_nodes nodes.now.entries) name.now }
{
    nodes.get(&name).copied()
}

/// Passes the codes of a node's ports, up to the first item that breaks a rule.
fn check_ports<'a>(
    alloc: Global,
    tally: &mut Tally<'a>,
    ports: Ports,
    codes: &'a [PortCode],
) -> Result<(), Halt>
    ensures { Follows (outcome_from (progress_of tally.old) (port_items ports [] [] (map port_tree codes.now))) result
        (progress_of tally.new) }
{
    let mut ins = IndexSet::new(alloc);
    let mut outs = IndexSet::new(alloc);
    for code in codes {
        check_port(alloc, tally, ports, &mut ins, &mut outs, code)?;
    }
    Ok(())
}

fn check_port<'a>(
    alloc: Global,
    tally: &mut Tally<'a>,
    ports: Ports,
    ins: &mut IndexSet<u32>,
    outs: &mut IndexSet<u32>,
    code: &'a PortCode,
) -> Result<(), Halt>
    ensures follows { Follows (outcome_from (progress_of tally.old)
        (one_port_items ports ins.old.keys outs.old.keys (port_tree code.now))) result (progress_of tally.new) }
    ensures inputs { OnOk result (ins.new.keys ≡ with_input code.now.side code.now.port ins.old.keys) }
    ensures outputs { OnOk result (outs.new.keys ≡ with_output code.now.side code.now.port outs.old.keys) }
{
    begin_port(tally, ports, ins, outs, code)?;
    let place = Place {
        outs: ports.outs,
        side: code.side,
        vars: Vars::Free,
    };
    check_code(alloc, tally, place, &code.code)
}

/// Passes the heading of a port's code.
fn begin_port<'a>(
    tally: &mut Tally<'a>,
    ports: Ports,
    ins: &mut IndexSet<u32>,
    outs: &mut IndexSet<u32>,
    code: &'a PortCode,
) -> Result<(), Halt>
    ensures follows { Follows (outcome_from (progress_of tally.old)
        (port_item ports ins.old.keys outs.old.keys (port_tree code.now) ∷ [])) result (progress_of tally.new) }
    ensures inputs { OnOk result (ins.new.keys ≡ with_input code.now.side code.now.port ins.old.keys) }
    ensures outputs { OnOk result (outs.new.keys ≡ with_output code.now.side code.now.port outs.old.keys) }
{
    let is_second = note_port(ins, outs, code.side, code.port)?;
    let early = first_breach(&[
        (
            ports.on(code.side) <= code.port,
            Breach::Breaks(Rule::PortRange),
        ),
        (is_second, Breach::Breaks(Rule::TwiceCode)),
    ]);
    tally.weigh(&[], early, 0, 0)?;
    tally.step()
}

/// Notes a port with code; whether it had code already.
fn note_port(
    ins: &mut IndexSet<u32>,
    outs: &mut IndexSet<u32>,
    side: Side,
    port: u32,
) -> Result<bool, NoMemory>
    ensures second { IfOk result (λ is_second. is_second
        ≡ list_any (nat_eq port) (on_side side ins.old.keys outs.old.keys)) }
    ensures inputs { OnOk result (ins.new.keys ≡ with_input side port ins.old.keys) }
    ensures outputs { OnOk result (outs.new.keys ≡ with_output side port outs.old.keys) }
{
    match side {
        Side::Inward => note(ins, port),
        Side::Outward => note(outs, port),
    }
}

fn note(used: &mut IndexSet<u32>, port: u32) -> Result<bool, NoMemory>
    ensures second { IfOk result (λ is_second. is_second ≡ list_any (nat_eq port) used.old.keys) }
    ensures noted { OnOk result (used.new.keys ≡ insert_key nat_eq used.old.keys port) }
{
    let is_second = used.contains(&port);
    used.insert(port)?;
    Ok(is_second)
}
