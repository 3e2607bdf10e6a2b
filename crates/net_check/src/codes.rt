//! Codes by port.

ghost use Rattle.std.specs.Prelude.{◌≡◌, ℕ, ◌+◌, cond, map, IfOk, OnOk, None, Some};
ghost use Rattle.std.specs.Option.{option_or};
ghost use Rattle.sn_width.specs.declared.ids.NodeId.{NodeId};
ghost use Rattle.sefl_syntax.specs.declared.net.Side.{Side};
ghost use Rattle.sefl_syntax.specs.Views.{decl_tree, port_tree};
ghost use Rattle.job_items.specs.Nodes.{codes_of};
ghost use Rattle.net_check.specs.Lookups.{of_node, on_side, place_at, site_and_index};
ghost use Rattle.net_check.specs.Places.{codes_size, decl_size, is_port, place_among, place_in};

use crate::place::CodePlace;
use crate::ports::{Port, enter};
use crate::sizes::{behind_code, behind_item, id_of};
use sefl_syntax::{Body, NodeDecl, PortCode, Side};
use sn_width::{NoMemory, NodeId, Site};
use std::alloc::Global;
use std::collections::BTreeMap;

/// Where the codes of input ports and of output ports stand.
#[derive(Drop)]
pub(crate) struct Codes {
    pub ins: BTreeMap<Port, CodePlace>,
    pub outs: BTreeMap<Port, CodePlace>,
}

impl Codes {
    /// Where the codes on a side stand.
    pub(crate) fn on(&self, side: Side) -> &BTreeMap<Port, CodePlace>
        ensures { result.now.entries ≡ on_side side self.now.ins.entries self.now.outs.entries }
    {
        match side {
            Side::Inward => &self.ins,
            Side::Outward => &self.outs,
        }
    }
}

/// Where the codes of nodes stand.
pub(crate) fn codes_of(alloc: Global, nodes: &[NodeDecl]) -> Result<Codes, NoMemory>
    ensures { IfOk result (λ codes. (node : NodeId) (side : Side) (port : ℕ)
        → place_at codes.ins.entries codes.outs.entries node side port
        ≡ place_in (map decl_tree nodes.now) node.0 side port) }
{
    let mut codes = Codes {
        ins: BTreeMap::new(alloc),
        outs: BTreeMap::new(alloc),
    };
    let mut site = 0;
    for (number, node) in nodes.iter().enumerate() {
        site = enter_node(&mut codes, id_of(number)?, site, node)?;
    }
    Ok(codes)
}

/// Enters the codes of a node whose site this is; the site behind them.
fn enter_node(codes: &mut Codes, id: NodeId, site: u32, node: &NodeDecl) -> Result<u32, NoMemory>
    ensures end { IfOk result (λ end. end ≡ site + decl_size (decl_tree node.now)) }
    ensures entered { OnOk result ((other : NodeId) (side : Side) (port : ℕ)
        → place_at codes.new.ins.entries codes.new.outs.entries other side port
        ≡ option_or (place_at codes.old.ins.entries codes.old.outs.entries other side port)
        (of_node id other (place_among (site + 1) 0 side port (codes_of (decl_tree node.now).body)))) }
{
    let first = behind_item(site)?;
    match &node.body {
        Body::Table { .. } => Ok(first),
        Body::Code(raw) => enter_ports(codes, id, first, &raw.codes),
    }
}

/// Enters codes of a node, where the first has this site; the site behind them.
fn enter_ports(
    codes: &mut Codes,
    id: NodeId,
    first: u32,
    ports: &[PortCode],
) -> Result<u32, NoMemory>
    ensures end { IfOk result (λ end. end ≡ first + codes_size (map port_tree ports.now)) }
    ensures entered { OnOk result ((other : NodeId) (side : Side) (port : ℕ)
        → place_at codes.new.ins.entries codes.new.outs.entries other side port
        ≡ option_or (place_at codes.old.ins.entries codes.old.outs.entries other side port)
        (of_node id other (place_among first 0 side port (map port_tree ports.now)))) }
{
    let mut site = first;
    for (index, port) in ports.iter().enumerate() {
        let place = CodePlace {
            site: Site(site),
            index,
        };
        enter_port(codes, id, port, place)?;
        site = behind_code(behind_item(site)?, &port.code)?;
    }
    Ok(site)
}

/// Enters the place of a port's code, unless the port has one.
fn enter_port(
    codes: &mut Codes,
    id: NodeId,
    code: &PortCode,
    place: CodePlace,
) -> Result<(), NoMemory>
    ensures { OnOk result ((other : NodeId) (side : Side) (port : ℕ)
        → place_at codes.new.ins.entries codes.new.outs.entries other side port
        ≡ option_or (place_at codes.old.ins.entries codes.old.outs.entries other side port)
        (of_node id other (cond (is_port side port (port_tree code.now)) (Some (site_and_index place)) None))) }
{
    match code.side {
        Side::Inward => enter(&mut codes.ins, (id, code.port), place),
        Side::Outward => enter(&mut codes.outs, (id, code.port), place),
    }
}
