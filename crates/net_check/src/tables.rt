//! The tables of a net.

ghost use Rattle.std.specs.Prelude.{◌≡◌, IfOk, option_map};
ghost use Rattle.sefl_syntax.specs.Views.{net_tree};
ghost use Rattle.net_check.specs.Lookups.{number_of, port_of, site_and_index};
ghost use Rattle.net_check.specs.Tables.{AreTablesOf, node_found, code_found, link_found};

use crate::codes::{Codes, codes_of};
use crate::links::{id_named, ways_of};
use crate::names::ids_of;
use crate::place::CodePlace;
use crate::ports::Port;
use sefl_syntax::{Name, RawNet, Side};
use sn_width::{NoMemory, NodeId};
use std::alloc::Global;
use std::collections::BTreeMap;
use std::marker::Model;

/// Tables by which the nodes, codes and links of a net are found in logarithmic time. Contracts see
/// their entries; what a net's tables answer is what the net says.
#[derive(Drop)]
pub struct NetTables {
    ids: BTreeMap<Name, NodeId>,
    codes: Codes,
    ways: BTreeMap<Port, Port>,
}

impl Model for NetTables {
    ghost use Rattle.net_check.specs.Tables.{Tables};

    ghost Value = { Tables };

    ghost view = { λ t. record {
      nodes = t.ids.entries;
      ins = t.codes.ins.entries;
      outs = t.codes.outs.entries;
      links = t.ways.entries;
    } };
}

impl NetTables {
    /// The tables of a net, in time `n log n` in its nodes, codes, instructions and links. Of nodes of
    /// one name, of codes of one port and of links from one port the first counts, and a link that names
    /// no node counts for nothing. Nodes and codes of more than `2^32 - 1` items answer NoMemory.
    pub fn of(alloc: Global, net: &RawNet) -> Result<NetTables, NoMemory>
        ensures { IfOk result (AreTablesOf (net_tree net.now)) }
    {
        let ids = ids_of(alloc, &net.nodes)?;
        let codes = codes_of(alloc, &net.nodes)?;
        let ways = ways_of(alloc, &ids, &net.links)?;
        Ok(NetTables { ids, codes, ways })
    }

    /// The id of the first node of the name; None exactly where there is none.
    pub fn node_id(&self, name: &Name) -> Option<NodeId>
        ensures { option_map number_of result ≡ node_found self.now name.now }
    {
        id_named(&self.ids, name)
    }

    /// Where the code of a port stands; None exactly where the port has none.
    pub fn code_place(&self, node: NodeId, side: Side, port: u32) -> Option<CodePlace>
        ensures { option_map site_and_index result ≡ code_found self.now node side port }
    {
        self.codes.on(side).get(&(node, port)).copied()
    }

    /// The node and the input port that the first link from an output port leads to; None exactly where
    /// there is no such link.
    pub fn link_from(&self, node: NodeId, port: u32) -> Option<(NodeId, u32)>
        ensures { option_map port_of result ≡ link_found self.now node port }
    {
        self.ways.get(&(node, port)).copied()
    }
}
