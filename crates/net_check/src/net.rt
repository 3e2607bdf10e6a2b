//! Accepted nets.

ghost use Rattle.std.specs.Prelude.{◌≡◌, ◌<◌, length, map, position, slice_get, Some, bytes_eq, option_map, IfOk};
ghost use Rattle.std.specs.List.{AllByRecursion};
ghost use Rattle.sefl_syntax.specs.Views.{code_tree, port_tree};
ghost use Rattle.job_items.specs.Items.{net_items};
ghost use Rattle.net_check.specs.Keeping.{KeepsRules};
ghost use Rattle.net_check.specs.Network.{network, code_at, names_found, node_number, name_number, tag_number, node_ports, ports_on};
ghost use Rattle.net_check.specs.Sound.{IsAcceptedNet};
ghost use Rattle.net_check.specs.Lookups.{port_of};
ghost use Rattle.net_check.specs.Places.{code_site, codes_at, link_from, node_position};

use crate::NetTables;
use crate::laws::accepted_parts_keep_the_rules;
use crate::table_laws::codes_have_places;
use job_names::JobNames;
use sefl_syntax::{Body, Instr, Name, PortCode, RawNet, RawNode, Side, Text};
use sn_width::{NameId, NoMemory, NodeId, Site, TagId};
use std::alloc::Global;
use std::marker::Model;

/// The net of an accepted job. Contracts see the job's own nodes and links, the names that occur in the job, and the names
/// that each pattern finds. Its readers take no memory.
pub struct Net {
    raw: RawNet,
    node_count: u32,
    tables: NetTables,
    names: JobNames,
    found: Vec<Vec<NameId>>,
}

impl Model for Net {
    ghost use Rattle.std.specs.Prelude.{map};
    ghost use Rattle.std.specs.Coded.{codes};
    ghost use Rattle.sefl_syntax.specs.contracts.instr.Instr as the_instr;
    ghost use Rattle.net_check.specs.Network.{NetParts, network};
    ghost use Rattle.net_check.specs.Sound.{IsKept};

    ghost Value = { NetParts };

    ghost coded = { Prim.hlevel (codes, the_instr.the_row.coded) };

    ghost view = { λ n. record { raw = n.raw; names = n.names; found = map (λ ids. ids.items) n.found.items } };

    ghost invariant = { λ n. IsKept (network (record { raw = n.raw; names = n.names; found = map (λ ids. ids.items) n.found.items })) n.node_count n.tables };
}

// Written out, and not derived, so that the proof of a function that lets one go sees a call.
impl Drop for Net {
    fn drop(self) {
        let Net {
            raw,
            node_count: _,
            tables,
            names,
            found,
        } = self;
        drop(raw);
        drop(tables);
        drop(names);
        drop(found);
    }
}

impl Net {
    /// The net of a job that breaks no rule, with its names, and the names that each of its patterns finds.
    pub(crate) fn of(
        alloc: Global,
        raw: RawNet,
        names: JobNames,
        found: Vec<Vec<NameId>>,
    ) -> Result<Net, NoMemory>
        requires { IsAcceptedNet (network (record {
          raw = raw;
          names = names;
          found = map (λ ids. ids.items)
              found.items;
        })) }
        ensures { IfOk result (λ net. net ≡ record {
          raw = raw;
          names = names;
          found = map (λ ids. ids.items)
              found.items;
        }) }
    {
        let Ok(node_count) = u32::try_from(raw.nodes.len()) else {
            return Err(NoMemory);
        };
        let tables = NetTables::of(alloc, &raw)?;
        Ok(Net {
            raw,
            node_count,
            tables,
            names,
            found,
        })
    }

    /// Says that the net is of a job that breaks no rule. It does nothing.
    pub fn keeps_the_rules(&self)
        ensures accepted { IsAcceptedNet (network self.now) }
        ensures items { AllByRecursion KeepsRules (net_items (network self.now).own) }
    {
        let _raw = &self.raw;
        accepted_parts_keep_the_rules();
    }

    /// How many nodes there are. Their ids are the numbers below.
    pub fn node_count(&self) -> u32
        ensures { result ≡ length (network self.now).own.nodes }
    {
        self.node_count
    }

    /// How many metadata names there are. Their ids are the numbers below.
    pub fn name_count(&self) -> u32
        ensures { result ≡ length (network self.now).names.metas }
    {
        self.names.meta_count()
    }

    /// How many tag names there are. Their ids are the numbers below.
    pub fn tag_count(&self) -> u32
        ensures { result ≡ length (network self.now).names.tags }
    {
        self.names.tag_count()
    }

    /// The name of a node.
    pub fn node_name(&self, node: NodeId) -> &Name
        requires { node.0 < length (network self.now).own.nodes }
        ensures { option_map (λ d. d.name) (slice_get (network self.now).own.nodes node.0) ≡ Some result.now }
    {
        &self.raw.nodes[node.0 as usize].name
    }

    /// The node of a name; None exactly where there is none.
    pub fn node_id(&self, name: &Name) -> Option<NodeId>
        ensures { option_map node_number result ≡ node_position (network self.now).own name.now }
    {
        self.tables.node_id(name)
    }

    /// The metadata name with this id.
    pub fn name(&self, id: NameId) -> &Name
        requires { id.0 < length self.now.names.metas }
        ensures { slice_get self.now.names.metas id.0 ≡ Some result.now }
    {
        self.names.meta_name(id)
    }

    /// The id of a metadata name; None exactly where the job has no such name.
    pub fn name_id(&self, name: &Name) -> Option<NameId>
        ensures { option_map name_number result ≡ position (bytes_eq name.now) self.now.names.metas }
    {
        self.names.meta_id(name)
    }

    /// The tag name with this id.
    pub fn tag_name(&self, id: TagId) -> &Name
        requires { id.0 < length self.now.names.tags }
        ensures { slice_get self.now.names.tags id.0 ≡ Some result.now }
    {
        self.names.tag_name(id)
    }

    /// The id of a tag name; None exactly where the job has no such name.
    pub fn tag_id(&self, name: &Name) -> Option<TagId>
        ensures { option_map tag_number result ≡ position (bytes_eq name.now) self.now.names.tags }
    {
        self.names.tag_id(name)
    }

    /// How many ports the node has on the side.
    pub fn ports(&self, node: NodeId, side: Side) -> u32
        requires { node.0 < length (network self.now).own.nodes }
        ensures { option_map (ports_on side) (node_ports (network self.now) node) ≡ Some result }
    {
        match &self.raw.nodes[node.0 as usize].body {
            Body::Table { .. } => 0,
            Body::Code(raw) => count_on(raw, side),
        }
    }

    /// The instructions of the port's code, none where it has no code.
    pub fn code(&self, node: NodeId, side: Side, port: u32) -> &[Instr]
        requires { node.0 < length (network self.now).own.nodes }
        ensures { code_tree result.now ≡ code_at (network self.now) node side port }
    {
        codes_have_places();
        match self.tables.code_place(node, side, port) {
            None => &[],
            Some(place) => &self.codes(node)[place.index].code,
        }
    }

    /// The codes of a node, in text order.
    fn codes(&self, node: NodeId) -> &[PortCode]
        requires { node.0 < length (network self.now).own.nodes }
        ensures { map port_tree result.now ≡ codes_at (network self.now).own node.0 }
    {
        match &self.raw.nodes[node.0 as usize].body {
            Body::Table { .. } => &[],
            Body::Code(raw) => &raw.codes,
        }
    }

    /// The site of the port's code; None exactly where it has no code. The site of an instruction in that code is this
    /// one, plus one, plus the number of the code's instructions that begin before it.
    pub fn code_site(&self, node: NodeId, side: Side, port: u32) -> Option<Site>
        ensures { option_map (λ site. site.0) result ≡ code_site (network self.now).own node.0 side port }
    {
        match self.tables.code_place(node, side, port) {
            None => None,
            Some(place) => Some(place.site),
        }
    }

    /// The node and the input port that the link from an output port leads to; None exactly where there is no link.
    pub fn link(&self, node: NodeId, port: u32) -> Option<(NodeId, u32)>
        ensures { option_map port_of result ≡ link_from (network self.now).own node.0 port }
    {
        self.tables.link_from(node, port)
    }

    /// The names that a pattern of the job finds, ascending; none for another pattern.
    pub fn found(&self, pattern: &Text) -> &[NameId]
        ensures { result.now ≡ names_found (network self.now) pattern.now }
    {
        match self.names.pattern_index(pattern) {
            None => &[],
            Some(index) => &self.found[index],
        }
    }
}

/// How many ports a node has on the side.
fn count_on(node: &RawNode, side: Side) -> u32
    ensures { result ≡ ports_on side (record { ins = node.now.ins; outs = node.now.outs }) }
{
    match side {
        Side::Inward => node.ins,
        Side::Outward => node.outs,
    }
}
