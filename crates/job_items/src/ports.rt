//! The ports of nodes.

ghost use Rattle.std.specs.Prelude.{◌≡◌};
ghost use Rattle.sefl_syntax.specs.Views.{body_tree};
ghost use Rattle.job_items.specs.Nodes.{ports_of};
ghost use Rattle.job_items.specs.Rules.{is_past, port_count, wider_side};

use sefl_syntax::{Body, Side};

/// How many ports a node has on each side.
#[derive(Clone, Copy, PartialEq, Eq)]
pub struct Ports {
    pub ins: u32,
    pub outs: u32,
}

impl Ports {
    /// The ports of a node; a table has none before it is read.
    pub fn of(body: &Body) -> Ports
        ensures { result ≡ ports_of (body_tree body.now) }
    {
        match body {
            Body::Code(node) => Ports {
                ins: node.ins,
                outs: node.outs,
            },
            Body::Table { .. } => Ports { ins: 0, outs: 0 },
        }
    }

    /// How many ports there are on a side.
    pub fn on(self, side: Side) -> u32
        ensures { result ≡ port_count side self }
    {
        match side {
            Side::Inward => self.ins,
            Side::Outward => self.outs,
        }
    }

    /// How many ports there are on the side that has too many, inputs before outputs.
    pub(crate) fn on_wider_side(self) -> u64
        ensures { result ≡ wider_side self }
    {
        if self.ins > 1_024 {
            self.ins as u64
        } else {
            self.outs as u64
        }
    }
}

/// Whether the node is there and has no such port on the side.
pub(crate) fn is_past(node: Option<Ports>, side: Side, port: u32) -> bool
    ensures { result ≡ is_past node side port }
{
    match node {
        None => false,
        Some(ports) => ports.on(side) <= port,
    }
}
