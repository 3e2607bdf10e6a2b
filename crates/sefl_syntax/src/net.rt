//! Nets: nodes and the links between their ports.

ghost use Rattle.std.specs.Prelude.{Some};
ghost use Rattle.sefl_syntax.specs.NetWords.{side_text, kind_text, style_text};

use crate::instr::Instr;
use crate::name::Name;
use crate::text::Text;
use std::fmt;

/// The side of a node that a port is on: packets come in, or go out.
#[derive(Clone, Copy, PartialEq, Eq)]
pub enum Side {
    Inward,
    Outward,
}

/// The code of one port.
#[derive(Drop)]
pub struct PortCode {
    pub side: Side,
    pub port: u32,
    pub code: Vec<Instr>,
}

/// The numbers of a node's ports, and the code of those that have some.
#[derive(Drop)]
pub struct RawNode {
    pub ins: u32,
    pub outs: u32,
    pub codes: Vec<PortCode>,
}

/// In which form the rows of a table become tests: one for each row, one for each port, or one at
/// each output port.
#[derive(Clone, Copy, PartialEq, Eq)]
pub enum Style {
    Chain,
    Grouped,
    Egress,
}

/// What a table file lists: Ethernet addresses, or IPv4 prefixes.
#[derive(Clone, Copy, PartialEq, Eq)]
pub enum TableKind {
    Mac,
    Fib,
}

/// What a node is made of: its code, or a table file that is still to be read.
#[derive(Drop)]
pub enum Body {
    Code(RawNode),
    Table {
        kind: TableKind,
        file: Text,
        style: Style,
    },
}

/// A node with its name.
#[derive(Drop)]
pub struct NodeDecl {
    pub name: Name,
    pub body: Body,
}

/// A link from an output port to an input port.
#[derive(PartialEq, Eq, Drop)]
pub struct Link {
    pub from: Name,
    pub from_port: u32,
    pub to: Name,
    pub to_port: u32,
}

/// Nodes and links, as a job lists them.
#[derive(Drop)]
pub struct RawNet {
    pub nodes: Vec<NodeDecl>,
    pub links: Vec<Link>,
}

impl fmt::Display for Side {
    ghost output = { λ side. Some (side_text side) };

    fn fmt<W: fmt::Write>(&self, f: &mut fmt::Formatter<W>) -> fmt::Result {
        f.write_str(match self {
            Side::Inward => "in",
            Side::Outward => "out",
        })
    }
}

impl fmt::Display for TableKind {
    ghost output = { λ kind. Some (kind_text kind) };

    fn fmt<W: fmt::Write>(&self, f: &mut fmt::Formatter<W>) -> fmt::Result {
        f.write_str(match self {
            TableKind::Mac => "mac",
            TableKind::Fib => "fib",
        })
    }
}

impl fmt::Display for Style {
    ghost output = { λ style. Some (style_text style) };

    fn fmt<W: fmt::Write>(&self, f: &mut fmt::Formatter<W>) -> fmt::Result {
        f.write_str(match self {
            Style::Chain => "chain",
            Style::Grouped => "grouped",
            Style::Egress => "egress",
        })
    }
}
