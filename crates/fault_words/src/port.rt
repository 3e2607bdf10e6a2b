//! A port that a node does not have.

use crate::statement::Word;
use fault_places::behind_node;
use job_items::Ports;
use sefl_syntax::{NodeDecl, Side};
use std::alloc::{AllocError, Global};

/// A port of a node, as a text names it.
#[derive(Clone, Copy)]
struct Named<'a> {
    node: &'a NodeDecl,
    side: Side,
    port: u128,
}

/// How many ports the node has on that side.
fn port_count(named: Named<'_>) -> u32 {
    Ports::of(&named.node.body).on(named.side)
}

/// The port that a word names, where the node does not have it.
fn absent<'a>(node: Option<&'a NodeDecl>, side: Side, word: Word<'_>) -> Option<Named<'a>> {
    let named = Named {
        node: node?,
        side,
        port: word.value?,
    };
    if u128::from(port_count(named)) <= named.port {
        Some(named)
    } else {
        None
    }
}

fn node_of<'a>(nodes: &'a [NodeDecl], name: &str) -> Option<&'a NodeDecl> {
    for node in nodes {
        if node.name.text() == name {
            return Some(node);
        }
    }
    None
}

/// The node that the item of this site belongs to; None where it belongs to none.
fn owner_of(nodes: &[NodeDecl], site: u32) -> Option<&NodeDecl> {
    let mut begin = 0;
    for node in nodes {
        let end = behind_node(begin, node).ok()?;
        if site < end {
            return Some(node);
        }
        begin = end;
    }
    None
}

/// The first output port of a list that the node does not have.
fn first_absent<'a>(node: Option<&'a NodeDecl>, words: &[Word<'_>]) -> Option<Named<'a>> {
    for word in words {
        let found = absent(node, Side::Outward, *word);
        if found.is_some() {
            return found;
        }
    }
    None
}

/// The same of a link: its words behind the first.
fn absent_of_link<'a>(nodes: &'a [NodeDecl], words: &[Word<'_>]) -> Option<Named<'a>> {
    let [from, _, out, _, to, _, into, ..] = words else {
        return None;
    };
    let found = absent(node_of(nodes, from.text), Side::Outward, *out);
    if found.is_some() {
        return found;
    }
    absent(node_of(nodes, to.text), Side::Inward, *into)
}

/// The same of the injection.
fn absent_of_injection<'a>(nodes: &'a [NodeDecl], words: &[Word<'_>]) -> Option<Named<'a>> {
    let [name, _, port, ..] = words else {
        return None;
    };
    absent(node_of(nodes, name.text), Side::Inward, *port)
}

/// The first port of a statement, the item of this site, that its node does not have.
fn absent_of<'a>(words: &[Word<'_>], site: u32, nodes: &'a [NodeDecl]) -> Option<Named<'a>> {
    let [first, rest @ ..] = words else {
        return None;
    };
    let own = owner_of(nodes, site);
    match first.text {
        "in" => absent(own, Side::Inward, *rest.first()?),
        "out" => absent(own, Side::Outward, *rest.first()?),
        "forward" => first_absent(own, rest),
        "fork" => first_absent(own, rest),
        "link" => absent_of_link(nodes, rest),
        "inject" => absent_of_injection(nodes, rest),
        _ => None,
    }
}

/// The side of a port, in words.
fn side_text(side: Side) -> &'static str {
    match side {
        Side::Inward => "input",
        Side::Outward => "output",
    }
}

fn named_text(alloc: Global, named: Named<'_>) -> Result<String, AllocError> {
    let (port, name, side) = (named.port, named.node.name.text(), side_text(named.side));
    match port_count(named) {
        0 => format!(in alloc; "port {port}: box {name} has no {side} port"),
        1 => format!(in alloc; "port {port}: box {name} has 1 {side} port, numbered from 0"),
        count => format!(in alloc;
            "port {port}: box {name} has {count} {side} ports, numbered from 0"
        ),
    }
}

/// Which port of a statement, the item of this site, its node does not have, and which it has.
pub(crate) fn port_text(
    alloc: Global,
    words: &[Word<'_>],
    site: u32,
    nodes: &[NodeDecl],
) -> Option<String> {
    named_text(alloc, absent_of(words, site, nodes)?).ok()
}
