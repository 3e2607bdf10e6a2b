//! Reads nodes and links.

ghost use Rattle.std.specs.Prelude.{◌≡◌, ◌||◌, map};
ghost use Rattle.sefl_syntax.specs.Views.{body_tree, decl_tree, net_tree, node_tree, port_tree};
ghost use Rattle.sefl_builder.specs.Reading.{Answers};
ghost use Rattle.sefl_builder.specs.Nets.{body, decl, goes_port_code, link, links, net, node, nodes, port_code, port_codes, side, spot, style, table, table_kind};

use crate::code::{MOST_OPEN, read_block};
use crate::cursor::Cursor;
use crate::misread::Misread;
use crate::version::Version;
use sefl_syntax::{Body, Link, Name, NodeDecl, PortCode, RawNet, RawNode, Side, Style, TableKind};

#[tactic(auto, unfolding(crate::specs::Nets::side))]
pub(crate) fn read_side(words: &mut Cursor) -> Result<Side, Misread>
    ensures { Answers (λ x. x) result words.new (side words.old) }
{
    if words.begins_with("in") {
        words.key("in")?;
        return Ok(Side::Inward);
    }
    words.key("out")?;
    Ok(Side::Outward)
}

/// Reads a node's name and a port of it.
#[tactic(auto, unfolding(crate::specs::Nets::spot))]
pub(crate) fn read_spot(words: &mut Cursor) -> Result<(Name, u32), Misread>
    ensures { Answers (λ x. x) result words.new (spot words.old) }
{
    let name = words.name()?;
    words.key(".")?;
    let port = words.port()?;
    Ok((name, port))
}

/// Reads the code of a port.
#[tactic(auto, unfolding(crate::specs::Nets::port_code))]
fn read_port_code(words: &mut Cursor, version: Version) -> Result<PortCode, Misread>
    ensures { Answers port_tree result words.new (port_code version words.old) }
{
    let side = read_side(words)?;
    let port = words.port()?;
    let code = read_block(words, version, MOST_OPEN)?;
    Ok(PortCode { side, port, code })
}

/// Whether the code of a port comes next.
fn goes_port_code(words: &Cursor) -> bool
    ensures { result ≡ goes_port_code words.now }
{
    words.begins_with("in") || words.begins_with("out")
}

/// Reads the codes of a node's ports.
#[tactic(auto, using(crate::proofs::Many::many_begin, crate::proofs::Many::many_stop, crate::proofs::Many::many_full, crate::proofs::Many::many_fails))]
fn read_port_codes(words: &mut Cursor, version: Version) -> Result<Vec<PortCode>, Misread>
    ensures { Answers (λ v. map port_tree v.items) result words.new (port_codes version words.old) }
{
    let mut found = Vec::new(words.alloc());
    for _ in 0..words.count() {
        if !goes_port_code(words) {
            return Ok(found);
        }
        let item = read_port_code(words, version)?;
        found.push(item)?;
    }
    Ok(found)
}

/// Reads the ports of a node, and their codes.
#[tactic(auto, unfolding(crate::specs::Nets::node))]
fn read_node(words: &mut Cursor, version: Version) -> Result<RawNode, Misread>
    ensures { Answers node_tree result words.new (node version words.old) }
{
    let ins = words.port()?;
    words.key("->")?;
    let outs = words.port()?;
    words.key("{")?;
    let codes = read_port_codes(words, version)?;
    words.key("}")?;
    Ok(RawNode { ins, outs, codes })
}

#[tactic(auto, unfolding(crate::specs::Nets::table_kind))]
fn read_table_kind(words: &mut Cursor) -> Result<TableKind, Misread>
    ensures { Answers (λ x. x) result words.new (table_kind words.old) }
{
    if words.begins_with("mac") {
        words.key("mac")?;
        return Ok(TableKind::Mac);
    }
    words.key("fib")?;
    Ok(TableKind::Fib)
}

#[tactic(auto, unfolding(crate::specs::Nets::style))]
fn read_style(words: &mut Cursor) -> Result<Style, Misread>
    ensures { Answers (λ x. x) result words.new (style words.old) }
{
    if words.begins_with("chain") {
        words.key("chain")?;
        return Ok(Style::Chain);
    }
    if words.begins_with("grouped") {
        words.key("grouped")?;
        return Ok(Style::Grouped);
    }
    words.key("egress")?;
    Ok(Style::Egress)
}

/// Reads what names a table file.
#[tactic(auto, unfolding(crate::specs::Nets::table))]
fn read_table(words: &mut Cursor) -> Result<Body, Misread>
    ensures { Answers body_tree result words.new (table words.old) }
{
    words.key("=")?;
    let kind = read_table_kind(words)?;
    let file = words.text()?;
    let style = read_style(words)?;
    words.key(";")?;
    Ok(Body::Table { kind, file, style })
}

/// Reads what a node is made of.
#[tactic(auto, unfolding(crate::specs::Nets::body))]
fn read_body(words: &mut Cursor, version: Version) -> Result<Body, Misread>
    ensures { Answers body_tree result words.new (body version words.old) }
{
    if !words.begins_number() {
        return read_table(words);
    }
    let node = read_node(words, version)?;
    Ok(Body::Code(node))
}

#[tactic(auto, unfolding(crate::specs::Nets::decl))]
fn read_decl(words: &mut Cursor, version: Version) -> Result<NodeDecl, Misread>
    ensures { Answers decl_tree result words.new (decl version words.old) }
{
    words.key("node")?;
    let name = words.name()?;
    let body = read_body(words, version)?;
    Ok(NodeDecl { name, body })
}

/// Reads the nodes.
#[tactic(auto, using(crate::proofs::Many::many_begin, crate::proofs::Many::many_stop, crate::proofs::Many::many_full, crate::proofs::Many::many_fails))]
fn read_nodes(words: &mut Cursor, version: Version) -> Result<Vec<NodeDecl>, Misread>
    ensures { Answers (λ v. map decl_tree v.items) result words.new (nodes version words.old) }
{
    let mut found = Vec::new(words.alloc());
    for _ in 0..words.count() {
        if !words.begins_with("node") {
            return Ok(found);
        }
        let item = read_decl(words, version)?;
        found.push(item)?;
    }
    Ok(found)
}

#[tactic(auto, unfolding(crate::specs::Nets::link))]
fn read_link(words: &mut Cursor) -> Result<Link, Misread>
    ensures { Answers (λ x. x) result words.new (link words.old) }
{
    words.key("link")?;
    let (from, from_port) = read_spot(words)?;
    words.key("->")?;
    let (to, to_port) = read_spot(words)?;
    words.key(";")?;
    Ok(Link {
        from,
        from_port,
        to,
        to_port,
    })
}

/// Reads the links.
#[tactic(auto, using(crate::proofs::Many::many_begin, crate::proofs::Many::many_stop, crate::proofs::Many::many_full, crate::proofs::Many::many_fails))]
fn read_links(words: &mut Cursor) -> Result<Vec<Link>, Misread>
    ensures { Answers (λ v. v.items) result words.new (links words.old) }
{
    let mut found = Vec::new(words.alloc());
    for _ in 0..words.count() {
        if !words.begins_with("link") {
            return Ok(found);
        }
        let item = read_link(words)?;
        found.push(item)?;
    }
    Ok(found)
}

/// Reads the nodes and the links.
#[tactic(auto, unfolding(crate::specs::Nets::net))]
pub(crate) fn read_net(words: &mut Cursor, version: Version) -> Result<RawNet, Misread>
    ensures { Answers net_tree result words.new (net version words.old) }
{
    let nodes = read_nodes(words, version)?;
    let links = read_links(words)?;
    Ok(RawNet { nodes, links })
}
