//! The nets of configurations.

ghost use Rattle.std.specs.Prelude.{◌≡◌, ℕ, bytes_eq, List, map, unwrap_or, if◌then◌else◌, IfOk, OnOk};
ghost use Rattle.std.specs.Map.{lookup};
ghost use Rattle.sefl_syntax.specs.Views.{decl_tree, net_tree};
ghost use Rattle.click_model.specs.Declarations.{seen_element};
ghost use Rattle.click_model.specs.Nets as nets;

use crate::config::ClickConfig;
use crate::element::Element;
use click_elements::{Leads, class_node};
use sefl_syntax::{Body, Link, Name, NodeDecl, RawNet};
use sn_width::NoMemory;
use std::alloc::Global;
use std::collections::BTreeMap;

/// The outputs of a Tee without an argument are below this number.
const MOST_OUTPUTS: u32 = 1024;

/// One output more that is connected.
fn with_port(leads: Leads, port: u32) -> Leads
    ensures { result ≡ nets.with_port leads port }
{
    let second = leads.second || port == 1;
    if port >= MOST_OUTPUTS {
        let widest = leads.widest;
        return Leads { second, widest };
    }
    let widest = if leads.widest < port + 1 {
        port + 1
    } else {
        leads.widest
    };
    Leads { second, widest }
}

fn leads_at(leads: &BTreeMap<Name, Leads>, name: &Name) -> Option<Leads>
    ensures { result ≡ lookup (bytes_eq name.now) leads.now.entries }
{
    leads.get(name).copied()
}

/// What is connected of the outputs of the element with that name.
fn leads_of(leads: &BTreeMap<Name, Leads>, name: &Name) -> Leads
    ensures { result ≡ unwrap_or (lookup (bytes_eq name.now) leads.now.entries) nets.no_leads }
{
    match leads_at(leads, name) {
        Some(leads) => leads,
        None => Leads {
            second: false,
            widest: 0,
        },
    }
}

/// Notes the output that a link leaves by.
fn note(leads: &mut BTreeMap<Name, Leads>, link: &Link) -> Result<(), NoMemory>
    ensures { OnOk result ((name : List ℕ) → unwrap_or (lookup (bytes_eq name) leads.new.entries) nets.no_leads
        ≡ (if bytes_eq link.now.from name then nets.with_port
        (unwrap_or (lookup (bytes_eq name) leads.old.entries) nets.no_leads) link.now.from_port
        else unwrap_or (lookup (bytes_eq name) leads.old.entries) nets.no_leads)) }
{
    let more = with_port(leads_of(leads, &link.from), link.from_port);
    let name = link.from.clone()?;
    leads.insert(name, more)?;
    Ok(())
}

/// What is connected of the outputs of each element.
fn all_leads(alloc: Global, links: &[Link]) -> Result<BTreeMap<Name, Leads>, NoMemory>
    ensures { IfOk result (λ leads. (name : List ℕ)
        → unwrap_or (lookup (bytes_eq name) leads.entries) nets.no_leads ≡ nets.leads_of name links.now) }
{
    let mut leads = BTreeMap::new(alloc);
    for link in links {
        note(&mut leads, link)?;
    }
    Ok(leads)
}

fn copy_of(link: &Link) -> Result<Link, NoMemory>
    ensures { IfOk result (λ copy. copy ≡ link.now) }
{
    let from = link.from.clone()?;
    let to = link.to.clone()?;
    Ok(Link {
        from,
        from_port: link.from_port,
        to,
        to_port: link.to_port,
    })
}

fn copies_of(alloc: Global, links: &[Link]) -> Result<Vec<Link>, NoMemory>
    ensures { IfOk result (λ copies. copies.items ≡ links.now) }
{
    let mut copies = Vec::new(alloc);
    for link in links {
        copies.push(copy_of(link)?)?;
    }
    Ok(copies)
}

fn decl_of(alloc: Global, element: &Element, leads: Leads) -> Result<NodeDecl, NoMemory>
    ensures { IfOk result (λ decl. decl_tree decl ≡ nets.decl_with leads (seen_element element.now)) }
{
    let name = element.name.clone()?;
    let node = class_node(alloc, &element.class, leads)?;
    Ok(NodeDecl {
        name,
        body: Body::Code(node),
    })
}

/// The nodes of elements.
fn decls_of(alloc: Global, elements: &[Element], links: &[Link]) -> Result<Vec<NodeDecl>, NoMemory>
    ensures { IfOk result (λ decls. map decl_tree decls.items
        ≡ map (nets.element_decl links.now) (map seen_element elements.now)) }
{
    let leads = all_leads(alloc, links)?;
    let mut decls = Vec::new(alloc);
    for element in elements {
        decls.push(decl_of(alloc, element, leads_of(&leads, &element.name))?)?;
    }
    Ok(decls)
}

/// The net of a configuration: a node for each element, in the order of declaration, and a link for
/// each connection, in their order.
pub fn click_net(alloc: Global, config: &ClickConfig) -> Result<RawNet, NoMemory>
    ensures { IfOk result (λ net. net_tree net ≡ nets.click_net config.now) }
{
    let nodes = decls_of(alloc, &config.elements, &config.connections)?;
    let links = copies_of(alloc, &config.connections)?;
    Ok(RawNet { nodes, links })
}
