//! The numbers that the items of a job have in its text, where it names tables.

ghost use Rattle.std.specs.Prelude.{◌≡◌, ◌+◌, ◌-◌, map, IfOk};
ghost use Rattle.sefl_syntax.specs.Views.{body_tree, decl_tree, port_tree};
ghost use Rattle.net_check.specs.Places.{codes_size, decl_size};
ghost use Rattle.fault_places.specs.Numbers.{inner_number, own_number};

use net_check::{behind_code, behind_item};
use sefl_syntax::{Body, NodeDecl, PortCode};
use sn_width::NoMemory;

/// The site behind codes, where this is that of the first.
fn behind_codes(first: u32, codes: &[PortCode]) -> Result<u32, NoMemory>
    ensures { IfOk result (λ end. end ≡ first + codes_size (map port_tree codes.now)) }
{
    let mut site = first;
    for port in codes {
        site = behind_code(behind_item(site)?, &port.code)?;
    }
    Ok(site)
}

/// The site behind a node and its codes, where this is that of the node.
pub fn behind_node(site: u32, node: &NodeDecl) -> Result<u32, NoMemory>
    ensures { IfOk result (λ end. end ≡ site + decl_size (decl_tree node.now)) }
{
    let first = behind_item(site)?;
    match &node.body {
        Body::Table { .. } => Ok(first),
        Body::Code(raw) => behind_codes(first, &raw.codes),
    }
}

/// The number of an item behind the first of its node: none where the node is a table in the text.
fn inner_number(own: &Body, place: u32) -> u32
    ensures { result ≡ inner_number (body_tree own.now) place }
{
    match own {
        Body::Code(_) => place,
        Body::Table { .. } => 0,
    }
}

/// The number in a job's text of the item that has this site in the job with code for its tables: an item of a table's
/// node is that node. The nodes are those of the text, and the same with their code.
pub fn own_number(site: u32, own: &[NodeDecl], filled: &[NodeDecl]) -> Result<u32, NoMemory>
    ensures { IfOk result (λ number. number ≡ own_number site (map decl_tree own.now) (map decl_tree filled.now)) }
{
    let mut number = 0;
    let mut begin = 0;
    for index in 0..filled.len() {
        if own.len() <= index {
            return sum(number, site.saturating_sub(begin));
        }
        let node = &own[index];
        let end = behind_node(begin, &filled[index])?;
        if site < end {
            return sum(number, inner_number(&node.body, site.saturating_sub(begin)));
        }
        number = behind_node(number, node)?;
        begin = end;
    }
    sum(number, site.saturating_sub(begin))
}

fn sum(first: u32, second: u32) -> Result<u32, NoMemory>
    ensures { IfOk result (λ number. number ≡ first + second) }
{
    first.checked_add(second).ok_or(NoMemory)
}
