//! The code of elements that exchange fields.

ghost use Rattle.std.specs.Prelude.{◌≡◌, ◌≤◌, IsTrue, map, IfOk};
ghost use Rattle.sefl_syntax.specs.Name.{is_name};
ghost use Rattle.sefl_syntax.specs.Trees.{assign, reading};
ghost use Rattle.sefl_syntax.specs.Views.{code_tree, instr_tree};
ghost use Rattle.click_elements.specs.Codes.{first_field, second_field, between, swap_list, ether_mirror_code, mirrored_ports, ip_mirror_code};

use crate::code::{add, add_forward};
use crate::pattern::is_ported;
use sefl_syntax::{Expr, Instr, Scope, Target};
use sn_width::NoMemory;
use std::alloc::Global;
use table_nodes::{Field, cell, named, width_of};

/// Two fields that are exchanged.
#[derive(Clone, Copy)]
pub enum Swap {
    FrameAddresses,
    Addresses,
    Ports,
}

fn first_field(swap: Swap) -> Field
    ensures { result ≡ first_field swap }
{
    match swap {
        Swap::FrameAddresses => Field::FrameDestination,
        Swap::Addresses => Field::SourceAddress,
        Swap::Ports => Field::SourcePort,
    }
}

fn second_field(swap: Swap) -> Field
    ensures { result ≡ second_field swap }
{
    match swap {
        Swap::FrameAddresses => Field::FrameSource,
        Swap::Addresses => Field::DestinationAddress,
        Swap::Ports => Field::DestinationPort,
    }
}

fn local(alloc: Global, text: &str, bits: u8) -> Result<Target, NoMemory>
    requires name { IsTrue (is_name text.now) }
    requires least { 1 ≤ bits }
    requires most { bits ≤ 128 }
    ensures { IfOk result (λ target. target ≡ Target.Meta Scope.Local text.now bits) }
{
    Ok(Target::Meta {
        scope: Scope::Local,
        name: named(alloc, text)?,
        width: width_of(bits),
    })
}

/// The local through which the fields are exchanged.
fn between(alloc: Global, swap: Swap) -> Result<Target, NoMemory>
    ensures { IfOk result (λ target. target ≡ between swap) }
{
    match swap {
        Swap::FrameAddresses => local(alloc, "m48", 48),
        Swap::Addresses => local(alloc, "m32", 32),
        Swap::Ports => local(alloc, "m16", 16),
    }
}

fn copied(to: Target, from: Target) -> Instr
    ensures { instr_tree result ≡ assign to (reading from) }
{
    Instr::Assign {
        target: to,
        value: Expr::Read(from),
    }
}

/// The five instructions of an exchange.
fn swap_list(alloc: Global, swap: Swap) -> Result<Vec<Instr>, NoMemory>
    ensures { IfOk result (λ code. map instr_tree code.items ≡ swap_list swap) }
{
    let first = first_field(swap);
    let second = second_field(swap);
    let room = between(alloc, swap)?;
    let kept = copied(between(alloc, swap)?, cell(alloc, first)?);
    let one = copied(cell(alloc, first)?, cell(alloc, second)?);
    let other = copied(cell(alloc, second)?, between(alloc, swap)?);
    let gone = between(alloc, swap)?;
    let mut code = Vec::new(alloc);
    code.push(Instr::Allocate(room))?;
    code.push(kept)?;
    code.push(one)?;
    code.push(other)?;
    code.push(Instr::Deallocate(gone))?;
    Ok(code)
}

/// Exchanges the addresses of the Ethernet header.
pub(crate) fn ether_mirror_code(alloc: Global) -> Result<Vec<Instr>, NoMemory>
    ensures { IfOk result (λ code. code_tree code.items ≡ ether_mirror_code) }
{
    let mut code = swap_list(alloc, Swap::FrameAddresses)?;
    add_forward(&mut code, 0)?;
    Ok(code)
}

/// Exchanges the ports, where the protocol has ports.
fn mirrored_ports(alloc: Global) -> Result<Instr, NoMemory>
    ensures { IfOk result (λ instr. instr_tree instr ≡ mirrored_ports) }
{
    let test = is_ported(alloc)?;
    let first = swap_list(alloc, Swap::Ports)?;
    let other = Vec::new(alloc);
    Ok(Instr::If { test, first, other })
}

/// Exchanges the addresses of the IP header, and the ports where the protocol has ports.
pub(crate) fn ip_mirror_code(alloc: Global) -> Result<Vec<Instr>, NoMemory>
    ensures { IfOk result (λ code. code_tree code.items ≡ ip_mirror_code) }
{
    let mut code = swap_list(alloc, Swap::Addresses)?;
    add(&mut code, mirrored_ports(alloc)?)?;
    add_forward(&mut code, 0)?;
    Ok(code)
}
