//! The code of the input of elements, but of mirrors and filters.

ghost use Rattle.std.specs.Prelude.{◌≡◌, ◌++◌, [], ◌∷◌, map, IfOk, OnOk};
ghost use Rattle.sefl_syntax.specs.Trees.{allocate, assign, constant, deallocate, forward};
ghost use Rattle.sefl_syntax.specs.Views.{code_tree, instr_tree, expr_tree, cond_tree};
ghost use Rattle.table_nodes.specs.TableNodes.{alone};
ghost use Rattle.table_nodes.specs.Fields.{cell};
ghost use Rattle.click_elements.specs.Codes.{drop_instr, drop_code, forward_code, tee_code, is_expired, one_less, lowered_code, expired_code, dec_ip_ttl_code, untagging, strip_code, frame_tag, new_cell, ether_encap_code};

use sefl_syntax::{Addr, Cond, Expr, Instr, Sign, Text};
use sn_width::{NoMemory, Num, Rel};
use std::alloc::Global;
use table_nodes::{Field, cell, named, to_all};

pub(crate) fn one_instr(alloc: Global, instr: Instr) -> Result<Vec<Instr>, NoMemory>
    ensures { IfOk result (λ code. code_tree code.items ≡ alone (instr_tree instr)) }
{
    Ok(vec![in alloc; instr]?)
}

/// Adds an instruction. Functions that write code hold none themselves: it would have to be dropped where a later call fails.
pub(crate) fn add(code: &mut Vec<Instr>, instr: Instr) -> Result<(), NoMemory>
    ensures { OnOk result (map instr_tree code.new.items ≡ map instr_tree code.old.items ++ instr_tree instr ∷ []) }
{
    code.push(instr)?;
    Ok(())
}

/// Adds that packets leave by an output.
pub(crate) fn add_forward(code: &mut Vec<Instr>, port: u32) -> Result<(), NoMemory>
    ensures { OnOk result (map instr_tree code.new.items ≡ map instr_tree code.old.items ++ forward port ∷ []) }
{
    code.push(Instr::Forward(port))?;
    Ok(())
}

pub(crate) fn dropped(alloc: Global) -> Result<Instr, NoMemory>
    ensures { IfOk result (λ instr. instr_tree instr ≡ drop_instr) }
{
    Ok(Instr::Fail(Text::of(alloc, "drop")?))
}

/// All packets are dropped.
pub(crate) fn drop_code(alloc: Global) -> Result<Vec<Instr>, NoMemory>
    ensures { IfOk result (λ code. code_tree code.items ≡ drop_code) }
{
    one_instr(alloc, dropped(alloc)?)
}

pub(crate) fn forward_code(alloc: Global, port: u32) -> Result<Vec<Instr>, NoMemory>
    ensures { IfOk result (λ code. code_tree code.items ≡ forward_code port) }
{
    one_instr(alloc, Instr::Forward(port))
}

/// An equal copy to each output.
pub(crate) fn tee_code(alloc: Global, outputs: u32) -> Result<Vec<Instr>, NoMemory>
    ensures { IfOk result (λ code. code_tree code.items ≡ tee_code outputs) }
{
    one_instr(alloc, to_all(alloc, outputs)?)
}

/// Whether the time to live is over.
fn is_expired(alloc: Global) -> Result<Cond, NoMemory>
    ensures { IfOk result (λ test. cond_tree test ≡ is_expired) }
{
    let left = Expr::Read(cell(alloc, Field::TimeToLive)?);
    let right = Expr::Const(1);
    Ok(Cond::Compare {
        rel: Rel::Le,
        left,
        right,
    })
}

/// The time to live less 1.
fn one_less(alloc: Global) -> Result<Expr, NoMemory>
    ensures { IfOk result (λ value. expr_tree value ≡ one_less) }
{
    let first = Box::new(alloc, Expr::Read(cell(alloc, Field::TimeToLive)?))?;
    let mut rest = Vec::new(alloc);
    rest.push((Sign::Minus, Expr::Const(1)))?;
    Ok(Expr::Sum { first, rest })
}

fn lowered_code(alloc: Global) -> Result<Vec<Instr>, NoMemory>
    ensures { IfOk result (λ code. code_tree code.items ≡ lowered_code) }
{
    let target = cell(alloc, Field::TimeToLive)?;
    let value = one_less(alloc)?;
    let mut code = Vec::new(alloc);
    code.push(Instr::Assign { target, value })?;
    code.push(Instr::Forward(0))?;
    Ok(code)
}

fn expired_code(alloc: Global, connected: bool) -> Result<Vec<Instr>, NoMemory>
    ensures { IfOk result (λ code. code_tree code.items ≡ expired_code connected) }
{
    if connected {
        forward_code(alloc, 1)
    } else {
        drop_code(alloc)
    }
}

/// A packet whose time to live is over leaves by output 1 if that is connected, and is dropped if
/// not; the others leave by output 0, with a time to live that is less by 1.
pub(crate) fn dec_ip_ttl_code(alloc: Global, connected: bool) -> Result<Vec<Instr>, NoMemory>
    ensures { IfOk result (λ code. code_tree code.items ≡ dec_ip_ttl_code connected) }
{
    let test = is_expired(alloc)?;
    let first = expired_code(alloc, connected)?;
    let other = lowered_code(alloc)?;
    one_instr(alloc, Instr::If { test, first, other })
}

/// Adds that the cell of a field is removed.
fn add_removal(code: &mut Vec<Instr>, alloc: Global, field: Field) -> Result<(), NoMemory>
    ensures { OnOk result (map instr_tree code.new.items
        ≡ map instr_tree code.old.items ++ deallocate (cell field) ∷ []) }
{
    add(code, Instr::Deallocate(cell(alloc, field)?))
}

/// Adds that the tag of Ethernet is removed.
fn add_untagging(code: &mut Vec<Instr>, alloc: Global) -> Result<(), NoMemory>
    ensures { OnOk result (map instr_tree code.new.items ≡ map instr_tree code.old.items ++ untagging ∷ []) }
{
    add(code, Instr::DestroyTag(named(alloc, "L2")?))
}

/// Removes the cells of an Ethernet header, and its tag.
pub(crate) fn strip_code(alloc: Global) -> Result<Vec<Instr>, NoMemory>
    ensures { IfOk result (λ code. code_tree code.items ≡ strip_code) }
{
    let mut code = Vec::new(alloc);
    add_removal(&mut code, alloc, Field::FrameDestination)?;
    add_removal(&mut code, alloc, Field::FrameSource)?;
    add_removal(&mut code, alloc, Field::FrameType)?;
    add_untagging(&mut code, alloc)?;
    add_forward(&mut code, 0)?;
    Ok(code)
}

/// Puts the tag of Ethernet where its header before that of IP begins.
fn frame_tag(alloc: Global) -> Result<Instr, NoMemory>
    ensures { IfOk result (λ instr. instr_tree instr ≡ frame_tag) }
{
    let name = named(alloc, "L2")?;
    let addr = Addr {
        tag: Some(named(alloc, "L3")?),
        offset: -112,
    };
    Ok(Instr::SetTag { name, addr })
}

fn room(alloc: Global, field: Field) -> Result<Instr, NoMemory>
    ensures { IfOk result (λ instr. instr_tree instr ≡ allocate (cell field)) }
{
    Ok(Instr::Allocate(cell(alloc, field)?))
}

/// Sets a field.
fn set(alloc: Global, field: Field, number: Num) -> Result<Instr, NoMemory>
    ensures { IfOk result (λ instr. instr_tree instr ≡ assign (cell field) (constant number)) }
{
    let target = cell(alloc, field)?;
    let value = Expr::Const(number);
    Ok(Instr::Assign { target, value })
}

/// Adds a new cell of a field, with a value.
fn add_cell(code: &mut Vec<Instr>, alloc: Global, field: Field, number: Num) -> Result<(), NoMemory>
    ensures { OnOk result (map instr_tree code.new.items ≡ map instr_tree code.old.items ++ new_cell field number) }
{
    add(code, room(alloc, field)?)?;
    add(code, set(alloc, field, number)?)?;
    Ok(())
}

/// Puts an Ethernet header before that of IP.
pub(crate) fn ether_encap_code(
    alloc: Global,
    kind: Num,
    source: Num,
    destination: Num,
) -> Result<Vec<Instr>, NoMemory>
    ensures { IfOk result (λ code. code_tree code.items ≡ ether_encap_code kind source destination) }
{
    let mut code = Vec::new(alloc);
    add(&mut code, frame_tag(alloc)?)?;
    add_cell(&mut code, alloc, Field::FrameDestination, destination)?;
    add_cell(&mut code, alloc, Field::FrameSource, source)?;
    add_cell(&mut code, alloc, Field::FrameType, kind)?;
    add_forward(&mut code, 0)?;
    Ok(code)
}
