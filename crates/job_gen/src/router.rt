//! The boxes: each sends the addresses below its cut by port 0 and the others by port 1.

ghost use Rattle.std.specs.Prelude.{◌≡◌, ℕ, [], ◌∷◌, codes, pos, IfOk};
ghost use Rattle.sefl_syntax.specs.Trees as tree;
ghost use Rattle.sefl_syntax.specs.Views.{cond_tree, instr_tree, node_tree, port_tree};
ghost use Rattle.job_gen.specs.Grown.{choosing, counting, destination, dying, header, input, output, router, time_to_live};

use sefl_syntax::{Addr, Cond, Expr, Instr, Name, PortCode, RawNode, Side, Sign, Target, Text};
use sn_width::{NoMemory, Num, Rel, Width};
use std::alloc::Global;

/// The tag of IP headers.
pub(crate) fn network_layer(alloc: Global) -> Result<Name, NoMemory>
    ensures { IfOk result (λ name. name ≡ codes "L3") }
{
    let Some(name) = Name::of(alloc, "L3")? else {
        unreachable!();
    };
    Ok(name)
}

/// A field of the IPv4 header (RFC 791): its offset in bits, and its width.
fn header(alloc: Global, offset: i32, width: Width) -> Result<Target, NoMemory>
    ensures { IfOk result (λ target. (bits : ℕ) → offset ≡ pos bits → target ≡ header bits width) }
{
    let addr = Addr {
        tag: Some(network_layer(alloc)?),
        offset,
    };
    Ok(Target::Header { addr, width })
}

pub(crate) fn time_to_live(alloc: Global) -> Result<Target, NoMemory>
    ensures { IfOk result (λ target. target ≡ time_to_live) }
{
    let Some(width) = Width::new(8) else {
        unreachable!();
    };
    header(alloc, 64, width)
}

pub(crate) fn destination(alloc: Global) -> Result<Target, NoMemory>
    ensures { IfOk result (λ target. target ≡ destination) }
{
    let Some(width) = Width::new(32) else {
        unreachable!();
    };
    header(alloc, 128, width)
}

fn one(alloc: Global, instr: Instr) -> Result<Vec<Instr>, NoMemory>
    ensures { IfOk result (λ code. code.items ≡ instr ∷ []) }
{
    let mut code = Vec::new(alloc);
    code.push(instr)?;
    Ok(code)
}

/// How the destination compares with the cut.
fn compared(alloc: Global, rel: Rel, cut: u64) -> Result<Cond, NoMemory>
    ensures { IfOk result (λ test. cond_tree test ≡ tree.compare rel (tree.reading destination) (tree.constant cut)) }
{
    let left = Expr::Read(destination(alloc)?);
    let right = Expr::Const(Num::from(cut));
    Ok(Cond::Compare { rel, left, right })
}

fn dying(alloc: Global) -> Result<Instr, NoMemory>
    ensures { IfOk result (λ i. instr_tree i ≡ dying) }
{
    let left = Expr::Read(time_to_live(alloc)?);
    let right = Expr::Const(1);
    let first = one(alloc, Instr::Fail(Text::of(alloc, "ttl")?))?;
    Ok(Instr::If {
        test: Cond::Compare {
            rel: Rel::Le,
            left,
            right,
        },
        first,
        other: Vec::new(alloc),
    })
}

fn counting(alloc: Global) -> Result<Instr, NoMemory>
    ensures { IfOk result (λ i. instr_tree i ≡ counting) }
{
    let first = Box::new(alloc, Expr::Read(time_to_live(alloc)?))?;
    let mut rest = Vec::new(alloc);
    rest.push((Sign::Minus, Expr::Const(1)))?;
    Ok(Instr::Assign {
        target: time_to_live(alloc)?,
        value: Expr::Sum { first, rest },
    })
}

fn choosing(alloc: Global, cut: u64) -> Result<Instr, NoMemory>
    ensures { IfOk result (λ i. instr_tree i ≡ choosing cut) }
{
    let test = compared(alloc, Rel::Lt, cut)?;
    let first = one(alloc, Instr::Forward(0))?;
    let other = one(alloc, Instr::Forward(1))?;
    Ok(Instr::If { test, first, other })
}

fn input(alloc: Global, cut: u64) -> Result<PortCode, NoMemory>
    ensures { IfOk result (λ code. port_tree code ≡ input cut) }
{
    let mut code = Vec::new(alloc);
    code.push(dying(alloc)?)?;
    code.push(counting(alloc)?)?;
    code.push(choosing(alloc, cut)?)?;
    Ok(PortCode {
        side: Side::Inward,
        port: 0,
        code,
    })
}

fn output(alloc: Global, port: u32, test: Cond) -> Result<PortCode, NoMemory>
    ensures { IfOk result (λ code. port_tree code ≡ output port (cond_tree test)) }
{
    let code = one(alloc, Instr::Constrain(test))?;
    Ok(PortCode {
        side: Side::Outward,
        port,
        code,
    })
}

/// The box with this cut.
pub(crate) fn router(alloc: Global, cut: u64) -> Result<RawNode, NoMemory>
    ensures { IfOk result (λ node. node_tree node ≡ router cut) }
{
    let mut codes = Vec::new(alloc);
    codes.push(input(alloc, cut)?)?;
    codes.push(output(alloc, 0, compared(alloc, Rel::Lt, cut)?)?)?;
    codes.push(output(alloc, 1, compared(alloc, Rel::Ge, cut)?)?)?;
    Ok(RawNode {
        ins: 1,
        outs: 2,
        codes,
    })
}
