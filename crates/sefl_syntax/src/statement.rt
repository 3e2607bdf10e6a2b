//! The texts of instructions that have no blocks.

ghost use Rattle.std.specs.Prelude.{◌≡◌, ◌++◌, OnOk, string_bytes, codes, decimal};
ghost use Rattle.sefl_syntax.specs.CodeText.{word_text, equation_text, quoted, ports_text, fork_text, statement_text};
ghost use Rattle.sefl_syntax.specs.TermText.{addr_text, target_text, expr_text, cond_text};
ghost use Rattle.sefl_syntax.specs.Views.{expr_tree, cond_tree, instr_tree};

use crate::cond::{Cond, write_cond};
use crate::expr::{Expr, write_expr};
use crate::instr::Instr;
use crate::name::Name;
use crate::reference::{Addr, Target};
use crate::text::Text;
use std::alloc::AllocError;
use std::fmt::Write;

/// Appends an instruction that has no block.
pub(crate) fn write_statement(out: &mut String, instr: &Instr) -> Result<(), AllocError>
    ensures { OnOk result (string_bytes out.new ≡ string_bytes out.old
        ++ statement_text (instr_tree instr.now)) }
{
    match instr {
        Instr::Allocate(target) => write_cell(out, "allocate", target),
        Instr::Deallocate(target) => write_cell(out, "deallocate", target),
        Instr::Assign { target, value } => write_assign(out, target, value),
        Instr::AssignAny(target) => write_assign_any(out, target),
        Instr::CreateTag { name, addr } => write_tag(out, "tag", name, addr),
        Instr::SetTag { name, addr } => write_tag(out, "retag", name, addr),
        Instr::DestroyTag(name) => write_untag(out, name),
        Instr::Constrain(test) => write_constrain(out, test),
        Instr::Fail(text) => write_fail(out, text),
        Instr::Forward(port) => write_forward(out, *port),
        Instr::Fork(ports) => write_fork(out, ports),
        Instr::NoOp => out.push_str("noop;"),
        Instr::If { .. } | Instr::For { .. } | Instr::Block(_) => Ok(()),
    }
}

#[tactic(auto, unfolding(crate::specs::CodeText::word_text))]
fn write_cell(out: &mut String, word: &str, target: &Target) -> Result<(), AllocError>
    ensures { OnOk result (string_bytes out.new ≡ string_bytes out.old
        ++ word_text word.now (target_text target.now)) }
{
    write!(out, "{word} {target};")
}

#[tactic(auto, unfolding(crate::specs::CodeText::equation_text))]
fn write_assign(out: &mut String, target: &Target, value: &Expr) -> Result<(), AllocError>
    ensures { OnOk result (string_bytes out.new ≡ string_bytes out.old
        ++ equation_text (codes "set") (target_text target.now) (expr_text (expr_tree value.now))) }
{
    write!(out, "set {target} = ")?;
    write_expr(out, value)?;
    out.push_str(";")
}

#[tactic(auto, unfolding(crate::specs::CodeText::equation_text))]
fn write_assign_any(out: &mut String, target: &Target) -> Result<(), AllocError>
    ensures { OnOk result (string_bytes out.new ≡ string_bytes out.old
        ++ equation_text (codes "set") (target_text target.now) (codes "any")) }
{
    write!(out, "set {target} = any;")
}

#[tactic(auto, unfolding(crate::specs::CodeText::equation_text))]
fn write_tag(out: &mut String, word: &str, name: &Name, addr: &Addr) -> Result<(), AllocError>
    ensures { OnOk result (string_bytes out.new ≡ string_bytes out.old
        ++ equation_text word.now name.now (addr_text addr.now)) }
{
    write!(out, "{word} {name} = {addr};")
}

#[tactic(auto, unfolding(crate::specs::CodeText::word_text))]
fn write_untag(out: &mut String, name: &Name) -> Result<(), AllocError>
    ensures { OnOk result (string_bytes out.new ≡ string_bytes out.old
        ++ word_text (codes "untag") name.now) }
{
    write!(out, "untag {name};")
}

#[tactic(auto, unfolding(crate::specs::CodeText::word_text))]
fn write_constrain(out: &mut String, test: &Cond) -> Result<(), AllocError>
    ensures { OnOk result (string_bytes out.new ≡ string_bytes out.old
        ++ word_text (codes "constrain") (cond_text (cond_tree test.now))) }
{
    out.push_str("constrain ")?;
    write_cond(out, test)?;
    out.push_str(";")
}

#[tactic(auto, unfolding(crate::specs::CodeText::word_text, crate::specs::CodeText::quoted))]
fn write_fail(out: &mut String, text: &Text) -> Result<(), AllocError>
    ensures { OnOk result (string_bytes out.new ≡ string_bytes out.old
        ++ word_text (codes "fail") (quoted text.now)) }
{
    write!(out, "fail \"{text}\";")
}

#[tactic(auto, unfolding(crate::specs::CodeText::word_text))]
fn write_forward(out: &mut String, port: u32) -> Result<(), AllocError>
    ensures { OnOk result (string_bytes out.new ≡ string_bytes out.old
        ++ word_text (codes "forward") (decimal port)) }
{
    write!(out, "forward {port};")
}

#[tactic(auto, unfolding(crate::specs::CodeText::fork_text))]
fn write_fork(out: &mut String, ports: &[u32]) -> Result<(), AllocError>
    ensures { OnOk result (string_bytes out.new ≡ string_bytes out.old ++ fork_text ports.now) }
{
    out.push_str("fork")?;
    write_ports(out, ports)?;
    out.push_str(";")
}

/// Appends port numbers with commas between them, behind a blank where there are any.
fn write_ports(out: &mut String, ports: &[u32]) -> Result<(), AllocError>
    ensures { OnOk result (string_bytes out.new ≡ string_bytes out.old ++ ports_text ports.now) }
{
    let [first, rest @ ..] = ports else {
        return Ok(());
    };
    write!(out, " {first}")?;
    for port in rest {
        write!(out, ", {port}")?;
    }
    Ok(())
}
