//! The texts of instructions, line by line.

ghost use Rattle.std.specs.Prelude.{◌≡◌, ◌++◌, OnOk, string_bytes};
ghost use Rattle.sefl_syntax.specs.CodeText.{block_end, block_heading, between_blocks, code_text, deeper, for_heading, if_heading, instr_text, line_text, statement_text};
ghost use Rattle.sefl_syntax.specs.Views.{cond_tree, instr_tree, code_tree};

use crate::cond::{Cond, write_cond};
use crate::instr::Instr;
use crate::name::Name;
use crate::statement::write_statement;
use crate::text::Text;
use std::alloc::AllocError;
use std::fmt::Write;

/// Appends instructions, each on a line of its own behind the indentation.
#[cycle(write_code)]
pub(crate) fn write_code(out: &mut String, indent: &str, code: &[Instr]) -> Result<(), AllocError>
    ensures { OnOk result (string_bytes out.new ≡ string_bytes out.old
        ++ code_text indent.now (code_tree code.now)) }
{
    for instr in code {
        write_instr(out, indent, instr)?;
    }
    Ok(())
}

/// Appends the lines of an instruction.
#[cycle(write_code)]
fn write_instr(out: &mut String, indent: &str, instr: &Instr) -> Result<(), AllocError>
    ensures { OnOk result (string_bytes out.new ≡ string_bytes out.old
        ++ instr_text indent.now (instr_tree instr.now)) }
{
    match instr {
        Instr::If { test, first, other } => {
            write_if(out, indent, test)?;
            write_deeper(out, indent, first)?;
            write_else(out, indent)?;
            write_deeper(out, indent, other)?;
            write_end(out, indent)
        }
        Instr::For { var, pattern, body } => {
            write_for(out, indent, var, pattern)?;
            write_deeper(out, indent, body)?;
            write_end(out, indent)
        }
        Instr::Block(body) => {
            write_block(out, indent)?;
            write_deeper(out, indent, body)?;
            write_end(out, indent)
        }
        statement => write_line(out, indent, statement),
    }
}

/// Appends the instructions of a block.
#[tactic(auto, unfolding(crate::specs::CodeText::deeper))]
#[cycle(write_code)]
fn write_deeper(out: &mut String, indent: &str, code: &[Instr]) -> Result<(), AllocError>
    ensures { OnOk result (string_bytes out.new ≡ string_bytes out.old
        ++ code_text (deeper indent.now) (code_tree code.now)) }
{
    let indent = format!(in *out.allocator(); "{indent}  ")?;
    write_code(out, &indent, code)
}

#[tactic(auto, unfolding(crate::specs::CodeText::if_heading))]
fn write_if(out: &mut String, indent: &str, test: &Cond) -> Result<(), AllocError>
    ensures { OnOk result (string_bytes out.new ≡ string_bytes out.old
        ++ if_heading indent.now (cond_tree test.now)) }
{
    write!(out, "{indent}if ")?;
    write_cond(out, test)?;
    out.push_str(" {\n")
}

#[tactic(auto, unfolding(crate::specs::CodeText::between_blocks))]
fn write_else(out: &mut String, indent: &str) -> Result<(), AllocError>
    ensures { OnOk result (string_bytes out.new ≡ string_bytes out.old
        ++ between_blocks indent.now) }
{
    write!(out, "{indent}}} else {{\n")
}

#[tactic(auto, unfolding(crate::specs::CodeText::for_heading, crate::specs::CodeText::quoted))]
fn write_for(out: &mut String, indent: &str, var: &Name, pattern: &Text) -> Result<(), AllocError>
    ensures { OnOk result (string_bytes out.new ≡ string_bytes out.old
        ++ for_heading indent.now var.now pattern.now) }
{
    write!(out, "{indent}for {var} in \"{pattern}\" {{\n")
}

#[tactic(auto, unfolding(crate::specs::CodeText::block_heading))]
fn write_block(out: &mut String, indent: &str) -> Result<(), AllocError>
    ensures { OnOk result (string_bytes out.new ≡ string_bytes out.old
        ++ block_heading indent.now) }
{
    write!(out, "{indent}{{\n")
}

#[tactic(auto, unfolding(crate::specs::CodeText::block_end))]
fn write_end(out: &mut String, indent: &str) -> Result<(), AllocError>
    ensures { OnOk result (string_bytes out.new ≡ string_bytes out.old ++ block_end indent.now) }
{
    write!(out, "{indent}}}\n")
}

/// Appends the line of an instruction that has no block.
#[tactic(auto, unfolding(crate::specs::CodeText::line_text))]
fn write_line(out: &mut String, indent: &str, instr: &Instr) -> Result<(), AllocError>
    ensures { OnOk result (string_bytes out.new ≡ string_bytes out.old
        ++ line_text indent.now (statement_text (instr_tree instr.now))) }
{
    out.push_str(indent)?;
    write_statement(out, instr)?;
    out.push_str("\n")
}
