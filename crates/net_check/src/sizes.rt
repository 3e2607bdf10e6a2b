//! How many items there are.

ghost use Rattle.std.specs.Prelude.{◌≡◌, ◌+◌, IfOk};
ghost use Rattle.sefl_syntax.specs.Views.{code_tree, instr_tree};
ghost use Rattle.net_check.specs.Places.{code_size, instr_size};

use sefl_syntax::Instr;
use sn_width::{NoMemory, NodeId};

/// The site behind one item; an error where its number would not fit.
pub fn behind_item(site: u32) -> Result<u32, NoMemory>
    ensures { IfOk result (λ end. end ≡ site + 1) }
{
    if site == u32::MAX {
        return Err(NoMemory);
    }
    Ok(site + 1)
}

/// The site behind instructions, where this is that of the first.
#[cycle(behind_code)]
pub fn behind_code(site: u32, code: &[Instr]) -> Result<u32, NoMemory>
    ensures { IfOk result (λ end. end ≡ site + code_size (code_tree code.now)) }
{
    let mut end = site;
    for instr in code {
        end = behind_instr(end, instr)?;
    }
    Ok(end)
}

/// The site behind an instruction and those in its blocks.
#[cycle(behind_code)]
pub fn behind_instr(site: u32, instr: &Instr) -> Result<u32, NoMemory>
    ensures { IfOk result (λ end. end ≡ site + instr_size (instr_tree instr.now)) }
{
    let inner = behind_item(site)?;
    match instr {
        Instr::If { first, other, .. } => {
            let middle = behind_code(inner, first)?;
            behind_code(middle, other)
        }
        Instr::For { body, .. } => behind_code(inner, body),
        Instr::Block(body) => behind_code(inner, body),
        _ => Ok(inner),
    }
}

/// The id of the node of a number.
pub(crate) fn id_of(number: usize) -> Result<NodeId, NoMemory>
    ensures { IfOk result (λ id. id.0 ≡ number) }
{
    if number > u32::MAX as usize {
        return Err(NoMemory);
    }
    Ok(NodeId(number as u32))
}
