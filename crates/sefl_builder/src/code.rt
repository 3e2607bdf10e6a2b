//! Reads instructions and blocks.

ghost use Rattle.std.specs.Prelude.{map};
ghost use Rattle.sefl_syntax.specs.Views.{code_tree, instr_tree};
ghost use Rattle.sefl_builder.specs.Reading.{Answers};
ghost use Rattle.sefl_builder.specs.Instructions.{block_here, blocks, for_rest, if_rest, instr, instrs};

use crate::cond::read_cond;
use crate::cursor::Cursor;
use crate::head::{Head, head_ahead};
use crate::misread::Misread;
use crate::statement::read_statement;
use crate::version::Version;
use sefl_syntax::Instr;

/// The most constructs that may be open at once.
pub(crate) const MOST_OPEN: u32 = 64;

/// Reads a block, where `room` more constructs may be open.
#[tactic(auto, using(crate::proofs::Rooms::blocks_within, crate::proofs::Rooms::blocks_full))]
#[cycle(read_block)]
pub(crate) fn read_block(
    words: &mut Cursor,
    version: Version,
    room: u32,
) -> Result<Vec<Instr>, Misread>
    ensures { Answers (λ v. code_tree v.items) result words.new (blocks version room words.old) }
{
    if room == 0 {
        return Err(Misread::Unexpected);
    }
    words.key("{")?;
    let code = read_instrs(words, version, room - 1)?;
    words.key("}")?;
    Ok(code)
}

/// Reads the instructions of a block.
#[tactic(auto, using(crate::proofs::Many::many_begin, crate::proofs::Many::many_stop, crate::proofs::Many::many_full, crate::proofs::Many::many_fails))]
#[cycle(read_block)]
fn read_instrs(words: &mut Cursor, version: Version, room: u32) -> Result<Vec<Instr>, Misread>
    ensures { Answers (λ v. map instr_tree v.items) result words.new (instrs version room words.old) }
{
    let mut found = Vec::new(words.alloc());
    for _ in 0..words.count() {
        if words.begins_with("}") {
            found.shrink_to_fit();
            return Ok(found);
        }
        let instr = read_instr(words, version, room)?;
        found.push(instr)?;
    }
    Ok(found)
}

/// Reads an instruction.
#[tactic(auto, using(crate::proofs::Rooms::instr_is))]
#[cycle(read_block)]
fn read_instr(words: &mut Cursor, version: Version, room: u32) -> Result<Instr, Misread>
    ensures { Answers instr_tree result words.new (instr version room words.old) }
{
    if words.begins_with("{") {
        return read_block_here(words, version, room);
    }
    let Some(head) = head_ahead(words) else {
        return Err(Misread::Unexpected);
    };
    words.skip()?;
    match head {
        Head::If => read_if(words, version, room),
        Head::For => read_for(words, version, room),
        head => read_statement(words, version, room, head),
    }
}

#[tactic(auto, unfolding(crate::specs::Instructions::block_here))]
#[cycle(read_block)]
fn read_block_here(words: &mut Cursor, version: Version, room: u32) -> Result<Instr, Misread>
    ensures { Answers instr_tree result words.new (block_here version room words.old) }
{
    let code = read_block(words, version, room)?;
    Ok(Instr::Block(code))
}

#[tactic(auto, unfolding(crate::specs::Instructions::if_rest))]
#[cycle(read_block)]
fn read_if(words: &mut Cursor, version: Version, room: u32) -> Result<Instr, Misread>
    ensures { Answers instr_tree result words.new (if_rest version room words.old) }
{
    let test = read_cond(words, room)?;
    let first = read_block(words, version, room)?;
    words.key("else")?;
    let other = read_block(words, version, room)?;
    Ok(Instr::If { test, first, other })
}

#[tactic(auto, unfolding(crate::specs::Instructions::for_rest))]
#[cycle(read_block)]
fn read_for(words: &mut Cursor, version: Version, room: u32) -> Result<Instr, Misread>
    ensures { Answers instr_tree result words.new (for_rest version room words.old) }
{
    let var = words.name()?;
    words.key("in")?;
    let pattern = words.text()?;
    let body = read_block(words, version, room)?;
    Ok(Instr::For { var, pattern, body })
}
