//! Reads instructions that have no block.

ghost use Rattle.sefl_syntax.specs.Views.{instr_tree};
ghost use Rattle.sefl_builder.specs.Reading.{Answers};
ghost use Rattle.sefl_builder.specs.Instructions.{allocate_rest, any_rest, assign_rest, constrain_rest, deallocate_rest, fail_rest, fork_rest, forward_rest, next_port, no_op_rest, ports, ports_from, retag_rest, set_rest, statement_rest, tag_line, tag_rest, target_line, untag_rest};

use crate::cond::{goes_expr, read_cond};
use crate::cursor::Cursor;
use crate::expr::read_expr;
use crate::head::Head;
use crate::misread::Misread;
use crate::reference::{read_addr, read_target};
use crate::version::Version;
use sefl_syntax::{Addr, Instr, Name, Target};

/// Reads a target and its semicolon.
#[tactic(auto, unfolding(crate::specs::Instructions::target_line))]
fn read_target_line(words: &mut Cursor) -> Result<Target, Misread>
    ensures { Answers (λ x. x) result words.new (target_line words.old) }
{
    let target = read_target(words)?;
    words.key(";")?;
    Ok(target)
}

#[tactic(auto, unfolding(crate::specs::Instructions::allocate_rest))]
fn read_allocate(words: &mut Cursor) -> Result<Instr, Misread>
    ensures { Answers instr_tree result words.new (allocate_rest words.old) }
{
    let target = read_target_line(words)?;
    Ok(Instr::Allocate(target))
}

#[tactic(auto, unfolding(crate::specs::Instructions::deallocate_rest))]
fn read_deallocate(words: &mut Cursor) -> Result<Instr, Misread>
    ensures { Answers instr_tree result words.new (deallocate_rest words.old) }
{
    let target = read_target_line(words)?;
    Ok(Instr::Deallocate(target))
}

/// Reads an unknown value that is set.
#[tactic(auto, unfolding(crate::specs::Instructions::any_rest))]
fn read_any(words: &mut Cursor, target: Target) -> Result<Instr, Misread>
    ensures { Answers instr_tree result words.new (any_rest target words.old) }
{
    words.key("any")?;
    words.key(";")?;
    Ok(Instr::AssignAny(target))
}

/// Reads a value that is set.
#[tactic(auto, unfolding(crate::specs::Instructions::assign_rest))]
fn read_assign(words: &mut Cursor, room: u32, target: Target) -> Result<Instr, Misread>
    ensures { Answers instr_tree result words.new (assign_rest room target words.old) }
{
    let value = read_expr(words, room)?;
    words.key(";")?;
    Ok(Instr::Assign { target, value })
}

#[tactic(auto, unfolding(crate::specs::Instructions::set_rest))]
fn read_set(words: &mut Cursor, room: u32) -> Result<Instr, Misread>
    ensures { Answers instr_tree result words.new (set_rest room words.old) }
{
    let target = read_target(words)?;
    words.key("=")?;
    if goes_expr(words) {
        return read_assign(words, room, target);
    }
    read_any(words, target)
}

/// Reads a tag and its address.
#[tactic(auto, unfolding(crate::specs::Instructions::tag_line))]
pub(crate) fn read_tag_line(words: &mut Cursor) -> Result<(Name, Addr), Misread>
    ensures { Answers (λ x. x) result words.new (tag_line words.old) }
{
    let name = words.name()?;
    words.key("=")?;
    let addr = read_addr(words)?;
    words.key(";")?;
    Ok((name, addr))
}

/// Reads what `tag` does with a tag: it sets it in the first version, and creates it in the second.
#[tactic(auto, unfolding(crate::specs::Instructions::tag_rest))]
fn read_tag(words: &mut Cursor, version: Version) -> Result<Instr, Misread>
    ensures { Answers instr_tree result words.new (tag_rest version words.old) }
{
    let (name, addr) = read_tag_line(words)?;
    Ok(match version {
        Version::Old => Instr::SetTag { name, addr },
        Version::New => Instr::CreateTag { name, addr },
    })
}

#[tactic(auto, unfolding(crate::specs::Instructions::retag_rest))]
fn read_retag(words: &mut Cursor, version: Version) -> Result<Instr, Misread>
    ensures { Answers instr_tree result words.new (retag_rest version words.old) }
{
    match version {
        Version::Old => Err(Misread::Unexpected),
        Version::New => {
            let (name, addr) = read_tag_line(words)?;
            Ok(Instr::SetTag { name, addr })
        }
    }
}

#[tactic(auto, unfolding(crate::specs::Instructions::untag_rest))]
fn read_untag(words: &mut Cursor) -> Result<Instr, Misread>
    ensures { Answers instr_tree result words.new (untag_rest words.old) }
{
    let name = words.name()?;
    words.key(";")?;
    Ok(Instr::DestroyTag(name))
}

#[tactic(auto, unfolding(crate::specs::Instructions::constrain_rest))]
fn read_constrain(words: &mut Cursor, room: u32) -> Result<Instr, Misread>
    ensures { Answers instr_tree result words.new (constrain_rest room words.old) }
{
    let test = read_cond(words, room)?;
    words.key(";")?;
    Ok(Instr::Constrain(test))
}

#[tactic(auto, unfolding(crate::specs::Instructions::fail_rest))]
fn read_fail(words: &mut Cursor) -> Result<Instr, Misread>
    ensures { Answers instr_tree result words.new (fail_rest words.old) }
{
    let text = words.text()?;
    words.key(";")?;
    Ok(Instr::Fail(text))
}

#[tactic(auto, unfolding(crate::specs::Instructions::forward_rest))]
fn read_forward(words: &mut Cursor) -> Result<Instr, Misread>
    ensures { Answers instr_tree result words.new (forward_rest words.old) }
{
    let port = words.port()?;
    words.key(";")?;
    Ok(Instr::Forward(port))
}

#[tactic(auto, unfolding(crate::specs::Instructions::next_port))]
fn read_next_port(words: &mut Cursor) -> Result<u32, Misread>
    ensures { Answers (λ x. x) result words.new (next_port words.old) }
{
    words.key(",")?;
    words.port()
}

/// Reads the ports behind the first, each behind a comma.
#[tactic(auto, using(crate::proofs::Many::many_after, crate::proofs::Many::many_stop, crate::proofs::Many::many_full, crate::proofs::Many::many_fails))]
fn read_ports_from(words: &mut Cursor, first: u32) -> Result<Vec<u32>, Misread>
    ensures { Answers (λ v. v.items) result words.new (ports_from first words.old) }
{
    let mut found = vec![in words.alloc(); first]?;
    for _ in 0..words.count() {
        if !words.begins_with(",") {
            found.shrink_to_fit();
            return Ok(found);
        }
        let port = read_next_port(words)?;
        found.push(port)?;
    }
    Ok(found)
}

#[tactic(auto, unfolding(crate::specs::Instructions::ports))]
fn read_ports(words: &mut Cursor) -> Result<Vec<u32>, Misread>
    ensures { Answers (λ v. v.items) result words.new (ports words.old) }
{
    if !words.begins_number() {
        return Ok(Vec::new(words.alloc()));
    }
    let first = words.port()?;
    read_ports_from(words, first)
}

#[tactic(auto, unfolding(crate::specs::Instructions::fork_rest))]
fn read_fork(words: &mut Cursor) -> Result<Instr, Misread>
    ensures { Answers instr_tree result words.new (fork_rest words.old) }
{
    let ports = read_ports(words)?;
    words.key(";")?;
    Ok(Instr::Fork(ports))
}

#[tactic(auto, unfolding(crate::specs::Instructions::no_op_rest))]
fn read_no_op(words: &mut Cursor) -> Result<Instr, Misread>
    ensures { Answers instr_tree result words.new (no_op_rest words.old) }
{
    words.key(";")?;
    Ok(Instr::NoOp)
}

/// Reads what follows the first word of an instruction that has no block.
pub(crate) fn read_statement(
    words: &mut Cursor,
    version: Version,
    room: u32,
    head: Head,
) -> Result<Instr, Misread>
    ensures { Answers instr_tree result words.new (statement_rest version room head words.old) }
{
    match head {
        Head::Allocate => read_allocate(words),
        Head::Deallocate => read_deallocate(words),
        Head::Set => read_set(words, room),
        Head::Tag => read_tag(words, version),
        Head::Retag => read_retag(words, version),
        Head::Untag => read_untag(words),
        Head::Constrain => read_constrain(words, room),
        Head::Fail => read_fail(words),
        Head::Forward => read_forward(words),
        Head::Fork => read_fork(words),
        Head::NoOp => read_no_op(words),
        Head::If => Err(Misread::Unexpected),
        Head::For => Err(Misread::Unexpected),
    }
}
