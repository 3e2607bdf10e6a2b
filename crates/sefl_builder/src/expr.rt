//! Reads expressions.

ghost use Rattle.std.specs.Prelude.{◌≡◌, IfOk};
ghost use Rattle.sefl_syntax.specs.Views.{expr_tree, summands_of};
ghost use Rattle.sefl_grammar.specs.Grammar.{sum_of};
ghost use Rattle.sefl_builder.specs.Reading.{Answers};
ghost use Rattle.sefl_builder.specs.Terms.{constant_here, expr, goes_sum, group, member_tree, member_trees, operand, reading_here, sign, summand, summands};

use crate::cursor::Cursor;
use crate::misread::Misread;
use crate::reference::read_target;
use sefl_syntax::{Expr, Sign};
use std::alloc::{AllocError, Global};

#[tactic(auto, unfolding(crate::specs::Terms::constant_here))]
fn read_constant(words: &mut Cursor) -> Result<Expr, Misread>
    ensures { Answers expr_tree result words.new (constant_here words.old) }
{
    let value = words.number()?;
    Ok(Expr::Const(value))
}

#[tactic(auto, unfolding(crate::specs::Terms::reading_here))]
fn read_reading(words: &mut Cursor) -> Result<Expr, Misread>
    ensures { Answers expr_tree result words.new (reading_here words.old) }
{
    let target = read_target(words)?;
    Ok(Expr::Read(target))
}

/// Whether a further member of a sum comes.
fn goes_sum(words: &Cursor) -> bool
    ensures { result ≡ goes_sum words.now }
{
    words.begins_with("+") || words.begins_with("-")
}

#[tactic(auto, unfolding(crate::specs::Terms::sign))]
fn read_sign(words: &mut Cursor) -> Result<Sign, Misread>
    ensures { Answers (λ x. x) result words.new (sign words.old) }
{
    if words.begins_with("+") {
        words.key("+")?;
        return Ok(Sign::Plus);
    }
    words.key("-")?;
    Ok(Sign::Minus)
}

/// The sum of the members: of one member, that member.
#[tactic(auto, using(crate::proofs::Sums::sum_made))]
fn sum_of(alloc: Global, first: Expr, rest: Vec<(Sign, Expr)>) -> Result<Expr, AllocError>
    ensures { IfOk result (λ e. expr_tree e ≡ sum_of (expr_tree first) (summands_of (member_trees rest.items))) }
{
    if rest.is_empty() {
        return Ok(first);
    }
    let first = Box::new(alloc, first)?;
    Ok(Expr::Sum { first, rest })
}

/// Reads an expression, where `room` more constructs may be open.
#[tactic(auto, unfolding(crate::specs::Terms::expr))]
#[cycle(read_expr)]
pub(crate) fn read_expr(words: &mut Cursor, room: u32) -> Result<Expr, Misread>
    ensures { Answers expr_tree result words.new (expr room words.old) }
{
    let first = read_operand(words, room)?;
    let rest = read_summands(words, room)?;
    let expr = sum_of(words.alloc(), first, rest)?;
    Ok(expr)
}

/// Reads an expression in parentheses.
#[tactic(auto, using(crate::proofs::Rooms::group_within, crate::proofs::Rooms::group_full))]
#[cycle(read_expr)]
fn read_group(words: &mut Cursor, room: u32) -> Result<Expr, Misread>
    ensures { Answers expr_tree result words.new (group room words.old) }
{
    if room == 0 {
        return Err(Misread::Unexpected);
    }
    words.key("(")?;
    let expr = read_expr(words, room - 1)?;
    words.key(")")?;
    Ok(expr)
}

/// Reads an operand.
#[tactic(auto, unfolding(crate::specs::Terms::operand, crate::specs::Terms::operand_by))]
#[cycle(read_expr)]
fn read_operand(words: &mut Cursor, room: u32) -> Result<Expr, Misread>
    ensures { Answers expr_tree result words.new (operand room words.old) }
{
    if words.begins_number() {
        return read_constant(words);
    }
    if words.begins_with("(") {
        return read_group(words, room);
    }
    read_reading(words)
}

/// Reads a further member of a sum, with its sign.
#[tactic(auto, unfolding(crate::specs::Terms::summand))]
#[cycle(read_expr)]
fn read_summand(words: &mut Cursor, room: u32) -> Result<(Sign, Expr), Misread>
    ensures { Answers member_tree result words.new (summand room words.old) }
{
    let sign = read_sign(words)?;
    let operand = read_operand(words, room)?;
    Ok((sign, operand))
}

/// Reads the further members of a sum.
#[tactic(auto, using(crate::proofs::Many::many_begin, crate::proofs::Many::many_step, crate::proofs::Many::many_stop, crate::proofs::Many::many_full, crate::proofs::Many::many_fails))]
#[cycle(read_expr)]
fn read_summands(words: &mut Cursor, room: u32) -> Result<Vec<(Sign, Expr)>, Misread>
    ensures { Answers (λ v. member_trees v.items) result words.new (summands room words.old) }
{
    let mut found = Vec::new(words.alloc());
    for _ in 0..words.count() {
        if !goes_sum(words) {
            found.shrink_to_fit();
            return Ok(found);
        }
        let member = read_summand(words, room)?;
        found.push(member)?;
    }
    Ok(found)
}
