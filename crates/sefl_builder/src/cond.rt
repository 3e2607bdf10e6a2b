//! Reads conditions.

ghost use Rattle.std.specs.Prelude.{◌≡◌, IfOk, map};
ghost use Rattle.sefl_syntax.specs.Trees.{negation};
ghost use Rattle.sefl_syntax.specs.Views.{cond_tree};
ghost use Rattle.sefl_builder.specs.Reading.{Answers};
ghost use Rattle.sefl_builder.specs.Conditions.{atom, braced_ranges, bracket, cond, conj, conjs_from, goes_expr, neg, negs_from, next_conj, next_neg, next_range, opposite, range, ranges, ranges_from, rel, rel_ahead, truth};

use crate::cursor::Cursor;
use crate::expr::read_expr;
use crate::misread::Misread;
use sefl_syntax::Cond;
use sn_width::{Num, Rel};
use std::alloc::{AllocError, Global};

/// The relation that comes next.
#[tactic(auto, unfolding(crate::specs::Conditions::rel_ahead))]
fn rel_ahead(words: &Cursor) -> Option<Rel>
    ensures { result ≡ rel_ahead words.now }
{
    if words.begins_with("==") {
        return Some(Rel::Eq);
    }
    if words.begins_with("!=") {
        return Some(Rel::Ne);
    }
    if words.begins_with("<") {
        return Some(Rel::Lt);
    }
    if words.begins_with("<=") {
        return Some(Rel::Le);
    }
    if words.begins_with(">") {
        return Some(Rel::Gt);
    }
    if words.begins_with(">=") {
        return Some(Rel::Ge);
    }
    None
}

#[tactic(auto, unfolding(crate::specs::Conditions::rel))]
fn read_rel(words: &mut Cursor) -> Result<Rel, Misread>
    ensures { Answers (λ x. x) result words.new (rel words.old) }
{
    let Some(rel) = rel_ahead(words) else {
        return Err(Misread::Unexpected);
    };
    words.skip()?;
    Ok(rel)
}

/// Reads a range: of one number, from that number to itself.
#[tactic(auto, unfolding(crate::specs::Conditions::range))]
fn read_range(words: &mut Cursor) -> Result<(Num, Num), Misread>
    ensures { Answers (λ x. x) result words.new (range words.old) }
{
    let first = words.number()?;
    if !words.begins_with("..") {
        return Ok((first, first));
    }
    words.key("..")?;
    let last = words.number()?;
    Ok((first, last))
}

#[tactic(auto, unfolding(crate::specs::Conditions::next_range))]
fn read_next_range(words: &mut Cursor) -> Result<(Num, Num), Misread>
    ensures { Answers (λ x. x) result words.new (next_range words.old) }
{
    words.key(",")?;
    read_range(words)
}

/// Reads the ranges behind the first, each behind a comma.
#[tactic(auto, using(crate::proofs::Many::many_after, crate::proofs::Many::many_stop, crate::proofs::Many::many_full, crate::proofs::Many::many_fails))]
fn read_ranges_from(words: &mut Cursor, first: (Num, Num)) -> Result<Vec<(Num, Num)>, Misread>
    ensures { Answers (λ v. v.items) result words.new (ranges_from first words.old) }
{
    let mut found = vec![in words.alloc(); first]?;
    for _ in 0..words.count() {
        if !words.begins_with(",") {
            found.shrink_to_fit();
            return Ok(found);
        }
        let range = read_next_range(words)?;
        found.push(range)?;
    }
    Ok(found)
}

#[tactic(auto, unfolding(crate::specs::Conditions::ranges))]
fn read_ranges(words: &mut Cursor) -> Result<Vec<(Num, Num)>, Misread>
    ensures { Answers (λ v. v.items) result words.new (ranges words.old) }
{
    let first = read_range(words)?;
    read_ranges_from(words, first)
}

/// Whether an expression comes next.
#[tactic(auto, unfolding(crate::specs::Conditions::goes_expr))]
pub(crate) fn goes_expr(words: &Cursor) -> bool
    ensures { result ≡ goes_expr words.now }
{
    words.begins_number()
        || words.begins_with("(")
        || words.begins_with("head")
        || words.begins_with("global")
        || words.begins_with("local")
        || words.begins_with("$")
}

#[tactic(auto, unfolding(crate::specs::Conditions::braced_ranges))]
fn read_braced_ranges(words: &mut Cursor) -> Result<Vec<(Num, Num)>, Misread>
    ensures { Answers (λ v. v.items) result words.new (braced_ranges words.old) }
{
    words.key("in")?;
    words.key("{")?;
    let ranges = read_ranges(words)?;
    words.key("}")?;
    Ok(ranges)
}

/// Reads a comparison, or a test on ranges.
#[tactic(auto, unfolding(crate::specs::Conditions::atom))]
fn read_atom(words: &mut Cursor, room: u32) -> Result<Cond, Misread>
    ensures { Answers cond_tree result words.new (atom room words.old) }
{
    let left = read_expr(words, room)?;
    if words.begins_with("in") {
        let ranges = read_braced_ranges(words)?;
        let test = Cond::member(words.alloc(), left, ranges)?;
        return Ok(test);
    }
    let rel = read_rel(words)?;
    let right = read_expr(words, room)?;
    Ok(Cond::Compare { rel, left, right })
}

#[tactic(auto, unfolding(crate::specs::Conditions::truth))]
fn read_truth(words: &mut Cursor) -> Result<Cond, Misread>
    ensures { Answers cond_tree result words.new (truth words.old) }
{
    words.key("true")?;
    Ok(Cond::True)
}

#[tactic(auto, using(crate::proofs::Sums::negation_made))]
fn not_of(alloc: Global, member: Cond) -> Result<Cond, AllocError>
    ensures { IfOk result (λ c. cond_tree c ≡ negation (cond_tree member)) }
{
    let member = Box::new(alloc, member)?;
    Ok(Cond::Not(member))
}

/// Reads a condition, where `room` more constructs may be open.
#[tactic(auto, unfolding(crate::specs::Conditions::cond))]
#[cycle(read_cond)]
pub(crate) fn read_cond(words: &mut Cursor, room: u32) -> Result<Cond, Misread>
    ensures { Answers cond_tree result words.new (cond room words.old) }
{
    let first = read_conj(words, room)?;
    if !words.begins_with("or") {
        return Ok(first);
    }
    let members = read_conjs_from(words, room, first)?;
    Ok(Cond::Or(members))
}

/// Reads the members behind the first of a chain of `or`.
#[tactic(auto, using(crate::proofs::Many::many_after, crate::proofs::Many::many_stop, crate::proofs::Many::many_full, crate::proofs::Many::many_fails))]
#[cycle(read_cond)]
fn read_conjs_from(words: &mut Cursor, room: u32, first: Cond) -> Result<Vec<Cond>, Misread>
    ensures { Answers (λ v. map cond_tree v.items) result words.new (conjs_from (cond_tree first) room words.old) }
{
    let mut found = vec![in words.alloc(); first]?;
    for _ in 0..words.count() {
        if !words.begins_with("or") {
            found.shrink_to_fit();
            return Ok(found);
        }
        let member = read_next_conj(words, room)?;
        found.push(member)?;
    }
    Ok(found)
}

#[tactic(auto, unfolding(crate::specs::Conditions::next_conj))]
#[cycle(read_cond)]
fn read_next_conj(words: &mut Cursor, room: u32) -> Result<Cond, Misread>
    ensures { Answers cond_tree result words.new (next_conj room words.old) }
{
    words.key("or")?;
    read_conj(words, room)
}

/// Reads a condition that is no chain of `or`.
#[tactic(auto, unfolding(crate::specs::Conditions::conj))]
#[cycle(read_cond)]
fn read_conj(words: &mut Cursor, room: u32) -> Result<Cond, Misread>
    ensures { Answers cond_tree result words.new (conj room words.old) }
{
    let first = read_neg(words, room)?;
    if !words.begins_with("and") {
        return Ok(first);
    }
    let members = read_negs_from(words, room, first)?;
    Ok(Cond::And(members))
}

/// Reads the members behind the first of a chain of `and`.
#[tactic(auto, using(crate::proofs::Many::many_after, crate::proofs::Many::many_stop, crate::proofs::Many::many_full, crate::proofs::Many::many_fails))]
#[cycle(read_cond)]
fn read_negs_from(words: &mut Cursor, room: u32, first: Cond) -> Result<Vec<Cond>, Misread>
    ensures { Answers (λ v. map cond_tree v.items) result words.new (negs_from (cond_tree first) room words.old) }
{
    let mut found = vec![in words.alloc(); first]?;
    for _ in 0..words.count() {
        if !words.begins_with("and") {
            found.shrink_to_fit();
            return Ok(found);
        }
        let member = read_next_neg(words, room)?;
        found.push(member)?;
    }
    Ok(found)
}

#[tactic(auto, unfolding(crate::specs::Conditions::next_neg))]
#[cycle(read_cond)]
fn read_next_neg(words: &mut Cursor, room: u32) -> Result<Cond, Misread>
    ensures { Answers cond_tree result words.new (next_neg room words.old) }
{
    words.key("and")?;
    read_neg(words, room)
}

/// Reads a condition that is no chain.
#[tactic(auto, using(crate::proofs::Rooms::neg_is))]
#[cycle(read_cond)]
fn read_neg(words: &mut Cursor, room: u32) -> Result<Cond, Misread>
    ensures { Answers cond_tree result words.new (neg room words.old) }
{
    if goes_expr(words) {
        return read_atom(words, room);
    }
    if words.begins_with("not") {
        return read_opposite(words, room);
    }
    if words.begins_with("[") {
        return read_bracket(words, room);
    }
    read_truth(words)
}

#[tactic(auto, using(crate::proofs::Rooms::opposite_within, crate::proofs::Rooms::opposite_full))]
#[cycle(read_cond)]
fn read_opposite(words: &mut Cursor, room: u32) -> Result<Cond, Misread>
    ensures { Answers cond_tree result words.new (opposite room words.old) }
{
    if room == 0 {
        return Err(Misread::Unexpected);
    }
    words.key("not")?;
    let member = read_neg(words, room - 1)?;
    let cond = not_of(words.alloc(), member)?;
    Ok(cond)
}

#[tactic(auto, using(crate::proofs::Rooms::bracket_within, crate::proofs::Rooms::bracket_full))]
#[cycle(read_cond)]
fn read_bracket(words: &mut Cursor, room: u32) -> Result<Cond, Misread>
    ensures { Answers cond_tree result words.new (bracket room words.old) }
{
    if room == 0 {
        return Err(Misread::Unexpected);
    }
    words.key("[")?;
    let cond = read_cond(words, room - 1)?;
    words.key("]")?;
    Ok(cond)
}
