//! Reads questions.

ghost use Rattle.std.specs.Prelude.{map};
ghost use Rattle.sefl_syntax.specs.Views.{ask_tree, cond_tree};
ghost use Rattle.sefl_builder.specs.Reading.{Answers};
ghost use Rattle.sefl_builder.specs.Nets.{ask, asks, invariant, place, question, reach, target_at, visible, with_test};

use crate::code::MOST_OPEN;
use crate::cond::read_cond;
use crate::cursor::Cursor;
use crate::misread::Misread;
use crate::net::{read_side, read_spot};
use crate::reference::read_target;
use sefl_syntax::{Ask, Cond, RawPlace, Target};

#[tactic(auto, unfolding(crate::specs::Nets::place))]
fn read_place(words: &mut Cursor) -> Result<RawPlace, Misread>
    ensures { Answers (λ x. x) result words.new (place words.old) }
{
    let side = read_side(words)?;
    let (node, port) = read_spot(words)?;
    Ok(RawPlace { side, node, port })
}

/// Reads the test of a reach, where it has one.
#[tactic(auto, unfolding(crate::specs::Nets::with_test))]
fn read_with_test(words: &mut Cursor) -> Result<Cond, Misread>
    ensures { Answers cond_tree result words.new (with_test words.old) }
{
    if !words.begins_with("with") {
        return Ok(Cond::True);
    }
    words.key("with")?;
    read_cond(words, MOST_OPEN)
}

#[tactic(auto, unfolding(crate::specs::Nets::reach))]
fn read_reach(words: &mut Cursor) -> Result<Ask, Misread>
    ensures { Answers ask_tree result words.new (reach words.old) }
{
    words.key("reach")?;
    let place = read_place(words)?;
    let test = read_with_test(words)?;
    Ok(Ask::Reach { place, test })
}

/// Reads a target and the place where it is looked at.
#[tactic(auto, unfolding(crate::specs::Nets::target_at))]
fn read_target_at(words: &mut Cursor) -> Result<(Target, RawPlace), Misread>
    ensures { Answers (λ x. x) result words.new (target_at words.old) }
{
    let target = read_target(words)?;
    words.key("at")?;
    let place = read_place(words)?;
    Ok((target, place))
}

#[tactic(auto, unfolding(crate::specs::Nets::invariant))]
fn read_invariant(words: &mut Cursor) -> Result<Ask, Misread>
    ensures { Answers ask_tree result words.new (invariant words.old) }
{
    words.key("invariant")?;
    let (target, place) = read_target_at(words)?;
    Ok(Ask::Invariant { target, place })
}

#[tactic(auto, unfolding(crate::specs::Nets::visible))]
fn read_visible(words: &mut Cursor) -> Result<Ask, Misread>
    ensures { Answers ask_tree result words.new (visible words.old) }
{
    words.key("visible")?;
    let (target, place) = read_target_at(words)?;
    Ok(Ask::Visible { target, place })
}

#[tactic(auto, unfolding(crate::specs::Nets::question))]
fn read_question(words: &mut Cursor) -> Result<Ask, Misread>
    ensures { Answers ask_tree result words.new (question words.old) }
{
    if words.begins_with("reach") {
        return read_reach(words);
    }
    if words.begins_with("invariant") {
        return read_invariant(words);
    }
    read_visible(words)
}

#[tactic(auto, unfolding(crate::specs::Nets::ask))]
fn read_ask(words: &mut Cursor) -> Result<Ask, Misread>
    ensures { Answers ask_tree result words.new (ask words.old) }
{
    words.key("ask")?;
    let ask = read_question(words)?;
    words.key(";")?;
    Ok(ask)
}

/// Reads the questions.
#[tactic(auto, using(crate::proofs::Many::many_begin, crate::proofs::Many::many_stop, crate::proofs::Many::many_full, crate::proofs::Many::many_fails))]
pub(crate) fn read_asks(words: &mut Cursor) -> Result<Vec<Ask>, Misread>
    ensures { Answers (λ v. map ask_tree v.items) result words.new (asks words.old) }
{
    let mut found = Vec::new(words.alloc());
    for _ in 0..words.count() {
        if !words.begins_with("ask") {
            return Ok(found);
        }
        let item = read_ask(words)?;
        found.push(item)?;
    }
    Ok(found)
}
