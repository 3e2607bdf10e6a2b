//! Reads the packet that is injected.

ghost use Rattle.std.specs.Prelude.{map};
ghost use Rattle.sefl_syntax.specs.Views.{cond_tree, injection_tree};
ghost use Rattle.sefl_builder.specs.Reading.{Answers};
ghost use Rattle.sefl_builder.specs.Nets.{field, field_value, fields, injection, tag, tags, tests, where_test};

use crate::code::MOST_OPEN;
use crate::cond::read_cond;
use crate::cursor::Cursor;
use crate::misread::Misread;
use crate::net::read_spot;
use crate::reference::read_target;
use crate::statement::read_tag_line;
use sefl_syntax::{Addr, Cond, Name, RawField, RawInjection};
use sn_width::Num;

#[tactic(auto, unfolding(crate::specs::Nets::tag))]
fn read_tag(words: &mut Cursor) -> Result<(Name, Addr), Misread>
    ensures { Answers (λ x. x) result words.new (tag words.old) }
{
    words.key("tag")?;
    read_tag_line(words)
}

/// Reads the tags.
#[tactic(auto, using(crate::proofs::Many::many_begin, crate::proofs::Many::many_stop, crate::proofs::Many::many_full, crate::proofs::Many::many_fails))]
fn read_tags(words: &mut Cursor) -> Result<Vec<(Name, Addr)>, Misread>
    ensures { Answers (λ v. v.items) result words.new (tags words.old) }
{
    let mut found = Vec::new(words.alloc());
    for _ in 0..words.count() {
        if !words.begins_with("tag") {
            return Ok(found);
        }
        let item = read_tag(words)?;
        found.push(item)?;
    }
    Ok(found)
}

/// Reads the value of a field, where it has one.
#[tactic(auto, unfolding(crate::specs::Nets::field_value))]
fn read_field_value(words: &mut Cursor) -> Result<Option<Num>, Misread>
    ensures { Answers (λ x. x) result words.new (field_value words.old) }
{
    if !words.begins_with("=") {
        return Ok(None);
    }
    words.key("=")?;
    let value = words.number()?;
    Ok(Some(value))
}

#[tactic(auto, unfolding(crate::specs::Nets::field))]
fn read_field(words: &mut Cursor) -> Result<RawField, Misread>
    ensures { Answers (λ x. x) result words.new (field words.old) }
{
    words.key("field")?;
    let target = read_target(words)?;
    let value = read_field_value(words)?;
    words.key(";")?;
    Ok(RawField { target, value })
}

/// Reads the fields.
#[tactic(auto, using(crate::proofs::Many::many_begin, crate::proofs::Many::many_stop, crate::proofs::Many::many_full, crate::proofs::Many::many_fails))]
fn read_fields(words: &mut Cursor) -> Result<Vec<RawField>, Misread>
    ensures { Answers (λ v. v.items) result words.new (fields words.old) }
{
    let mut found = Vec::new(words.alloc());
    for _ in 0..words.count() {
        if !words.begins_with("field") {
            return Ok(found);
        }
        let item = read_field(words)?;
        found.push(item)?;
    }
    Ok(found)
}

#[tactic(auto, unfolding(crate::specs::Nets::where_test))]
fn read_test(words: &mut Cursor) -> Result<Cond, Misread>
    ensures { Answers cond_tree result words.new (where_test words.old) }
{
    words.key("where")?;
    let test = read_cond(words, MOST_OPEN)?;
    words.key(";")?;
    Ok(test)
}

/// Reads what holds of the unknown fields.
#[tactic(auto, using(crate::proofs::Many::many_begin, crate::proofs::Many::many_stop, crate::proofs::Many::many_full, crate::proofs::Many::many_fails))]
fn read_tests(words: &mut Cursor) -> Result<Vec<Cond>, Misread>
    ensures { Answers (λ v. map cond_tree v.items) result words.new (tests words.old) }
{
    let mut found = Vec::new(words.alloc());
    for _ in 0..words.count() {
        if !words.begins_with("where") {
            return Ok(found);
        }
        let item = read_test(words)?;
        found.push(item)?;
    }
    Ok(found)
}

/// Reads the packet that is injected.
#[tactic(auto, unfolding(crate::specs::Nets::injection))]
pub(crate) fn read_injection(words: &mut Cursor) -> Result<RawInjection, Misread>
    ensures { Answers injection_tree result words.new (injection words.old) }
{
    words.key("inject")?;
    let (node, port) = read_spot(words)?;
    words.key("{")?;
    let tags = read_tags(words)?;
    let fields = read_fields(words)?;
    let tests = read_tests(words)?;
    words.key("}")?;
    Ok(RawInjection {
        node,
        port,
        tags,
        fields,
        tests,
    })
}
