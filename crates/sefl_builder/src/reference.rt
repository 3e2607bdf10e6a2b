//! Reads addresses and targets.

ghost use Rattle.sefl_builder.specs.Reading.{Answers};
ghost use Rattle.sefl_builder.specs.Terms.{addr, ahead, back, bound, header, meta, scope, signed, sized, tagged, target, unsigned, untagged};

use crate::cursor::Cursor;
use crate::misread::Misread;
use sefl_syntax::{Addr, Scope, Target};
use sn_width::Width;

/// Reads an offset that is added.
#[tactic(auto, unfolding(crate::specs::Terms::ahead))]
fn read_ahead(words: &mut Cursor) -> Result<i32, Misread>
    ensures { Answers (λ x. x) result words.new (ahead words.old) }
{
    let offset = words.offset()?;
    Ok(offset as i32)
}

/// Reads an offset that is taken away.
#[tactic(auto, unfolding(crate::specs::Terms::back))]
fn read_back(words: &mut Cursor) -> Result<i32, Misread>
    ensures { Answers (λ x. x) result words.new (back words.old) }
{
    words.key("-")?;
    let offset = words.offset()?;
    Ok(-(offset as i32))
}

/// Reads an offset behind a sign.
#[tactic(auto, unfolding(crate::specs::Terms::signed))]
fn read_signed(words: &mut Cursor) -> Result<i32, Misread>
    ensures { Answers (λ x. x) result words.new (signed words.old) }
{
    if words.begins_with("-") {
        return read_back(words);
    }
    words.key("+")?;
    read_ahead(words)
}

/// Reads an offset that has a sign only where it is taken away.
#[tactic(auto, unfolding(crate::specs::Terms::unsigned))]
fn read_unsigned(words: &mut Cursor) -> Result<i32, Misread>
    ensures { Answers (λ x. x) result words.new (unsigned words.old) }
{
    if words.begins_number() {
        return read_ahead(words);
    }
    read_back(words)
}

#[tactic(auto, unfolding(crate::specs::Terms::tagged))]
fn read_tagged(words: &mut Cursor) -> Result<Addr, Misread>
    ensures { Answers (λ x. x) result words.new (tagged words.old) }
{
    let tag = words.name()?;
    let offset = read_signed(words)?;
    Ok(Addr {
        tag: Some(tag),
        offset,
    })
}

#[tactic(auto, unfolding(crate::specs::Terms::untagged))]
fn read_untagged(words: &mut Cursor) -> Result<Addr, Misread>
    ensures { Answers (λ x. x) result words.new (untagged words.old) }
{
    let offset = read_unsigned(words)?;
    Ok(Addr { tag: None, offset })
}

/// Reads an address.
#[tactic(auto, unfolding(crate::specs::Terms::addr))]
pub(crate) fn read_addr(words: &mut Cursor) -> Result<Addr, Misread>
    ensures { Answers (λ x. x) result words.new (addr words.old) }
{
    if words.begins_name() {
        return read_tagged(words);
    }
    read_untagged(words)
}

/// Reads a width behind its colon.
#[tactic(auto, unfolding(crate::specs::Terms::sized))]
fn read_sized(words: &mut Cursor) -> Result<Width, Misread>
    ensures { Answers (λ x. x) result words.new (sized words.old) }
{
    words.key(":")?;
    words.width()
}

#[tactic(auto, unfolding(crate::specs::Terms::header))]
fn read_header(words: &mut Cursor) -> Result<Target, Misread>
    ensures { Answers (λ x. x) result words.new (header words.old) }
{
    words.key("head")?;
    let addr = read_addr(words)?;
    let width = read_sized(words)?;
    Ok(Target::Header { addr, width })
}

#[tactic(auto, unfolding(crate::specs::Terms::scope))]
fn read_scope(words: &mut Cursor) -> Result<Scope, Misread>
    ensures { Answers (λ x. x) result words.new (scope words.old) }
{
    if words.begins_with("global") {
        words.key("global")?;
        return Ok(Scope::Global);
    }
    words.key("local")?;
    Ok(Scope::Local)
}

#[tactic(auto, unfolding(crate::specs::Terms::meta))]
fn read_meta(words: &mut Cursor) -> Result<Target, Misread>
    ensures { Answers (λ x. x) result words.new (meta words.old) }
{
    let scope = read_scope(words)?;
    let name = words.name()?;
    let width = read_sized(words)?;
    Ok(Target::Meta { scope, name, width })
}

#[tactic(auto, unfolding(crate::specs::Terms::bound))]
fn read_bound(words: &mut Cursor) -> Result<Target, Misread>
    ensures { Answers (λ x. x) result words.new (bound words.old) }
{
    words.key("$")?;
    let var = words.name()?;
    let width = read_sized(words)?;
    Ok(Target::Bound { var, width })
}

/// Reads a target.
#[tactic(auto, unfolding(crate::specs::Terms::target))]
pub(crate) fn read_target(words: &mut Cursor) -> Result<Target, Misread>
    ensures { Answers (λ x. x) result words.new (target words.old) }
{
    if words.begins_with("head") {
        return read_header(words);
    }
    if words.begins_with("$") {
        return read_bound(words);
    }
    read_meta(words)
}
