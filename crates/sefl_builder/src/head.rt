//! The words that begin instructions.

ghost use Rattle.std.specs.Prelude.{◌≡◌};
ghost use Rattle.sefl_builder.specs.Instructions.{head_ahead, way_ahead};

use crate::cursor::Cursor;

/// A word that begins an instruction.
#[derive(Clone, Copy, PartialEq, Eq)]
pub(crate) enum Head {
    Allocate,
    Deallocate,
    Set,
    Tag,
    Retag,
    Untag,
    Constrain,
    Fail,
    If,
    For,
    Forward,
    Fork,
    NoOp,
}

/// The word that comes next, if an instruction begins with it.
#[tactic(auto, unfolding(crate::specs::Instructions::head_ahead))]
pub(crate) fn head_ahead(words: &Cursor) -> Option<Head>
    ensures { result ≡ head_ahead words.now }
{
    if words.begins_with("allocate") {
        return Some(Head::Allocate);
    }
    if words.begins_with("deallocate") {
        return Some(Head::Deallocate);
    }
    if words.begins_with("set") {
        return Some(Head::Set);
    }
    if words.begins_with("tag") {
        return Some(Head::Tag);
    }
    if words.begins_with("retag") {
        return Some(Head::Retag);
    }
    if words.begins_with("untag") {
        return Some(Head::Untag);
    }
    if words.begins_with("constrain") {
        return Some(Head::Constrain);
    }
    if words.begins_with("noop") {
        return Some(Head::NoOp);
    }
    way_ahead(words)
}

/// The same for the words that tell where a packet goes on.
#[tactic(auto, unfolding(crate::specs::Instructions::way_ahead))]
fn way_ahead(words: &Cursor) -> Option<Head>
    ensures { result ≡ way_ahead words.now }
{
    if words.begins_with("if") {
        return Some(Head::If);
    }
    if words.begins_with("for") {
        return Some(Head::For);
    }
    if words.begins_with("forward") {
        return Some(Head::Forward);
    }
    if words.begins_with("fork") {
        return Some(Head::Fork);
    }
    if words.begins_with("fail") {
        return Some(Head::Fail);
    }
    None
}
