//! Whether what a record shows is that of a state, whose values are lent.

ghost use Rattle.std.specs.Prelude.{◌≡◌, ◌↔◌, IsTrue, IfOk, map, option_map};
ghost use Rattle.cell_stacks.specs.Cells.{lent_cell, lent_stack};
ghost use Rattle.metadata_scopes.specs.Scopes.{lent_meta};
ghost use Rattle.path_records.specs.Shown.{fields_seen, held_head, held_meta};
ghost use Rattle.sefl_meaning.specs.Fields.{fields_of};

use cell_stacks::Cell;
use lin_term::Term;
use path_records::Fields;
use sefl_meaning::{End, Place};
use sn_width::{NameId, NoMemory, NodeId, TagId};
use std::alloc::Global;
use sym_state::SymState;

pub(crate) fn are_same_places(first: &[Place], second: &[Place]) -> bool
    ensures { IsTrue result ↔ (first.now ≡ second.now) }
{
    first == second
}

pub(crate) fn is_same_end(first: &End, second: &End) -> bool
    ensures { IsTrue result ↔ (first.now ≡ second.now) }
{
    first == second
}

fn is_same_value(first: &Option<&Term>, second: &Option<Term>) -> bool
    ensures { IsTrue result ↔ (option_map (λ value. value.now) first.now ≡ second.now) }
{
    match first {
        None => second.is_none(),
        Some(term) => match second {
            None => false,
            Some(other) => term.same(other),
        },
    }
}

fn is_same_cell(first: &Cell<&Term>, second: &Cell<Term>) -> bool
    ensures { IsTrue result ↔ (lent_cell first.now ≡ second.now) }
{
    if first.width != second.width {
        return false;
    }
    is_same_value(&first.value, &second.value)
}

fn are_same_cells(first: &[Cell<&Term>], second: &[Cell<Term>]) -> bool
    ensures { IsTrue result ↔ (map lent_cell first.now ≡ second.now) }
{
    if first.len() != second.len() {
        return false;
    }
    for place in 0..first.len() {
        if !is_same_cell(&first[place], &second[place]) {
            return false;
        }
    }
    true
}

fn are_same_tags(first: &[(TagId, i32)], second: &[(TagId, i32)]) -> bool
    ensures { IsTrue result ↔ (first.now ≡ second.now) }
{
    first == second
}

type LentHead<'a> = (i32, Vec<Cell<&'a Term>>);

type Head = (i32, Vec<Cell<Term>>);

fn is_same_head(first: &LentHead<'_>, second: &Head) -> bool
    ensures { IsTrue result ↔ (lent_stack first.now ≡ held_head second.now) }
{
    if first.0 != second.0 {
        return false;
    }
    are_same_cells(&first.1, &second.1)
}

fn are_same_heads(first: &[LentHead<'_>], second: &[Head]) -> bool
    ensures { IsTrue result ↔ (map lent_stack first.now ≡ map held_head second.now) }
{
    if first.len() != second.len() {
        return false;
    }
    for place in 0..first.len() {
        if !is_same_head(&first[place], &second[place]) {
            return false;
        }
    }
    true
}

type LentMeta<'a> = (Option<NodeId>, NameId, Vec<Cell<&'a Term>>);

type Meta = (Option<NodeId>, NameId, Vec<Cell<Term>>);

fn is_same_meta(first: &LentMeta<'_>, second: &Meta) -> bool
    ensures { IsTrue result ↔ (lent_meta first.now ≡ held_meta second.now) }
{
    if first.0 != second.0 || first.1 != second.1 {
        return false;
    }
    are_same_cells(&first.2, &second.2)
}

fn are_same_metas(first: &[LentMeta<'_>], second: &[Meta]) -> bool
    ensures { IsTrue result ↔ (map lent_meta first.now ≡ map held_meta second.now) }
{
    if first.len() != second.len() {
        return false;
    }
    for place in 0..first.len() {
        if !is_same_meta(&first[place], &second[place]) {
            return false;
        }
    }
    true
}

/// Whether these fields are what the state carries.
pub(crate) fn are_fields_of(
    alloc: Global,
    state: &SymState,
    fields: &Fields,
) -> Result<bool, NoMemory>
    ensures { IfOk result (λ yes. IsTrue yes ↔ (fields_of state.now.carried ≡ fields_seen fields.now)) }
{
    let tags = state.layers().tags(alloc)?;
    if !are_same_tags(&tags, &fields.tags) {
        return Ok(false);
    }
    let heads = state.layers().heads(alloc)?;
    if !are_same_heads(&heads, &fields.heads) {
        return Ok(false);
    }
    let metas = state.scopes().metas(alloc)?;
    Ok(are_same_metas(&metas, &fields.metas))
}
