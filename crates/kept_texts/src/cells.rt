//! Stacks of cells with their texts.

ghost use Rattle.std.specs.Prelude.{◌≡◌, ◌∷◌, [], map, string_bytes, false, IfOk, IfSome, IsTrue, OnOk};
ghost use Rattle.net_check.specs.Network.{network};
ghost use Rattle.serde_json.specs.Written.{compact_text};
ghost use Rattle.run_text.specs.Forms.{head_data, meta_data, term_data};
ghost use Rattle.run_text.specs.Held.{held_head, held_meta};
ghost use Rattle.record_text.specs.Reports.{record_pieces};
ghost use Rattle.kept_texts.specs.Kept.{Grows, piece};

use crate::bytes::{put, put_comma};
use crate::keys::{Key, stack_text};
use crate::members::OfNet;
use cell_stacks::Cell;
use lin_term::Term;
use net_check::Net;
use sn_width::{NameId, NoMemory, NodeId};
use std::alloc::Global;
use std::marker::PhantomData;

/// A key with its one cell, and their text.
#[derive(Drop)]
pub(crate) struct KeptCell<N: OfNet, K: Key> {
    key: K,
    cell: Cell<Term>,
    text: String,
    of: PhantomData<N>,
    ghost is: { string_bytes text ≡ compact_text (K.shown N.net key (cell ∷ [])) },
}

/// Stacks of cells in order, each with its text where it has one cell.
pub(crate) type KeptCells<N, K> = Vec<Option<KeptCell<N, K>>>;

/// Whether both are unset, or hold the same term.
fn same_value(left: &Option<Term>, right: &Option<Term>) -> bool
    ensures { IsTrue result → left.now ≡ right.now }
{
    match (left, right) {
        (None, None) => true,
        (Some(left), Some(right)) => left.same(right),
        _ => false,
    }
}

fn same_cell(left: &Cell<Term>, right: &Cell<Term>) -> bool
    ensures { IsTrue result → left.now ≡ right.now }
{
    left.width == right.width && same_value(&left.value, &right.value)
}

/// A copy of a cell.
fn copied(alloc: Global, cell: &Cell<Term>) -> Result<Cell<Term>, NoMemory>
    ensures { IfOk result (λ copy. copy ≡ cell.now) }
{
    let value = match &cell.value {
        None => None,
        Some(term) => Some(term.copy(alloc)?),
    };
    Ok(Cell {
        width: cell.width,
        value,
    })
}

/// The text of these cells at a key, where they are the one that is kept.
fn text_at<'k, N: OfNet, K: Key>(
    kept: &'k KeptCell<N, K>,
    key: K,
    cells: &[Cell<Term>],
) -> Option<&'k str>
    ensures { IfSome result (λ text. text.now ≡ compact_text (K.shown N.net key cells.now)) }
{
    match cells {
        [cell] => {
            if kept.key.is(key) && same_cell(&kept.cell, cell) {
                Some(kept.text.as_str())
            } else {
                None
            }
        }
        _ => None,
    }
}

/// The text of these cells at a key, where it is kept at this place.
fn found<'k, N: OfNet, K: Key>(
    entries: &'k [Option<KeptCell<N, K>>],
    place: usize,
    key: K,
    cells: &[Cell<Term>],
) -> Option<&'k str>
    ensures { IfSome result (λ text. text.now ≡ compact_text (K.shown N.net key cells.now)) }
{
    match entries.get(place) {
        Some(Some(kept)) => text_at(kept, key, cells),
        _ => None,
    }
}

/// What is kept of these cells with their text.
fn kept_of<N: OfNet, K: Key>(
    alloc: Global,
    key: K,
    cells: &[Cell<Term>],
    text: String,
) -> Result<Option<KeptCell<N, K>>, NoMemory>
    requires { string_bytes text ≡ compact_text (K.shown N.net key cells.now) }
{
    match cells {
        [cell] => Ok(Some(KeptCell {
            key,
            cell: copied(alloc, cell)?,
            text,
            of: PhantomData,
        })),
        _ => Ok(None),
    }
}

/// Keeps an entry at a place, or behind the others.
fn keep<N: OfNet, K: Key>(
    entries: &mut KeptCells<N, K>,
    place: usize,
    entry: Option<KeptCell<N, K>>,
) -> Result<(), NoMemory> {
    if place < entries.len() {
        entries[place] = entry;
    } else {
        entries.push(entry)?;
    }
    Ok(())
}

/// Puts the text of cells that are not kept, and keeps it.
fn put_new<N: OfNet, K: Key>(
    alloc: Global,
    net: &Net,
    entries: &mut KeptCells<N, K>,
    place: usize,
    key: K,
    cells: &[Cell<Term>],
    out: &mut String,
) -> Result<(), NoMemory>
    requires { network net.now ≡ N.net }
    ensures { OnOk result (Grows (compact_text (K.shown N.net key cells.now)) (string_bytes out.old)
        (string_bytes out.new)) }
{
    let text = stack_text(alloc, net, key, cells)?;
    put(out, &text)?;
    let entry = kept_of::<N, K>(alloc, key, cells, text)?;
    keep(entries, place, entry)?;
    Ok(())
}

/// Puts the text of the cells at a key, behind a comma where another one comes before it.
fn put_stack<N: OfNet, K: Key>(
    alloc: Global,
    net: &Net,
    entries: &mut KeptCells<N, K>,
    place: usize,
    later: bool,
    key: K,
    cells: &[Cell<Term>],
    out: &mut String,
) -> Result<(), NoMemory>
    requires { network net.now ≡ N.net }
    ensures { OnOk result (Grows (piece later (K.shown N.net key cells.now)) (string_bytes out.old)
        (string_bytes out.new)) }
{
    put_comma(out, later)?;
    match found(entries, place, key, cells) {
        Some(text) => put(out, text)?,
        None => put_new(alloc, net, entries, place, key, cells, out)?,
    }
    Ok(())
}

/// Puts the texts of addresses with their cells, joined by commas.
pub(crate) fn put_heads<N: OfNet>(
    alloc: Global,
    net: &Net,
    entries: &mut KeptCells<N, i32>,
    heads: &[(i32, Vec<Cell<Term>>)],
    out: &mut String,
) -> Result<(), NoMemory>
    requires { network net.now ≡ N.net }
    ensures { OnOk result (Grows (record_pieces false
        (map (λ p. head_data term_data p.0 p.1) (map held_head heads.now)))
        (string_bytes out.old) (string_bytes out.new)) }
{
    let mut place: usize = 0;
    let mut later = false;
    for (address, cells) in heads {
        put_stack(alloc, net, entries, place, later, *address, cells, out)?;
        place = place.saturating_add(1);
        later = true;
    }
    Ok(())
}

/// Puts the texts of metadata with their cells, joined by commas.
pub(crate) fn put_metas<N: OfNet>(
    alloc: Global,
    net: &Net,
    entries: &mut KeptCells<N, (Option<NodeId>, NameId)>,
    metas: &[(Option<NodeId>, NameId, Vec<Cell<Term>>)],
    out: &mut String,
) -> Result<(), NoMemory>
    requires { network net.now ≡ N.net }
    ensures { OnOk result (Grows (record_pieces false
        (map (λ p. meta_data term_data (network net.now) p.0 p.1 p.2) (map held_meta metas.now)))
        (string_bytes out.old) (string_bytes out.new)) }
{
    let mut place: usize = 0;
    let mut later = false;
    for (owner, name, cells) in metas {
        put_stack(
            alloc,
            net,
            entries,
            place,
            later,
            (*owner, *name),
            cells,
            out,
        )?;
        place = place.saturating_add(1);
        later = true;
    }
    Ok(())
}
