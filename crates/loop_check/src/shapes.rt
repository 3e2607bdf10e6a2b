//! Whether two states carry the same but for values.

ghost use Rattle.std.specs.Prelude.{◌≡◌, ◌↔◌, IsTrue, map};
ghost use Rattle.loop_check.specs.Lists.{head_shape, meta_shape, shape_in, shape_of};

use crate::lists::{Head, Lists, Meta};
use cell_stacks::Cell;
use lin_term::Term;
use sn_width::TagId;

fn is_same_cell(first: &Cell<&Term>, second: &Cell<&Term>) -> bool
    ensures { IsTrue result ↔ (shape_of first.now ≡ shape_of second.now) }
{
    if first.width != second.width {
        return false;
    }
    match first.value {
        None => second.value.is_none(),
        Some(_) => second.value.is_some(),
    }
}

fn are_same_cells(first: &[Cell<&Term>], second: &[Cell<&Term>]) -> bool
    ensures { IsTrue result ↔ (map shape_of first.now ≡ map shape_of second.now) }
{
    if first.len() != second.len() {
        return false;
    }
    for place in 0..first.len() {
        if !is_same_cell(&first[place], &second[place]) {
            return false;
        }
    }
    true
}

fn are_same_tags(first: &[(TagId, i32)], second: &[(TagId, i32)]) -> bool
    ensures { IsTrue result ↔ (first.now ≡ second.now) }
{
    first == second
}

fn is_same_head(first: &Head<'_>, second: &Head<'_>) -> bool
    ensures { IsTrue result ↔ (head_shape first.now ≡ head_shape second.now) }
{
    if first.0 != second.0 {
        return false;
    }
    are_same_cells(&first.1, &second.1)
}

fn are_same_heads(first: &[Head<'_>], second: &[Head<'_>]) -> bool
    ensures { IsTrue result ↔ (map head_shape first.now ≡ map head_shape second.now) }
{
    if first.len() != second.len() {
        return false;
    }
    for place in 0..first.len() {
        if !is_same_head(&first[place], &second[place]) {
            return false;
        }
    }
    true
}

fn is_same_meta(first: &Meta<'_>, second: &Meta<'_>) -> bool
    ensures { IsTrue result ↔ (meta_shape first.now ≡ meta_shape second.now) }
{
    if first.0 != second.0 || first.1 != second.1 {
        return false;
    }
    are_same_cells(&first.2, &second.2)
}

fn are_same_metas(first: &[Meta<'_>], second: &[Meta<'_>]) -> bool
    ensures { IsTrue result ↔ (map meta_shape first.now ≡ map meta_shape second.now) }
{
    if first.len() != second.len() {
        return false;
    }
    for place in 0..first.len() {
        if !is_same_meta(&first[place], &second[place]) {
            return false;
        }
    }
    true
}

/// Whether the lists are the same but for the values of cells: tags, addresses, names, how many cells stand there, their widths, and
/// which are set.
pub(crate) fn have_same_shape(first: &Lists<'_>, second: &Lists<'_>) -> bool
    ensures { IsTrue result ↔ (shape_in first.now ≡ shape_in second.now) }
{
    if !are_same_tags(&first.tags, &second.tags) {
        return false;
    }
    if !are_same_heads(&first.heads, &second.heads) {
        return false;
    }
    are_same_metas(&first.metas, &second.metas)
}
