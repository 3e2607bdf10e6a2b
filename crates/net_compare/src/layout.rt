//! Whether two paths are delivered at one port, with one layout.

ghost use Rattle.std.specs.Prelude.{◌≡◌, ◌↔◌, IsTrue, Some, map, option_map};
ghost use Rattle.path_records.specs.Shown.{held_head};
ghost use Rattle.compare_meaning.specs.Outputs.{layout_of};
ghost use Rattle.net_compare.specs.Layouts.{SameCells, SameHeads};
ghost use Rattle.net_compare.specs.Saying.{exit_seen, seen_path};

use crate::delivery::Delivery;
use cell_stacks::Cell;
use lin_term::Term;

/// Whether the layouts of the header cells are the same: the addresses, and of each cell its width and whether it is set.
#[tactic(auto, using(crate::proofs::LayoutLemmas::same_heads_lie_alike))]
pub(crate) fn same_layout(
    heads: &[(i32, Vec<Cell<Term>>)],
    others: &[(i32, Vec<Cell<Term>>)],
) -> bool
    ensures { IsTrue result ↔ (layout_of (map held_head heads.now) ≡ layout_of (map held_head others.now)) }
{
    same_heads(heads, others)
}

#[tactic(auto, using(crate::proofs::LayoutLemmas::as_many_heads))]
fn same_heads(heads: &[(i32, Vec<Cell<Term>>)], others: &[(i32, Vec<Cell<Term>>)]) -> bool
    ensures { IsTrue result ↔ SameHeads (map held_head heads.now) (map held_head others.now) }
{
    if heads.len() != others.len() {
        return false;
    }
    for at in 0..heads.len() {
        if heads[at].0 != others[at].0 || !same_cells(&heads[at].1, &others[at].1) {
            return false;
        }
    }
    true
}

#[tactic(auto, using(crate::proofs::LayoutLemmas::as_many_cells))]
fn same_cells(cells: &[Cell<Term>], others: &[Cell<Term>]) -> bool
    ensures { IsTrue result ↔ SameCells cells.now others.now }
{
    if cells.len() != others.len() {
        return false;
    }
    for at in 0..cells.len() {
        if cells[at].width != others[at].width
            || cells[at].value.is_some() != others[at].value.is_some()
        {
            return false;
        }
    }
    true
}

/// Whether two paths are delivered at one port of boxes of one name.
pub(crate) fn same_exit(path: &Delivery<'_>, other: &Delivery<'_>) -> bool
    ensures { IsTrue result ↔ ((seen_path path.now).exit ≡ (seen_path other.now).exit) }
{
    match &path.exit {
        None => other.exit.is_none(),
        Some((name, port)) => is_exit(name, *port, &other.exit),
    }
}

/// Whether it is this exit.
fn is_exit(name: &str, port: u32, exit: &Option<(&str, u32)>) -> bool
    ensures { IsTrue result ↔ (Some (name.now, port) ≡ option_map exit_seen exit.now) }
{
    match exit {
        None => false,
        Some((other, at)) => port == *at && name == *other,
    }
}
