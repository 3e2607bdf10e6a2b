//! What a state carries, as lists.

ghost use Rattle.std.specs.Prelude.{◌≡◌, ◌++◌, IfOk, OnOk, map};
ghost use Rattle.cell_stacks.specs.Cells.{lent_cell, lent_stack};
ghost use Rattle.metadata_scopes.specs.Scopes.{lent_meta};
ghost use Rattle.loop_meaning.specs.Visits.{value_list, values_in};
ghost use Rattle.loop_check.specs.Lists.{AreListsOf, head_values, listed_values, meta_values, terms_of};

use cell_stacks::Cell;
use lin_term::Term;
use sn_width::{NameId, NoMemory, NodeId, TagId};
use std::alloc::Global;
use sym_state::SymState;

/// An address with its cells, in bits, and the cells from bottom to top.
pub(crate) type Head<'a> = (i32, Vec<Cell<&'a Term>>);

/// A box, or none for a global, and a name with their cells from bottom to top.
pub(crate) type Meta<'a> = (Option<NodeId>, NameId, Vec<Cell<&'a Term>>);

/// What a state carries, as lists that ascend, the values lent.
pub(crate) struct Lists<'a> {
    pub(crate) tags: Vec<(TagId, i32)>,
    pub(crate) heads: Vec<Head<'a>>,
    pub(crate) metas: Vec<Meta<'a>>,
}

// Written out, and not derived, so that the proof of a function that lets lists go sees a call.
impl Drop for Lists<'_> {
    fn drop(self) {
        let Lists { tags, heads, metas } = self;
        drop(tags);
        drop(heads);
        drop(metas);
    }
}

/// The lists of a state.
pub(crate) fn lists_of(alloc: Global, state: &SymState) -> Result<Lists<'_>, NoMemory>
    ensures { IfOk result (AreListsOf state.now.carried) }
{
    let tags = state.layers().tags(alloc)?;
    let heads = state.layers().heads(alloc)?;
    let metas = state.scopes().metas(alloc)?;
    Ok(Lists { tags, heads, metas })
}

/// Adds the value of a cell that is set.
fn add_value<'a>(values: &mut Vec<&'a Term>, cell: &Cell<&'a Term>) -> Result<(), NoMemory>
    ensures { OnOk result (terms_of values.new.items
        ≡ terms_of values.old.items ++ value_list (lent_cell cell.now).value) }
{
    if let Some(value) = cell.value {
        values.push(value)?;
    }
    Ok(())
}

/// Adds the values of the cells that are set.
fn add_values<'a>(values: &mut Vec<&'a Term>, cells: &[Cell<&'a Term>]) -> Result<(), NoMemory>
    ensures { OnOk result (terms_of values.new.items
        ≡ terms_of values.old.items ++ values_in (map lent_cell cells.now)) }
{
    for cell in cells {
        add_value(values, cell)?;
    }
    Ok(())
}

/// Adds those of header cells.
fn add_head_values<'a>(values: &mut Vec<&'a Term>, heads: &[Head<'a>]) -> Result<(), NoMemory>
    ensures { OnOk result (terms_of values.new.items
        ≡ terms_of values.old.items ++ head_values (map lent_stack heads.now)) }
{
    for (_, cells) in heads {
        add_values(values, cells)?;
    }
    Ok(())
}

/// Adds those of metadata.
fn add_meta_values<'a>(values: &mut Vec<&'a Term>, metas: &[Meta<'a>]) -> Result<(), NoMemory>
    ensures { OnOk result (terms_of values.new.items
        ≡ terms_of values.old.items ++ meta_values (map lent_meta metas.now)) }
{
    for (_, _, cells) in metas {
        add_values(values, cells)?;
    }
    Ok(())
}

/// The values of the cells that are set, of header cells and then of metadata.
pub(crate) fn values_of<'a>(alloc: Global, lists: &Lists<'a>) -> Result<Vec<&'a Term>, NoMemory>
    ensures { IfOk result (λ values. terms_of values.items ≡ listed_values lists.now) }
{
    let mut values = Vec::new(alloc);
    add_head_values(&mut values, &lists.heads)?;
    add_meta_values(&mut values, &lists.metas)?;
    Ok(values)
}
