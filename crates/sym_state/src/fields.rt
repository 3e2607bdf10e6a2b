//! What a state shows.

ghost use Rattle.std.specs.Prelude.{◌≡◌, IfOk, map, reverse};
ghost use Rattle.cell_stacks.specs.Cells.{lent_cell, lent_stack};
ghost use Rattle.metadata_scopes.specs.Scopes.{lent_meta};
ghost use Rattle.path_records.specs.Shown.{fields_seen, held_head, held_meta};
ghost use Rattle.sefl_meaning.specs.Fields.{fields_of};

use crate::state::SymState;
use cell_stacks::Cell;
use lin_term::Term;
use path_records::Fields;
use sefl_meaning::{Decision, Place};
use sn_width::{NameId, NoMemory, NodeId};
use std::alloc::Global;

impl SymState {
    /// What is carried, as it is shown.
    pub fn fields(&self, alloc: Global) -> Result<Fields, NoMemory>
        ensures { IfOk result (λ fields. fields_seen fields ≡ fields_of self.now.carried) }
    {
        let tags = self.carried.layers.tags(alloc)?;
        let heads = self.carried.layers.heads(alloc)?;
        let heads = heads_copied(alloc, &heads)?;
        let metas = self.carried.scopes.metas(alloc)?;
        let metas = metas_copied(alloc, &metas)?;
        Ok(Fields { tags, heads, metas })
    }

    /// The decisions, in the order in which they were made.
    pub fn decisions(&self, alloc: Global) -> Result<Vec<Decision>, NoMemory>
        ensures { IfOk result (λ decisions. decisions.items ≡ reverse self.now.decisions) }
    {
        self.trace.decisions(alloc)
    }

    /// The ports that were arrived at, in this order.
    pub fn places(&self, alloc: Global) -> Result<Vec<Place>, NoMemory>
        ensures { IfOk result (λ places. places.items ≡ reverse self.now.places) }
    {
        self.trace.places(alloc)
    }
}

fn heads_copied(
    alloc: Global,
    heads: &[(i32, Vec<Cell<&Term>>)],
) -> Result<Vec<(i32, Vec<Cell<Term>>)>, NoMemory>
    ensures { IfOk result (λ list. map held_head list.items ≡ map lent_stack heads.now) }
{
    let mut list = Vec::new(alloc);
    for (address, cells) in heads {
        list.push((*address, cells_copied(alloc, cells)?))?;
    }
    Ok(list)
}

fn metas_copied(
    alloc: Global,
    metas: &[(Option<NodeId>, NameId, Vec<Cell<&Term>>)],
) -> Result<Vec<(Option<NodeId>, NameId, Vec<Cell<Term>>)>, NoMemory>
    ensures { IfOk result (λ list. map held_meta list.items ≡ map lent_meta metas.now) }
{
    let mut list = Vec::new(alloc);
    for (owner, name, cells) in metas {
        list.push((*owner, *name, cells_copied(alloc, cells)?))?;
    }
    Ok(list)
}

fn cells_copied(alloc: Global, cells: &[Cell<&Term>]) -> Result<Vec<Cell<Term>>, NoMemory>
    ensures { IfOk result (λ list. list.items ≡ map lent_cell cells.now) }
{
    let mut list = Vec::new(alloc);
    for cell in cells {
        list.push(cell_copied(alloc, cell)?)?;
    }
    Ok(list)
}

fn cell_copied(alloc: Global, cell: &Cell<&Term>) -> Result<Cell<Term>, NoMemory>
    ensures { IfOk result (λ copy. copy ≡ lent_cell cell.now) }
{
    let width = cell.width;
    match cell.value {
        None => Ok(Cell { width, value: None }),
        Some(term) => {
            let value = term.copy(alloc)?;
            Ok(Cell {
                width,
                value: Some(value),
            })
        }
    }
}
