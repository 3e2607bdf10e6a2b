//! Metadata, global and local.

ghost use Rattle.std.specs.Prelude.{◌≡◌, ◌++◌, [], IfOk, OnOk, map};
ghost use Rattle.cell_stacks.specs.Cells.{AreStacks};
ghost use Rattle.cell_stacks.specs.Outcome.{lent, Meets};
ghost use Rattle.metadata_scopes.specs.Scopes.{key_cmp, allocated, deallocated, assigned, value_of, lent_meta, meta_of};
ghost use Rattle.metadata_scopes.specs.Snapshot.{present_of, snapshot};

use cell_stacks::{Cell, Stacks};
use sn_width::{LayoutFault, NameId, NoMemory, NodeId, StepFault, Width};
use std::alloc::Global;
use std::marker::Model;

/// The metadata of a packet, seen as the list of pairs of a key and its cells, the top one first,
/// ascending by key. A key is an owner, or none for a global, and a name; globals stand first.
/// No list of cells is empty, and the cells at one key have one width.
pub struct Scopes<V: Drop> {
    cells: Stacks<(Option<NodeId>, NameId), V>,
}

// Written out, and not derived, so that the proof of a function that lets one go sees a call.
impl<V: Drop> Drop for Scopes<V> {
    fn drop(self) {
        let Scopes { cells } = self;
        drop(cells);
    }
}

impl<V: Drop> Model for Scopes<V> {
    ghost use Rattle.std.specs.Prelude.{List, Option};
    ghost use Rattle.sn_width.specs.declared.ids.NodeId.{NodeId};
    ghost use Rattle.sn_width.specs.declared.ids.NameId.{NameId};
    ghost use Rattle.cell_stacks.specs.declared.cell.Cell.{Cell};

    ghost Value = { List ((Option NodeId × NameId) × List (Cell V)) };

    ghost view = { λ scopes. scopes.cells };
}

impl<V: Drop> Scopes<V> {
    /// No metadata.
    pub fn new() -> Scopes<V>
        ensures { result ≡ [] }
    {
        Scopes {
            cells: Stacks::empty(),
        }
    }

    /// The same metadata. Takes no memory; an `Err` says that a count of owners is full.
    pub fn fork(&self) -> Result<Scopes<V>, NoMemory>
        ensures same { IfOk result (λ copy. copy ≡ self.now) }
    {
        let cells = self.cells.fork()?;
        Ok(Scopes { cells })
    }

    /// Puts an unset cell on top of those of the metadata. WidthDiffers where they have another width.
    #[tactic(auto, using(crate::proofs::SeenLemmas::seen_stacks))]
    pub fn allocate(
        &mut self,
        alloc: Global,
        owner: Option<NodeId>,
        name: NameId,
        width: Width,
    ) -> Result<(), StepFault>
        ensures step { Meets (allocated owner name width self.old) result self.old self.new }
        ensures stacks { AreStacks key_cmp self.old }
    {
        self.cells.push(alloc, (owner, name), width)
    }

    /// Removes the top cell of the metadata. NoMeta where it is absent, WidthDiffers where the cell
    /// has another width.
    #[tactic(auto, using(crate::proofs::SeenLemmas::seen_stacks))]
    pub fn deallocate(
        &mut self,
        alloc: Global,
        owner: Option<NodeId>,
        name: NameId,
        width: Width,
    ) -> Result<(), StepFault>
        ensures step { Meets (deallocated owner name width self.old) result self.old self.new }
        ensures stacks { AreStacks key_cmp self.old }
    {
        self.cells
            .pop(alloc, (owner, name), width, LayoutFault::NoMeta)
    }

    /// Sets the value of the top cell of the metadata. NoMeta where it is absent, WidthDiffers where
    /// the cell has another width.
    #[tactic(auto, using(crate::proofs::SeenLemmas::seen_stacks))]
    pub fn assign(
        &mut self,
        alloc: Global,
        owner: Option<NodeId>,
        name: NameId,
        width: Width,
        value: V,
    ) -> Result<(), StepFault>
        ensures step { Meets (assigned owner name width value self.old) result self.old self.new }
        ensures stacks { AreStacks key_cmp self.old }
    {
        self.cells
            .set(alloc, (owner, name), width, value, LayoutFault::NoMeta)
    }

    /// The value of the top cell of the metadata. NoMeta where it is absent, WidthDiffers where the
    /// cell has another width, Unset where it has no value.
    pub fn read(&self, owner: Option<NodeId>, name: NameId, width: Width) -> Result<&V, LayoutFault>
        ensures { lent result ≡ value_of owner name width self.now }
    {
        self.cells.top(&(owner, name), width, LayoutFault::NoMeta)
    }

    /// All metadata with their cells, ascending, globals first, the cells from bottom to top, the
    /// values lent.
    #[tactic(auto, using(crate::proofs::SeenLemmas::seen_stacks))]
    pub fn metas(
        &self,
        alloc: Global,
    ) -> Result<Vec<(Option<NodeId>, NameId, Vec<Cell<&V>>)>, NoMemory>
        ensures all { IfOk result (λ metas. map lent_meta metas.items ≡ map meta_of self.now) }
        ensures stacks { AreStacks key_cmp self.now }
    {
        let mut metas = Vec::new(alloc);
        for ((owner, name), cells) in self.cells.all(alloc)? {
            let Ok(()) = metas.push((owner, name, cells)) else {
                return Err(NoMemory);
            };
        }
        Ok(metas)
    }

    /// What a loop over these names goes over at a box: the names that are allocated as globals, and
    /// then those that are allocated as locals of the box, each in the order of `names`.
    pub fn present(
        &self,
        alloc: Global,
        node: NodeId,
        names: &[NameId],
    ) -> Result<Vec<(Option<NodeId>, NameId)>, NoMemory>
        ensures { IfOk result (λ keys. keys.items ≡ snapshot node names.now self.now) }
    {
        let mut keys = Vec::new(alloc);
        self.add_present(&mut keys, None, names)?;
        self.add_present(&mut keys, Some(node), names)?;
        Ok(keys)
    }

    /// Adds the keys of the names that are allocated with this owner.
    fn add_present(
        &self,
        keys: &mut Vec<(Option<NodeId>, NameId)>,
        owner: Option<NodeId>,
        names: &[NameId],
    ) -> Result<(), NoMemory>
        ensures { OnOk result (keys.new.items ≡ keys.old.items ++ present_of owner names.now self.now) }
    {
        for name in names {
            if self.cells.has(&(owner, *name)) {
                keys.push((owner, *name))?;
            }
        }
        Ok(())
    }
}
