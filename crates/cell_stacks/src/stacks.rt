//! Stacks of cells under keys.

ghost use Rattle.std.specs.Prelude.{◌≡◌, [], IfOk, is_some, map, reverse};
ghost use Rattle.std.specs.Option.{option_map};
ghost use Rattle.sn_tree.specs.Pairs.{next_after, last_before};
ghost use Rattle.cell_stacks.specs.Outcome.{lent, Meets};
ghost use Rattle.cell_stacks.specs.Stacks.{stack_at};
ghost use Rattle.cell_stacks.specs.Cells.{AreStacks, accepts, top_cell, pushed, popped, with_top, top_value, width_at, key_and_width, lent_cell, lent_stack, bottom_up};

use crate::cell::Cell;
use crate::stack_map::StackMap;
use sn_tree::Shared;
use sn_width::{LayoutFault, NoMemory, StepFault, Width};
use std::alloc::Global;
use std::marker::Model;

/// A map from keys to stacks of cells, seen as the list of pairs of a key and its cells, the top one
/// first, ascending by key. No stack is empty, and the cells at one key have one width.
#[derive(Drop)]
pub struct Stacks<K: Ord + Copy, V: Drop> {
    cells: StackMap<K, Cell<V>>,
}

impl<K: Ord + Copy, V: Drop> Model for Stacks<K, V> {
    ghost use Rattle.std.specs.Prelude.{List};
    ghost use Rattle.cell_stacks.specs.declared.cell.Cell.{Cell};
    ghost use Rattle.cell_stacks.specs.Cells.{HaveOneWidth};

    ghost Value = { List (K × List (Cell V)) };

    ghost view = { λ stacks. stacks.cells };

    ghost invariant = { λ stacks. HaveOneWidth stacks.cells };
}

impl<K: Ord + Copy, V: Drop> Stacks<K, V> {
    /// No cells.
    pub fn empty() -> Stacks<K, V>
        ensures { result ≡ [] }
    {
        Stacks {
            cells: StackMap::new(),
        }
    }

    /// The same stacks. Takes no memory; an `Err` says that a count of owners is full.
    pub fn fork(&self) -> Result<Stacks<K, V>, NoMemory>
        ensures same { IfOk result (λ copy. copy ≡ self.now) }
    {
        let cells = self.cells.fork()?;
        Ok(Stacks { cells })
    }

    /// Whether a cell of this width may be put on those at the key.
    pub fn accepts(&self, key: &K, width: Width) -> bool
        ensures answer { result ≡ accepts width (stack_at K.cmp key.now self.now) }
        ensures stacks { AreStacks K.cmp self.now }
    {
        match self.cells.top(key) {
            None => true,
            Some(top) => top.width == width,
        }
    }

    /// Puts an unset cell on top of those at the key. WidthDiffers where they have another width.
    pub fn push(&mut self, alloc: Global, key: K, width: Width) -> Result<(), StepFault>
        ensures step { Meets (pushed K.cmp key width self.old) result self.old self.new }
        ensures stacks { AreStacks K.cmp self.old }
    {
        if !self.accepts(&key, width) {
            return Err(StepFault::Layout(LayoutFault::WidthDiffers));
        }
        self.cells.push(alloc, key, Cell { width, value: None })?;
        Ok(())
    }

    /// Removes the top cell at the key. `absent` where there is none, WidthDiffers where it has
    /// another width.
    pub fn pop(
        &mut self,
        alloc: Global,
        key: K,
        width: Width,
        absent: LayoutFault,
    ) -> Result<(), StepFault>
        ensures step { Meets (popped K.cmp absent key width self.old) result self.old self.new }
        ensures stacks { AreStacks K.cmp self.old }
    {
        self.top_cell(&key, width, absent)?;
        self.cells.pop(alloc, key)?;
        Ok(())
    }

    /// Sets the value of the top cell at the key. `absent` where there is none, WidthDiffers where
    /// it has another width.
    pub fn set(
        &mut self,
        alloc: Global,
        key: K,
        width: Width,
        value: V,
        absent: LayoutFault,
    ) -> Result<(), StepFault>
        ensures step { Meets (with_top K.cmp absent key width value self.old) result self.old self.new }
        ensures stacks { AreStacks K.cmp self.old }
    {
        self.top_cell(&key, width, absent)?;
        let cell = Cell {
            width,
            value: Some(value),
        };
        self.cells.replace_top(alloc, key, cell)?;
        Ok(())
    }

    /// The value of the top cell at the key. `absent` where there is none, WidthDiffers where it has
    /// another width, Unset where it has no value.
    pub fn top(&self, key: &K, width: Width, absent: LayoutFault) -> Result<&V, LayoutFault>
        ensures { lent result ≡ top_value K.cmp absent key.now width self.now }
    {
        let top = self.top_cell(key, width, absent)?;
        match &top.value {
            None => Err(LayoutFault::Unset),
            Some(value) => Ok(value),
        }
    }

    /// The width of the cells at the key; `None` exactly where there are none.
    pub fn width_at(&self, key: &K) -> Option<Width>
        ensures width { result ≡ width_at K.cmp key.now self.now }
        ensures stacks { AreStacks K.cmp self.now }
    {
        let top = self.cells.top(key)?;
        Some(top.width)
    }

    /// Whether there are cells at the key.
    pub fn has(&self, key: &K) -> bool
        ensures { result ≡ is_some (width_at K.cmp key.now self.now) }
    {
        self.width_at(key).is_some()
    }

    /// The least greater key, with the width of its cells; `None` exactly where there is none.
    pub fn above(&self, key: &K) -> Option<(K, Width)>
        ensures { result ≡ option_map key_and_width (next_after K.cmp key.now self.now) }
    {
        let (key, cells) = self.cells.above(key)?;
        let Some(top) = cells.top() else {
            unreachable!()
        };
        Some((*key, top.width))
    }

    /// The greatest smaller key, with the width of its cells; `None` exactly where there is none.
    pub fn below(&self, key: &K) -> Option<(K, Width)>
        ensures { result ≡ option_map key_and_width (last_before K.cmp key.now self.now) }
    {
        let (key, cells) = self.cells.below(key)?;
        let Some(top) = cells.top() else {
            unreachable!()
        };
        Some((*key, top.width))
    }

    /// All keys with their cells, ascending by key, the cells from bottom to top, the values lent.
    pub fn all(&self, alloc: Global) -> Result<Vec<(K, Vec<Cell<&V>>)>, NoMemory>
        ensures all { IfOk result (λ listed. map lent_stack listed.items ≡ map bottom_up self.now) }
        ensures stacks { AreStacks K.cmp self.now }
    {
        let mut listed = Vec::new(alloc);
        for (key, cells) in self.cells.pairs(alloc)? {
            let cells = lent_cells(alloc, cells)?;
            let Ok(()) = listed.push((*key, cells)) else {
                return Err(NoMemory);
            };
        }
        Ok(listed)
    }

    /// The top cell at the key.
    fn top_cell(&self, key: &K, width: Width, absent: LayoutFault) -> Result<&Cell<V>, LayoutFault>
        ensures cell { lent result ≡ top_cell absent width (stack_at K.cmp key.now self.now) }
        ensures stacks { AreStacks K.cmp self.now }
    {
        let Some(top) = self.cells.top(key) else {
            return Err(absent);
        };
        if top.width != width {
            return Err(LayoutFault::WidthDiffers);
        }
        Ok(top)
    }
}

/// The cells from bottom to top, the values lent.
fn lent_cells<V: Drop>(alloc: Global, cells: &Shared<Cell<V>>) -> Result<Vec<Cell<&V>>, NoMemory>
    ensures { IfOk result (λ listed. map lent_cell listed.items ≡ reverse cells.now) }
{
    let mut listed = Vec::new(alloc);
    for cell in cells.iter() {
        let Ok(()) = listed.push(cell.lent()) else {
            return Err(NoMemory);
        };
    }
    listed.reverse();
    Ok(listed)
}
