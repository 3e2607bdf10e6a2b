//! A cell.

use sn_width::Width;

/// A place for a value of a width.
#[derive(Drop)]
pub struct Cell<V> {
    pub width: Width,
    /// `None` where the cell is unset.
    pub value: Option<V>,
}

impl<V> Cell<V> {
    ghost use Rattle.std.specs.Prelude.{◌≡◌};
    ghost use Rattle.cell_stacks.specs.Cells.{lent_cell};

    /// The cell, with its value lent.
    pub fn lent(&self) -> Cell<&V>
        ensures { lent_cell result ≡ self.now }
    {
        Cell {
            width: self.width,
            value: self.value.as_ref(),
        }
    }
}
