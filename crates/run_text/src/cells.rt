//! Cells.

ghost use Rattle.std.specs.Prelude.{List, OnOk};
ghost use Rattle.serde_json.specs.Data.{Data};
ghost use Rattle.run_text.specs.Tokens.{AddsAll, Gains};
ghost use Rattle.run_text.specs.Forms.{count, given_by, cell_data, cells_data, number_parts, term_data};

use crate::JsonText;
use crate::json_laws::lists_are_written;
use crate::parts::write_value;
use crate::terms::write_parts;
use cell_stacks::Cell;
use lin_term::Term;
use sn_width::{NoMemory, Num, Width};
use std::alloc::Global;

/// A value that a cell may hold.
pub trait CellValue {
    // What the value gives in the list of a set cell, behind the width.
    ghost given: { Self → List Data };

    /// Writes what the value gives.
    fn write_given(&self, alloc: Global, out: &mut JsonText) -> Result<(), NoMemory>
        ensures { OnOk result (AddsAll (given self.now) out.old out.new) };
}

/// A number gives itself.
impl CellValue for &Num {
    ghost given = { λ value. number_parts value.now };

    fn write_given(&self, alloc: Global, out: &mut JsonText) -> Result<(), NoMemory> {
        lists_are_written();
        write_value(alloc, out, **self)?;
        Ok(())
    }
}

/// A term gives its constant, and the list of its symbols with their coefficients.
impl CellValue for Term {
    ghost given = { term_data };

    fn write_given(&self, alloc: Global, out: &mut JsonText) -> Result<(), NoMemory> {
        lists_are_written();
        write_value(alloc, out, self.constant())?;
        write_parts(alloc, out, self)?;
        Ok(())
    }
}

fn write_value_of<V: CellValue>(
    alloc: Global,
    out: &mut JsonText,
    value: &Option<V>,
) -> Result<(), NoMemory>
    ensures { OnOk result (AddsAll (given_by V.given value.now) out.old out.new) }
{
    lists_are_written();
    match value {
        None => Ok(()),
        Some(value) => value.write_given(alloc, out),
    }
}

fn write_width(out: &mut JsonText, width: Width) -> Result<(), NoMemory>
    ensures { Gains (count width) result out.old out.new }
{
    out.id(u32::from(width.bits()))
}

fn write_cell<V: CellValue>(
    alloc: Global,
    out: &mut JsonText,
    cell: &Cell<V>,
) -> Result<(), NoMemory>
    ensures { Gains (cell_data V.given cell.now) result out.old out.new }
{
    lists_are_written();
    out.begin_list()?;
    write_width(out, cell.width)?;
    write_value_of(alloc, out, &cell.value)?;
    out.end_list()?;
    Ok(())
}

/// A list of cells: `[WIDTH]` where a cell is unset, else the width and what the value gives.
#[tactic(auto, unfolding(crate::specs::Forms::cells_data))]
pub(crate) fn write_cells<V: CellValue>(
    alloc: Global,
    out: &mut JsonText,
    cells: &[Cell<V>],
) -> Result<(), NoMemory>
    ensures { Gains (cells_data V.given cells.now) result out.old out.new }
{
    out.begin_list()?;
    for cell in cells {
        write_cell(alloc, out, cell)?;
    }
    out.end_list()?;
    Ok(())
}
