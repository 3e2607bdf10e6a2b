//! Terms and cells.

ghost use Rattle.std.specs.Prelude.{◌≡◌, IfOk, ◌∷◌, [], true};
ghost use Rattle.serde_json.specs.View.{view};
ghost use Rattle.net_check.specs.Network.{network};
ghost use Rattle.report_shape.specs.declared.part.Part.TheVariants as part;
ghost use Rattle.report_shape.specs.Reduced.{is_reduced};
ghost use Rattle.run_text.specs.Forms.{cell_data, cells_data, term_data, term_part_data, term_parts_data};
ghost use Rattle.std.specs.List.{AllByRecursion};
ghost use Rattle.report_forms.specs.Fits.{CellFits};
ghost use Rattle.path_report.specs.Having.{HasForm, IsRow, IsTermPart};

use crate::decoder::{Decoder, item};
use cell_stacks::Cell;
use lin_term::Term;
use report_shape::laws::large_numbers_have_digits;
use serde_json::Value;
use sn_width::{NoMemory, Num, SymId};
use std::alloc::Global;

impl Decoder<'_> {
    /// A symbol with its coefficient.
    fn term(&self, alloc: Global, value: &Value) -> Result<(SymId, Num), NoMemory>
        requires { IsRow (network self.now.net.now) (part.Count ∷ part.Value ∷ []) (view value.now) }
        ensures shown { IfOk result (λ term. term_part_data term ≡ view value.now) }
        ensures fits { IfOk result (λ term. IsTermPart term) }
    {
        let symbol = self.count(item(value, 0));
        let coefficient = self.value(alloc, item(value, 1))?;
        Ok((SymId(symbol), coefficient))
    }

    #[tactic(auto, unfolding(run_text::specs::Forms::term_parts_data))]
    fn terms(&self, alloc: Global, value: &Value) -> Result<Vec<(SymId, Num)>, NoMemory>
        requires { HasForm (network self.now.net.now) part.Terms (view value.now) }
        ensures shown { IfOk result (λ found. term_parts_data found.items ≡ view value.now) }
        ensures fits { IfOk result (λ found. AllByRecursion IsTermPart found.items) }
    {
        let Value::Array(items) = value else {
            unreachable!();
        };
        let mut found = Vec::new(alloc);
        for item in items {
            found.push(self.term(alloc, item)?)?;
        }
        Ok(found)
    }

    /// A cell that is set.
    fn set_cell(&self, alloc: Global, value: &Value) -> Result<Cell<Term>, NoMemory>
        requires parts { IsRow (network self.now.net.now) (part.Width ∷ part.Value ∷ part.Terms ∷ []) (view value.now) }
        requires reduced { is_reduced (view value.now) ≡ true }
        ensures shown { IfOk result (λ cell. cell_data term_data cell ≡ view value.now) }
        ensures fits { IfOk result (λ cell. CellFits cell) }
    {
        large_numbers_have_digits();
        let width = self.width(item(value, 0));
        let constant = self.value(alloc, item(value, 1))?;
        let terms = self.terms(alloc, item(value, 2))?;
        match Term::of_parts(width, constant, terms) {
            Some(term) => Ok(Cell {
                width,
                value: Some(term),
            }),
            None => unreachable!(),
        }
    }

    /// A cell that is unset.
    fn unset_cell(&self, value: &Value) -> Cell<Term>
        requires { IsRow (network self.now.net.now) (part.Width ∷ []) (view value.now) }
        ensures shown { cell_data term_data result ≡ view value.now }
        ensures fits { CellFits result }
    {
        Cell {
            width: self.width(item(value, 0)),
            value: None,
        }
    }

    fn cell(&self, alloc: Global, value: &Value) -> Result<Cell<Term>, NoMemory>
        requires { HasForm (network self.now.net.now) part.Cell (view value.now) }
        ensures shown { IfOk result (λ cell. cell_data term_data cell ≡ view value.now) }
        ensures fits { IfOk result (λ cell. CellFits cell) }
    {
        match value.get(1) {
            Some(_) => self.set_cell(alloc, value),
            None => Ok(self.unset_cell(value)),
        }
    }

    #[tactic(auto, unfolding(run_text::specs::Forms::cells_data))]
    pub(crate) fn cells(&self, alloc: Global, value: &Value) -> Result<Vec<Cell<Term>>, NoMemory>
        requires { HasForm (network self.now.net.now) part.Cells (view value.now) }
        ensures shown { IfOk result (λ found. cells_data term_data found.items ≡ view value.now) }
        ensures fits { IfOk result (λ found. AllByRecursion CellFits found.items) }
    {
        let Value::Array(items) = value else {
            unreachable!();
        };
        let mut found = Vec::new(alloc);
        for item in items {
            found.push(self.cell(alloc, item)?)?;
        }
        Ok(found)
    }
}
