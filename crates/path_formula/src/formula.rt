//! Formulas.

ghost use Rattle.std.specs.Prelude.{◌≡◌, ◌↔◌, List, ℕ, IfOk, IsTrue, ◌&&◌};
ghost use Rattle.sn_ranges.specs.Ranges.{IsSetOf, fits_width};
ghost use Rattle.path_formula.specs.Formulas.{truth_at};
ghost use Rattle.path_formula.specs.Kinds.{kind_of};
ghost use Rattle.path_formula.specs.Solutions.{IsOver, agrees, alone};

use crate::copy::copy_of;
use crate::kinds::{Kind, kind_of_formula};
use crate::over::is_over_of;
use crate::solutions::solutions_of;
use crate::truth::truth_of;
use lin_term::Term;
use sn_ranges::Ranges;
use sn_width::{NoMemory, Num, Rel, SymId, Width};
use std::alloc::Global;
use std::rc::Rc;

/// A formula over the symbols of its terms. In a comparison the two terms, and in a membership
/// the term and the ranges, have one width.
#[derive(Drop)]
pub enum Formula {
    Truth(bool),
    Compare { rel: Rel, left: Term, right: Term },
    /// The ranges are shared, so that a copy takes no time for them.
    Member { value: Term, ranges: Rc<Ranges> },
    And(Vec<Formula>),
    Or(Vec<Formula>),
    Not(Box<Formula>),
}

impl Formula {
    ghost use Rattle.path_formula.specs.Formulas.{belongs};
    ghost use Rattle.path_formula.specs.View.{view};

    /// The membership of the term in the ranges.
    pub fn member(alloc: Global, value: Term, ranges: Ranges) -> Result<Formula, NoMemory>
        ensures { IfOk result (λ formula. view formula ≡ belongs value ranges) }
    {
        let ranges = Rc::new(alloc, ranges)?;
        Ok(Formula::Member { value, ranges })
    }

    /// The truth where each symbol is the number at its place in `values`, and 0 past their end.
    pub fn truth(&self, values: &[Num]) -> bool
        ensures { result ≡ truth_at (view self.now) values.now }
    {
        truth_of(self, values)
    }

    /// Whether the formula has the truth that it must have, at these values.
    pub fn agrees(&self, holds: bool, values: &[Num]) -> bool
        ensures { result ≡ agrees holds (truth_at (view self.now) values.now) }
    {
        if holds {
            self.truth(values)
        } else {
            !self.truth(values)
        }
    }

    /// An equal formula.
    pub fn copy(&self, alloc: Global) -> Result<Formula, NoMemory>
        ensures same { IfOk result (λ copy. view copy ≡ view self.now) }
        ensures truth { IfOk result (λ copy. (values : List ℕ)
            → truth_at (view copy) values ≡ truth_at (view self.now) values) }
    {
        copy_of(alloc, self)
    }

    /// What decides the formula.
    pub fn kind(&self) -> Kind
        ensures { result ≡ kind_of (view self.now) }
    {
        kind_of_formula(self)
    }

    /// Whether each comparison and membership is constant, or single on the symbol and of the width.
    pub fn is_over(&self, symbol: SymId, width: Width) -> bool
        ensures { IsTrue result ↔ IsOver symbol width (view self.now) }
    {
        is_over_of(self, symbol, width)
    }

    /// The values x of the width for which the formula has the truth `holds` where the symbol is x.
    /// The symbol has this width, and no other symbol decides the formula.
    pub fn solutions(
        &self,
        alloc: Global,
        symbol: SymId,
        width: Width,
        holds: bool,
    ) -> Result<Ranges, NoMemory>
        requires { IsOver symbol width (view self.now) }
        ensures { IfOk result (IsSetOf width (λ x. fits_width width x
            && agrees holds (truth_at (view self.now) (alone symbol x)))) }
    {
        solutions_of(alloc, self, symbol, width, holds)
    }
}
