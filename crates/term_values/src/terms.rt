//! Terms as the values of cells, and formulas as tests.

ghost use Rattle.std.specs.Prelude.{◌≡◌, ◌%◌, ◌^◌, ◌<◌, map, IfOk};
ghost use Rattle.path_formula.specs.View.{view};
ghost use Rattle.term_values.specs.TermValues.{number_term, symbol_term, terms};

use cell_values::Arithmetic;
use lin_term::Term;
use path_formula::Formula;
use sefl_syntax::RangeList;
use sn_width::{NoMemory, Num, Rel, SymId, Width};
use std::alloc::Global;

/// The operations on terms and formulas, where there are this many unknown fields.
#[derive(Clone, Copy)]
pub struct Terms {
    pub unknowns: u64,
}

impl Terms {
    /// The choice of this number, from 0; want of memory where its symbol has no number below 2^64.
    pub fn choice(&self, alloc: Global, width: Width, number: u64) -> Result<Term, NoMemory>
        ensures { IfOk result (λ t. t ≡ (terms self.now.unknowns).choice width number) }
    {
        match self.unknowns.checked_add(number) {
            Some(place) => symbol(alloc, width, place),
            None => Err(NoMemory),
        }
    }
}

impl Arithmetic for Terms {
    ghost use Rattle.path_formula.specs.Formulas.{FormulaTree};
    ghost use Rattle.path_formula.specs.View.{view};
    ghost use Rattle.term_values.specs.TermValues.{terms};

    type Value = Term;

    type Test = Formula;

    ghost Truth = { FormulaTree };

    ghost truth = { view };

    ghost values = { λ o. terms o.unknowns };

    /// An equal term.
    fn copied(&self, alloc: Global, value: &Term) -> Result<Term, NoMemory> {
        value.copy(alloc)
    }

    /// The number modulo `2^w`.
    fn constant(&self, alloc: Global, width: Width, number: Num) -> Result<Term, NoMemory> {
        number_term(alloc, width, number)
    }

    /// The symbol of this number.
    fn unknown(&self, alloc: Global, width: Width, number: u64) -> Result<Term, NoMemory> {
        symbol(alloc, width, number)
    }

    /// `left + right`, modulo `2^w`; 0 where one of the two has another width.
    fn plus(
        &self,
        alloc: Global,
        width: Width,
        left: &Term,
        right: &Term,
    ) -> Result<Term, NoMemory> {
        if left.width() == width && right.width() == width {
            return left.plus(alloc, right);
        }
        number_term(alloc, width, 0)
    }

    /// `left - right`, modulo `2^w`; 0 where one of the two has another width.
    fn minus(
        &self,
        alloc: Global,
        width: Width,
        left: &Term,
        right: &Term,
    ) -> Result<Term, NoMemory> {
        if left.width() == width && right.width() == width {
            return left.minus(alloc, right);
        }
        number_term(alloc, width, 0)
    }

    /// Whether the first stands in the relation to the second.
    fn compare(&self, _width: Width, rel: Rel, left: Term, right: Term) -> Formula {
        Formula::Compare { rel, left, right }
    }

    /// Whether the term lies in one of the ranges, which may come in any order.
    fn member(
        &self,
        alloc: Global,
        width: Width,
        value: Term,
        ranges: &RangeList,
    ) -> Result<Formula, NoMemory> {
        let ranges = ranges.set(alloc, width)?;
        Ok(Formula::Member { value, ranges })
    }

    /// The test that always holds.
    fn always(&self) -> Formula {
        Formula::Truth(true)
    }

    /// Whether all of the tests hold.
    fn all_of(&self, tests: Vec<Formula>) -> Formula
        ensures { view result ≡ (terms self.now.unknowns).all_of (map view tests.items) }
    {
        Formula::And(tests)
    }

    /// Whether one of the tests holds.
    fn any_of(&self, tests: Vec<Formula>) -> Formula
        ensures { view result ≡ (terms self.now.unknowns).any_of (map view tests.items) }
    {
        Formula::Or(tests)
    }

    /// Whether the test does not hold.
    fn negation(&self, alloc: Global, test: Formula) -> Result<Formula, NoMemory> {
        Ok(Formula::Not(Box::new(alloc, test)?))
    }
}

/// The symbol of this number.
pub fn symbol(alloc: Global, width: Width, number: u64) -> Result<Term, NoMemory>
    ensures { IfOk result (λ t. t ≡ symbol_term width number) }
{
    // No width is 0.
    prove!(width.bits() >= 1);
    Term::of_symbol(alloc, width, SymId(number))
}

/// The number modulo `2^w`, as a term.
fn number_term(alloc: Global, width: Width, number: Num) -> Result<Term, NoMemory>
    ensures { IfOk result (λ t. t ≡ number_term width number) }
{
    Term::of_const(alloc, width, reduced(width, number))
}

/// The number modulo `2^w`.
fn reduced(width: Width, number: Num) -> Num
    ensures value { result ≡ number % 2 ^ width }
    ensures fits { result < 2 ^ width }
{
    let max = width.max();
    if number <= max {
        return number;
    }
    number % (max + 1)
}
