//! New symbols.

ghost use Rattle.std.specs.Prelude.{◌≡◌, length, IfOk};
ghost use Rattle.path_trace.specs.Traces.{with_symbol};
ghost use Rattle.term_values.specs.TermValues.{symbol_term};

use crate::trace::Trace;
use lin_term::Term;
use sn_width::{NoMemory, Width};
use std::alloc::Global;
use term_values::symbol;

impl Trace {
    /// The next symbol as a term, at a width. Its number is that of the symbols before.
    pub fn next_symbol(&self, alloc: Global, width: Width) -> Result<Term, NoMemory>
        ensures { IfOk result (λ t. t ≡ symbol_term width (length self.now.condition.widths)) }
    {
        symbol(alloc, width, self.condition.symbols())
    }

    /// The trace with one symbol more, which comes after the others. This one stays as it is.
    pub fn with_symbol(&self, alloc: Global, width: Width) -> Result<Trace, NoMemory>
        ensures { IfOk result (λ next. next ≡ with_symbol self.now width) }
    {
        let decisions = self.decisions.fork()?;
        let places = self.places.fork()?;
        self.condition.formulas_are_typed();
        let domains = self.domains.with_symbol(alloc, width)?;
        let condition = self.condition.with_symbol(alloc, width)?;
        Ok(Trace {
            condition,
            domains,
            decisions,
            places,
        })
    }
}
