//! Path conditions.

ghost use Rattle.std.specs.Prelude.{◌≡◌, ◌<◌, [], ◌∷◌, ◌++◌, length, reverse, slice_get, unwrap_or, option_copied, IfOk};
ghost use Rattle.std.specs.Option.{option_map};
ghost use Rattle.path_formula.specs.Typed.{IsTyped};
ghost use Rattle.path_formula.specs.View.{view};

use crate::domain::all_hold;
use crate::kept::{broken_with, simple_with};
use crate::marks::Marks;
use crate::sequence::Sequence;
use crate::singles::Single;
use crate::summary::Summary;
use path_formula::Formula;
use path_formula::case_laws::an_inside_formula_has_cases;
use sn_tree::{Shared, Tree};
use sn_width::{NoMemory, Num, SymId, Width};
use std::alloc::Global;
use std::marker::Model;

/// The widths of symbols, and formulas over them, each with the truth that it must have; and a bound on
/// the choices of cases that a decision tries. A formula's pick is its place, from 0. A change makes a new
/// condition that shares what it can with the old one, and leaves the old one as it was. There are fewer
/// than 2^32 symbols and 2^32 formulas.
#[derive(Drop)]
pub struct PathCond {
    widths: Sequence<Width>,
    entries: Sequence<(Formula, bool)>,
    /// The least pick of a constant formula that has the other truth.
    broken: Option<u32>,
    /// For each symbol that has one, the picks of its simple formulas, the newest first.
    simple: Tree<u64, Shared<u32>>,
    /// What else is kept of the formulas.
    summary: Summary,
    most_choices: u64,
}

impl Model for PathCond {
    ghost use Rattle.std.specs.Coded.{codes};
    ghost use Rattle.path_formula.specs.contracts.formula.Formula as the_formula;
    ghost use Rattle.path_cond.specs.Conditions.{Condition, IsKept};
    ghost use Rattle.path_cond.specs.Summaries.{IsKnown};

    ghost Value = { Condition };

    ghost coded = { Prim.hlevel (codes, the_formula.the_row.coded) };

    ghost view = { λ c. record { widths = c.widths; entries = c.entries; most_choices = c.most_choices } };

    ghost invariant = { λ c. IsKept c.widths c.entries c.broken c.simple × IsKnown c.entries c.summary };
}

impl PathCond {
    ghost use Rattle.path_cond.specs.Conditions.{AllTyped, Condition, first_broken, holds_at, simple_picks};
    ghost use Rattle.path_cond.specs.Marks.{has_mark};
    ghost use Rattle.path_cond.specs.Seen.{tried};
    ghost use Rattle.path_cond.specs.Summaries.{coupled_count, coupled_symbols, formula_choices, first_without_cases, inside_picks, is_coupled, outside_picks, singles};
    ghost use Rattle.sn_width.specs.declared.ids.SymId.{SymId as Symbol};
    ghost use Rattle.path_formula.specs.CaseCounts.{capped};

    /// The condition without formulas over symbols of these widths, of which at most `most_choices` choices of
    /// cases are tried.
    pub fn new(alloc: Global, widths: Vec<Width>, most_choices: u64) -> Result<PathCond, NoMemory>
        ensures { IfOk result (λ c. c
            ≡ record { widths = widths.items; entries = []; most_choices = most_choices }) }
    {
        let widths = Sequence::from_vec(alloc, &widths)?;
        Ok(PathCond {
            widths,
            entries: Sequence::empty(),
            broken: None,
            simple: Tree::empty(),
            summary: Summary::new(),
            most_choices,
        })
    }

    /// The same condition. Takes no memory; an `Err` says that the count of owners is full.
    pub fn fork(&self) -> Result<PathCond, NoMemory>
        ensures { IfOk result (λ c. c ≡ self.now) }
    {
        let widths = self.widths.fork()?;
        let entries = self.entries.fork()?;
        let broken = self.broken;
        let summary = self.summary.fork()?;
        match self.simple.fork() {
            Err(_) => Err(NoMemory),
            Ok(simple) => Ok(PathCond {
                widths,
                entries,
                broken,
                simple,
                summary,
                most_choices: self.most_choices,
            }),
        }
    }

    /// The bound on the choices of cases that are tried.
    pub fn most_choices(&self) -> u64
        ensures { result ≡ self.now.most_choices }
    {
        self.most_choices
    }

    /// How many choices of cases are tried: as many as the bound says, and one at least.
    pub fn tried_choices(&self) -> u64
        ensures { result ≡ tried self.now.most_choices }
    {
        match self.most_choices {
            0 => 1,
            most => most,
        }
    }

    /// The number of formulas.
    pub fn len(&self) -> u64
        ensures { result ≡ length self.now.entries }
    {
        u64::from(self.entries.len())
    }

    /// The number of symbols.
    pub fn symbols(&self) -> u64
        ensures { result ≡ length self.now.widths }
    {
        u64::from(self.widths.len())
    }

    /// The width of a symbol; `None` exactly past the last symbol.
    pub fn width(&self, symbol: SymId) -> Option<Width>
        ensures { result ≡ slice_get self.now.widths symbol.0 }
    {
        if symbol.0 >= u64::from(self.widths.len()) {
            return None;
        }
        self.widths.get(symbol.0 as u32).copied()
    }

    /// The formula of a pick and the truth that it must have; `None` exactly past the last formula.
    pub fn entry(&self, pick: u32) -> Option<(&Formula, bool)>
        ensures { option_map (λ e. (e.0.now, e.1)) result ≡ slice_get self.now.entries pick }
    {
        let entry = self.entries.get(pick)?;
        Some((&entry.0, entry.1))
    }

    /// The condition with one symbol more, which comes after the others.
    pub fn with_symbol(&self, alloc: Global, width: Width) -> Result<PathCond, NoMemory>
        ensures { IfOk result (λ c. c
            ≡ record self.now { widths = self.now.widths ++ width ∷ [] }) }
    {
        let widths = self.widths.push(alloc, width)?;
        let entries = self.entries.fork()?;
        let broken = self.broken;
        let summary = self.summary.fork()?;
        match self.simple.fork() {
            Err(_) => Err(NoMemory),
            Ok(simple) => Ok(PathCond {
                widths,
                entries,
                broken,
                simple,
                summary,
                most_choices: self.most_choices,
            }),
        }
    }

    /// The condition with one formula more, which must have the truth `holds`.
    pub fn with(&self, alloc: Global, formula: Formula, holds: bool) -> Result<PathCond, NoMemory>
        requires { IsTyped self.now.widths (view formula) }
        ensures { IfOk result (λ c. c
            ≡ record self.now { entries = self.now.entries ++ (formula, holds) ∷ [] }) }
    {
        let kind = formula.kind();
        let pick = self.entries.len();
        let broken = broken_with(self.broken, kind, holds, pick);
        let simple = simple_with(alloc, &self.simple, kind, pick)?;
        an_inside_formula_has_cases();
        let summary = self.summary.with(alloc, &formula, holds, kind, pick)?;
        let widths = self.widths.fork()?;
        let entries = self.entries.push(alloc, (formula, holds))?;
        Ok(PathCond {
            widths,
            entries,
            broken,
            simple,
            summary,
            most_choices: self.most_choices,
        })
    }

    /// Whether each formula has the truth that it must have, where each symbol is the number at its
    /// place in `values`, and 0 past their end.
    pub fn holds(&self, values: &[Num]) -> bool
        ensures { result ≡ holds_at self.now values.now }
    {
        all_hold(&self.entries, values)
    }

    /// Says that each formula is typed over the symbols. It does nothing.
    pub fn formulas_are_typed(&self)
        ensures { AllTyped self.now.widths self.now.entries }
    {
        let _entries = &self.entries;
    }

    /// The least pick of a constant formula that has not the truth that it must have.
    pub fn first_broken(&self) -> Option<u32>
        ensures { result ≡ first_broken self.now }
    {
        self.broken
    }

    /// The picks of the formulas that are simple on the symbol, the newest first; `None` only where
    /// there is none.
    pub fn simple_picks(&self, symbol: SymId) -> Option<&Shared<u32>>
        ensures { unwrap_or (option_copied result) [] ≡ reverse (simple_picks symbol self.now) }
    {
        self.simple.get(&symbol.0)
    }

    /// The picks of the inside formulas, the newest first.
    pub fn inside_picks(&self) -> &Shared<u32>
        ensures { result.now ≡ reverse (inside_picks self.now) }
    {
        &self.summary.inside
    }

    /// The picks of the outside formulas, the newest first.
    pub fn outside_picks(&self) -> &Shared<u32>
        ensures { result.now ≡ reverse (outside_picks self.now) }
    {
        &self.summary.outside
    }

    /// The number of choices of a case of each inside formula, and `2^64 - 1` where there are more.
    pub fn formula_choices(&self) -> u64
        ensures { result ≡ capped (formula_choices self.now) }
    {
        self.summary.choices
    }

    /// The bounds of the inside formulas that have one case alone, each with its formula's pick, in the order of the formulas.
    /// Takes the time of their number.
    pub fn singles(&self, alloc: Global) -> Result<Vec<Single>, NoMemory>
        ensures { IfOk result (λ list. list.items ≡ singles self.now) }
    {
        self.summary.singles.to_vec(alloc)
    }

    /// The least pick of an inside formula without cases.
    pub fn first_without_cases(&self) -> Option<u32>
        ensures { result ≡ first_without_cases self.now }
    {
        self.summary.caseless
    }

    /// The marks of the symbols that occur in inside formulas.
    fn marks(&self) -> &Marks
        ensures { (s : Symbol) → has_mark result.now s ≡ is_coupled self.now s }
    {
        &self.summary.marks
    }

    /// The symbols that occur in inside formulas, in comparisons and memberships that are not constant; ascending. Takes
    /// the time of their number.
    pub fn coupled_symbols(&self, alloc: Global) -> Result<Vec<SymId>, NoMemory>
        ensures { IfOk result (λ symbols. symbols.items ≡ coupled_symbols self.now) }
    {
        self.formulas_are_typed();
        self.marks().symbols(alloc)
    }

    /// The number of these symbols.
    pub fn coupled_count(&self) -> u64
        ensures { result ≡ coupled_count self.now }
    {
        self.formulas_are_typed();
        self.marks().len()
    }
}
