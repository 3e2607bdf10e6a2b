//! The domains of the symbols of a condition.

ghost use Rattle.std.specs.Prelude.{◌≡◌, ◌<◌, [], ◌∷◌, ◌++◌, ◌&&◌, true, slice_get, slice_set, IfOk, option_copied};
ghost use Rattle.std.specs.Option.{option_map};
ghost use Rattle.sn_ranges.specs.Ranges.{RangeSet, IsSetOf, fits_width};
ghost use Rattle.path_formula.specs.Kinds.{kind_of};
ghost use Rattle.path_formula.specs.Typed.{IsTyped};
ghost use Rattle.path_formula.specs.View.{view as tree_of};
ghost use Rattle.path_formula.specs.declared.kinds.Kind.TheVariants.{Simple as SimpleKind};
ghost use Rattle.path_cond.specs.Conditions.{AllTyped, Condition};

use crate::empty::{after_change, after_push};
use crate::sets::Sets;
use path_cond::PathCond;
use path_cond::laws::{each_formula_is_typed, no_formula_is_simple_on_an_unknown_symbol};
use path_formula::laws::a_simple_formula_is_over_its_symbol;
use path_formula::{Formula, Kind};
use sn_ranges::Ranges;
use sn_width::{NoMemory, SymId, Width};
use std::alloc::Global;
use std::marker::Model;

/// For each symbol of a condition its domain: the values of its width that meet each formula that
/// is simple on it. A change makes new domains that share what they can with the old ones, and
/// leaves the old ones as they were.
#[derive(Drop)]
pub struct Domains {
    sets: Sets,
    /// The least symbol whose domain is empty.
    empty: Option<u64>,
}

impl Model for Domains {
    ghost use Rattle.std.specs.Prelude.{◌≡◌, List};
    ghost use Rattle.sn_ranges.specs.Ranges.{RangeSet};
    ghost use Rattle.interval_solver.specs.Domains.{first_empty};

    ghost Value = { List RangeSet };

    ghost view = { λ d. d.sets };

    ghost invariant = { λ d. d.empty ≡ first_empty d.sets };
}

impl Domains {
    ghost use Rattle.interval_solver.specs.Domains.{AreDomainsOf, AreDomainsBefore, AreDomainsBeforeLast, IsFilledAt, with_width, first_empty};

    fn none() -> Domains
        ensures { result ≡ [] }
    {
        Domains {
            sets: Sets::empty(),
            empty: None,
        }
    }

    /// The domains of the condition's symbols.
    pub fn of(alloc: Global, cond: &PathCond) -> Result<Domains, NoMemory>
        ensures { IfOk result (AreDomainsOf cond.now) }
    {
        let mut domains = Domains::none();
        for symbol in 0..cond.symbols() {
            let set = cond.domain(alloc, SymId(symbol))?;
            domains = domains.push(alloc, set)?;
        }
        Ok(domains)
    }

    /// The domains of a condition that has one formula more than the one whose domains these are.
    pub fn meet(&self, alloc: Global, cond: &PathCond) -> Result<Domains, NoMemory>
        requires { AreDomainsBeforeLast cond.now self.now }
        ensures { IfOk result (AreDomainsOf cond.now) }
    {
        cond.formulas_are_typed();
        each_formula_is_typed();
        let Ok(pick) = u32::try_from(cond.len() - 1) else {
            return Err(NoMemory);
        };
        match cond.entry(pick) {
            None => unreachable!(),
            Some((formula, holds)) => self.met(alloc, cond, formula, holds),
        }
    }

    /// The domains of the condition, whose last formula is this one and must have this truth.
    fn met(
        &self,
        alloc: Global,
        cond: &PathCond,
        formula: &Formula,
        holds: bool,
    ) -> Result<Domains, NoMemory>
        requires before { AreDomainsBefore cond.now self.now (formula.now, holds) }
        requires typed { IsTyped cond.now.widths (tree_of formula.now) }
        ensures { IfOk result (AreDomainsOf cond.now) }
    {
        match formula.kind() {
            Kind::Simple { symbol } => self.met_at(alloc, cond, formula, holds, symbol),
            Kind::Constant(_) => self.fork(),
            Kind::Inside => self.fork(),
            Kind::Outside => self.fork(),
        }
    }

    /// The domains of the condition, whose last formula is this one, simple on the symbol.
    fn met_at(
        &self,
        alloc: Global,
        cond: &PathCond,
        formula: &Formula,
        holds: bool,
        symbol: SymId,
    ) -> Result<Domains, NoMemory>
        requires before { AreDomainsBefore cond.now self.now (formula.now, holds) }
        requires typed { IsTyped cond.now.widths (tree_of formula.now) }
        requires simple { kind_of (tree_of formula.now) ≡ SimpleKind symbol }
        ensures { IfOk result (AreDomainsOf cond.now) }
    {
        let Some(set) = self.get(symbol) else {
            return self.fork();
        };
        if set.is_empty() {
            return self.fork();
        }
        a_simple_formula_is_over_its_symbol();
        let width = set.width();
        let more = formula.solutions(alloc, symbol, width, holds)?;
        let met = set.meet(alloc, &more)?;
        self.with(alloc, symbol, met)
    }

    /// The domains of the condition whose domains these are, with one symbol of this width more.
    pub fn with_symbol(&self, alloc: Global, width: Width) -> Result<Domains, NoMemory>
        ensures { IfOk result (λ next. (cond : Condition) → AreDomainsOf cond self.now
            → AllTyped cond.widths cond.entries → AreDomainsOf (with_width cond width) next) }
    {
        no_formula_is_simple_on_an_unknown_symbol();
        let all = all_values(alloc, width)?;
        self.push(alloc, all)
    }

    /// The same domains. Takes no memory; an `Err` says that the count of owners is full.
    pub fn fork(&self) -> Result<Domains, NoMemory>
        ensures { IfOk result (λ copy. copy ≡ self.now) }
    {
        let empty = self.empty;
        let sets = self.sets.fork()?;
        Ok(Domains { sets, empty })
    }

    /// The domain of a symbol; `None` exactly past the last symbol.
    pub fn get(&self, symbol: SymId) -> Option<&Ranges>
        ensures { option_copied result ≡ slice_get self.now symbol.0 }
    {
        self.sets.get(symbol.0)
    }

    /// The least symbol whose domain is empty.
    pub fn first_empty(&self) -> Option<SymId>
        ensures { option_map (λ s. s.0) result ≡ first_empty self.now }
    {
        match self.empty {
            None => None,
            Some(place) => Some(SymId(place)),
        }
    }

    /// With one more domain, that of the next symbol.
    fn push(&self, alloc: Global, set: Ranges) -> Result<Domains, NoMemory>
        ensures { IfOk result (λ longer. longer ≡ self.now ++ set ∷ []) }
    {
        let empty = after_push(self.empty, set.is_empty(), self.sets.len());
        let sets = self.sets.push(alloc, set)?;
        Ok(Domains { sets, empty })
    }

    /// With this domain of the symbol, in the stead of one that is not empty.
    fn with(&self, alloc: Global, symbol: SymId, set: Ranges) -> Result<Domains, NoMemory>
        requires { IsFilledAt self.now symbol.0 }
        ensures { IfOk result (λ domains. domains ≡ slice_set self.now symbol.0 set) }
    {
        let empty = after_change(self.empty, set.is_empty(), symbol.0);
        let sets = self.sets.with(alloc, symbol.0, set)?;
        Ok(Domains { sets, empty })
    }
}

/// All values of the width.
fn all_values(alloc: Global, width: Width) -> Result<Ranges, NoMemory>
    ensures { IfOk result (IsSetOf width (λ x. fits_width width x && true)) }
{
    Formula::Truth(true).solutions(alloc, SymId(0), width, true)
}
