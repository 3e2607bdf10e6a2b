//! Marks of the symbols that occur in inside formulas.

ghost use Rattle.std.specs.Prelude.{◌≡◌, ◌==◌, ◌&&◌, ◌||◌, [], true, map, length, IfOk, OnOk};
ghost use Rattle.std.specs.Ordering.{nat_cmp};
ghost use Rattle.sn_tree.specs.Pairs.{IsAscending};
ghost use Rattle.path_formula.specs.Kinds.{is_constant_kind};
ghost use Rattle.path_formula.specs.Terms.{shape_of};
ghost use Rattle.path_formula.specs.View.{view, views};
ghost use Rattle.path_formula.specs.Splits.{CanSplit, EachCanSplit};
ghost use Rattle.path_cond.specs.Marks.{Adds, IsPlain, marked_symbol};
ghost use Rattle.path_cond.specs.Occurring.{stands_in, occurs_in, occurs_among};

use lin_term::Term;
use path_formula::{AtomKind, Formula, Shape};
use sn_tree::Tree;
use sn_width::{NoMemory, SymId};
use std::alloc::Global;
use std::marker::Model;

/// Symbols that have a mark, and their number.
#[derive(Drop)]
pub(crate) struct Marks {
    symbols: Tree<u64, ()>,
    count: u64,
}

impl Model for Marks {
    ghost use Rattle.std.specs.Prelude.{◌≡◌, ℕ, List, length};

    ghost Value = { List (ℕ × Unit {0}) };

    ghost view = { λ m. m.symbols };

    ghost invariant = { λ m. m.count ≡ length m.symbols };
}

impl Marks {
    pub(crate) fn none() -> Marks
        ensures { result ≡ [] }
    {
        Marks {
            symbols: Tree::empty(),
            count: 0,
        }
    }

    /// The same marks. Takes no memory; an `Err` says that the count of owners is full.
    pub(crate) fn fork(&self) -> Result<Marks, NoMemory>
        ensures { IfOk result (λ copy. copy ≡ self.now) }
    {
        let count = self.count;
        match self.symbols.fork() {
            Ok(symbols) => Ok(Marks { symbols, count }),
            Err(_) => Err(NoMemory),
        }
    }

    /// The number of symbols that have a mark. The look into the tree is for its order alone.
    pub(crate) fn len(&self) -> u64
        ensures count { result ≡ length self.now }
        ensures ascending { IsAscending nat_cmp self.now }
    {
        let _first = self.symbols.get(&0);
        self.count
    }

    /// The symbols that have a mark, ascending.
    pub(crate) fn symbols(&self, alloc: Global) -> Result<Vec<SymId>, NoMemory>
        ensures all { IfOk result (λ symbols. symbols.items ≡ map marked_symbol self.now) }
        ensures ascending { IsAscending nat_cmp self.now }
    {
        let mut symbols = Vec::new(alloc);
        let pairs = self.symbols.pairs(alloc)?;
        for (symbol, _) in pairs {
            symbols.push(SymId(*symbol))?;
        }
        Ok(symbols)
    }

    /// Marks the symbol.
    fn mark(&mut self, alloc: Global, symbol: SymId) -> Result<(), NoMemory>
        ensures { OnOk result (Adds self.old self.new (λ s. symbol.0 == s.0)) }
    {
        if self.symbols.get(&symbol.0).is_some() {
            return Ok(());
        }
        let Some(count) = self.count.checked_add(1) else {
            return Err(NoMemory);
        };
        match self.symbols.with(alloc, symbol.0, ()) {
            Err(_) => Err(NoMemory),
            Ok(symbols) => {
                self.symbols = symbols;
                self.count = count;
                Ok(())
            }
        }
    }
}

/// Marks the symbol of the term, which is a constant or a symbol plus a constant.
fn mark_term(alloc: Global, marks: &mut Marks, term: &Term) -> Result<(), NoMemory>
    requires { IsPlain (shape_of term.now) }
    ensures { OnOk result (Adds marks.old marks.new (λ s. stands_in s term.now.parts)) }
{
    match Shape::of(term) {
        Shape::Number => Ok(()),
        Shape::Symbol { symbol } => marks.mark(alloc, symbol),
        Shape::Other => Ok(()),
    }
}

/// Marks the symbols of two terms.
fn mark_terms(alloc: Global, marks: &mut Marks, left: &Term, right: &Term) -> Result<(), NoMemory>
    requires left { IsPlain (shape_of left.now) }
    requires right { IsPlain (shape_of right.now) }
    ensures { OnOk result (Adds marks.old marks.new
        (λ s. stands_in s left.now.parts || stands_in s right.now.parts)) }
{
    mark_term(alloc, marks, left)?;
    mark_term(alloc, marks, right)
}

fn is_constant(atom: AtomKind) -> bool
    ensures { result ≡ is_constant_kind atom }
{
    match atom {
        AtomKind::Constant => true,
        AtomKind::Single { .. } => false,
        AtomKind::Pair => false,
        AtomKind::Outside => false,
    }
}

/// Marks the symbols that stand in atoms of the formula that are not constant.
#[cycle(mark)]
fn mark_formula(alloc: Global, marks: &mut Marks, formula: &Formula) -> Result<(), NoMemory>
    requires { CanSplit (view formula.now) }
    ensures { OnOk result (Adds marks.old marks.new (λ s. occurs_in s (view formula.now))) }
{
    match formula {
        Formula::Truth(_) => Ok(()),
        Formula::Compare { left, right, .. } => {
            if is_constant(AtomKind::of_comparison(left, right)) {
                return Ok(());
            }
            mark_terms(alloc, marks, left, right)
        }
        Formula::Member { value, .. } => {
            if is_constant(AtomKind::of_membership(value)) {
                return Ok(());
            }
            mark_term(alloc, marks, value)
        }
        Formula::And(parts) => mark_all(alloc, marks, parts),
        Formula::Or(parts) => mark_all(alloc, marks, parts),
        Formula::Not(part) => mark_formula(alloc, marks, part),
    }
}

#[cycle(mark)]
fn mark_all(alloc: Global, marks: &mut Marks, parts: &Vec<Formula>) -> Result<(), NoMemory>
    requires { EachCanSplit (views parts.now.items) }
    ensures { OnOk result (Adds marks.old marks.new (λ s. occurs_among s (views parts.now.items))) }
{
    for part in parts {
        mark_formula(alloc, marks, part)?;
    }
    Ok(())
}

/// The marks, with those of the symbols that occur in the formula, where it is inside.
pub(crate) fn marked(
    alloc: Global,
    marks: &Marks,
    formula: &Formula,
    inside: bool,
) -> Result<Marks, NoMemory>
    requires { inside ≡ true → CanSplit (view formula.now) }
    ensures { IfOk result (λ new. Adds marks.now new (λ s. inside && occurs_in s (view formula.now))) }
{
    let mut new = marks.fork()?;
    if inside {
        mark_formula(alloc, &mut new, formula)?;
    }
    Ok(new)
}
