//! Domains of symbols, and what constant and simple formulas decide.

ghost use Rattle.std.specs.Prelude.{ℕ, List};
ghost use Rattle.path_formula.specs.Typed.{IsTyped};
ghost use Rattle.path_formula.specs.View.{view as tree_of};
ghost use Rattle.interval_solver.specs.Domains.{AreDomainsOf};

use crate::build::Atom::*;
use crate::build::Side::*;
use crate::build::{Atom, bits, formula_of, free, shows};
use interval_solver::{Domains, SimpleVerdict, decide_simple, laws};
use path_cond::PathCond;
use path_formula::Formula;
use sn_width::{NoMemory, Num, Rel, SymId, Width};
use std::alloc::Global;
use std::marker::Model;
use std::process::Abort;

/// A condition with its domains.
#[derive(Drop)]
struct Kept {
    cond: PathCond,
    domains: Domains,
}

impl Model for Kept {
    ghost use Rattle.std.specs.Prelude.{ℕ, List};
    ghost use Rattle.interval_solver.specs.Domains.{AreDomainsOf};

    ghost Value = { List ℕ };

    ghost view = { λ k. k.cond.widths };

    ghost invariant = { λ k. AreDomainsOf k.cond k.domains };
}

/// The condition with one formula more, and its domains.
fn extended(
    alloc: Global,
    cond: &PathCond,
    domains: &Domains,
    formula: Formula,
    holds: bool,
) -> Result<Kept, NoMemory>
    requires typed { IsTyped cond.now.widths (tree_of formula) }
    requires domains { AreDomainsOf cond.now domains.now }
{
    laws::one_formula_more_may_be_met();
    let next = cond.with(alloc, formula, holds)?;
    let domains = domains.meet(alloc, &next)?;
    Ok(Kept {
        cond: next,
        domains,
    })
}

/// Drops the condition and its domains, which is proved once here and not in each caller.
fn let_go(_kept: Kept) {}

/// What a simple decision is to be.
enum Wanted {
    Values(&'static [Num]),
    False(u32),
    Empty(u64, &'static [u32]),
}

impl Kept {
    fn new(alloc: Global, cond: PathCond) -> Result<Kept, NoMemory> {
        let domains = Domains::of(alloc, &cond)?;
        Ok(Kept { cond, domains })
    }

    /// With an atom, which must have this truth.
    fn with(&self, rt: &impl Abort, alloc: Global, width: Width, atom: Atom, holds: bool) -> Kept {
        let formula = formula_of(rt, alloc, &self.cond, width, atom);
        extended(alloc, &self.cond, &self.domains, formula, holds).expect(rt, "memory")
    }

    /// Whether this is the decision.
    fn is_decided(&self, alloc: Global, wanted: &Wanted) -> Result<bool, NoMemory> {
        let verdict = decide_simple(alloc, &self.cond, &self.domains)?;
        Ok(is_wanted(&verdict, wanted))
    }
}

/// With an atom, of a condition that ends here.
fn next(rt: &impl Abort, alloc: Global, kept: Kept, width: Width, atom: Atom, holds: bool) -> Kept {
    let next = kept.with(rt, alloc, width, atom, holds);
    let_go(kept);
    next
}

fn is_wanted(verdict: &SimpleVerdict, wanted: &Wanted) -> bool {
    match (verdict, wanted) {
        (SimpleVerdict::Values { values }, Wanted::Values(numbers)) => {
            values.as_slice() == *numbers
        }
        (SimpleVerdict::False { pick }, Wanted::False(wanted)) => pick == wanted,
        (SimpleVerdict::Empty { symbol, picks }, Wanted::Empty(id, wanted)) => {
            symbol.0 == *id && picks.as_slice() == *wanted
        }
        _ => false,
    }
}

/// Atoms with the truths that they must have, over `symbols` symbols; the decision, and the domains of the first symbols.
struct Row {
    bits: u8,
    symbols: usize,
    atoms: &'static [(Atom, bool)],
    decision: Wanted,
    domains: &'static [&'static [(Num, Num)]],
}

/// `x < 5`.
const LOW: (Atom, bool) = (Compare(Symbol(0), Rel::Lt, Number(5)), true);

/// `x > 9`.
const HIGH: (Atom, bool) = (Compare(Symbol(0), Rel::Gt, Number(9)), true);

/// `y > 200`.
const HIGH_SECOND: (Atom, bool) = (Compare(Symbol(1), Rel::Gt, Number(200)), true);

/// `y < 100`.
const LOW_SECOND: (Atom, bool) = (Compare(Symbol(1), Rel::Lt, Number(100)), true);

/// `x >= 7`.
const SEVEN: (Atom, bool) = (Compare(Symbol(0), Rel::Ge, Number(7)), true);

const ROWS: &[Row] = &[
    Row {
        bits: 8,
        symbols: 1,
        atoms: &[LOW],
        decision: Wanted::Values(&[0]),
        domains: &[&[(0, 4)]],
    },
    Row {
        bits: 8,
        symbols: 1,
        atoms: &[LOW, HIGH],
        decision: Wanted::Empty(0, &[0, 1]),
        domains: &[&[]],
    },
    // false goes before empty
    Row {
        bits: 8,
        symbols: 1,
        atoms: &[(Truth(true), false)],
        decision: Wanted::False(0),
        domains: &[],
    },
    Row {
        bits: 8,
        symbols: 1,
        atoms: &[LOW, HIGH, (Truth(false), true)],
        decision: Wanted::False(2),
        domains: &[],
    },
    // pairs leave domains whole
    Row {
        bits: 32,
        symbols: 2,
        atoms: &[
            (Compare(Symbol(0), Rel::Lt, Symbol(1)), true),
            (Compare(Symbol(1), Rel::Lt, Symbol(0)), true),
        ],
        decision: Wanted::Values(&[0, 0]),
        domains: &[&[(0, 4294967295)], &[(0, 4294967295)]],
    },
    // an empty domain is kept
    Row {
        bits: 8,
        symbols: 2,
        atoms: &[HIGH_SECOND, LOW_SECOND, SEVEN],
        decision: Wanted::Empty(1, &[0, 1]),
        domains: &[],
    },
    Row {
        bits: 8,
        symbols: 2,
        atoms: &[
            HIGH_SECOND,
            LOW_SECOND,
            SEVEN,
            (Compare(Symbol(0), Rel::Eq, Number(3)), true),
        ],
        decision: Wanted::Empty(0, &[2, 3]),
        domains: &[],
    },
];

/// Whether the symbol is there and its domain has these ranges.
fn leaves(domains: &Domains, id: u64, ranges: &[(Num, Num)]) -> bool {
    match domains.get(SymId(id)) {
        None => false,
        Some(set) => shows(set, ranges),
    }
}

fn fresh(rt: &impl Abort, alloc: Global, width: Width, symbols: usize) -> Kept {
    let cond = free(rt, alloc, width, symbols);
    Kept::new(alloc, cond).expect(rt, "memory")
}

/// Symbols of this width, and the atoms, whose domains are met one by one.
fn met_one_by_one(
    rt: &impl Abort,
    alloc: Global,
    width: Width,
    symbols: usize,
    atoms: &[(Atom, bool)],
) -> Kept {
    let mut kept = fresh(rt, alloc, width, symbols);
    for (atom, holds) in atoms {
        kept = next(rt, alloc, kept, width, *atom, *holds);
    }
    kept
}

fn check_domains(rt: &impl Abort, domains: &Domains, wanted: &[&[(Num, Num)]]) {
    for (id, ranges) in wanted.iter().enumerate() {
        assert!(rt; leaves(domains, id as u64, ranges));
    }
}

fn check_decision(rt: &impl Abort, alloc: Global, kept: &Kept, wanted: &Wanted) {
    assert!(rt; kept.is_decided(alloc, wanted).expect(rt, "memory"));
}

fn check_row(rt: &impl Abort, alloc: Global, row: &Row) {
    assert!(rt; 1 <= row.bits && row.bits <= 128);
    let kept = met_one_by_one(rt, alloc, bits(row.bits), row.symbols, row.atoms);
    check_domains(rt, &kept.domains, row.domains);
    check_decision(rt, alloc, &kept, &row.decision);
    let_go(kept);
}

#[test]
fn simple_formulas_are_decided(rt: HostRuntime) {
    for row in ROWS {
        check_row(&rt, rt.alloc(), row);
    }
}

/// The domains of `x < 5`, at 8 bits, and of a symbol of 16 bits.
const WIDER: &[&[(Num, Num)]] = &[&[(0, 4)], &[(0, 65535)]];

/// Asserts the domains with a symbol more.
fn check_wider(rt: &impl Abort, alloc: Global, domains: &Domains) {
    let wider = domains.with_symbol(alloc, bits(16)).expect(rt, "memory");
    check_domains(rt, &wider, WIDER);
}

/// Asserts that there is one symbol, and that its domain is not empty.
fn check_old(rt: &impl Abort, domains: &Domains) {
    assert!(rt; domains.get(SymId(1)).is_none());
    assert!(rt; domains.first_empty().is_none());
}

/// Asserts that a symbol more leaves a fork of these domains of one symbol as it was.
fn check_fork(rt: &impl Abort, alloc: Global, domains: &Domains) {
    let fork = domains.fork().expect(rt, "a copy");
    check_wider(rt, alloc, &fork);
    check_old(rt, &fork);
}

#[test]
fn forks_and_new_symbols_leave_the_old_domains(rt: HostRuntime) {
    let kept = met_one_by_one(&rt, rt.alloc(), bits(8), 1, &[LOW]);
    check_fork(&rt, rt.alloc(), &kept.domains);
    let_go(kept);
}

#[test]
fn laws_are_there_to_cite() {
    laws::domains_are_unique();
}

/// With the formula that the symbol of the pick, of two, is at least its number.
fn with_at_least(rt: &impl Abort, alloc: Global, kept: Kept, pick: u16) -> Kept {
    let side = Symbol(u64::from(pick % 2));
    let atom = Compare(side, Rel::Ge, Number(Num::from(pick)));
    next(rt, alloc, kept, bits(16), atom, true)
}

/// Two symbols of 16 bits, with 2,000 formulas that are met one by one.
fn large(rt: &impl Abort, alloc: Global) -> Kept {
    let mut kept = fresh(rt, alloc, bits(16), 2);
    for pick in 0..2000u16 {
        kept = with_at_least(rt, alloc, kept, pick);
    }
    kept
}

const LARGE: &[&[(Num, Num)]] = &[&[(1998, 65535)], &[(1999, 65535)]];

const LEAST: &Wanted = &Wanted::Values(&[1998, 1999]);

/// Asserts that the domains are found anew.
fn check_anew(rt: &impl Abort, alloc: Global, cond: &PathCond, wanted: &[&[(Num, Num)]]) {
    let anew = Domains::of(alloc, cond).expect(rt, "memory");
    check_domains(rt, &anew, wanted);
}

#[test]
fn many_formulas_are_met_one_by_one(rt: HostRuntime) {
    let kept = large(&rt, rt.alloc());
    check_decision(&rt, rt.alloc(), &kept, LEAST);
    check_anew(&rt, rt.alloc(), &kept.cond, LARGE);
    let_go(kept);
}
