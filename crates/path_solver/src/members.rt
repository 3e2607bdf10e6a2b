//! The members of a condition's formulas that values break.

ghost use Rattle.std.specs.Prelude.{◌≡◌, ◌≤◌, true, length, IsTrue, OnOk};
ghost use Rattle.path_cond.specs.Coupled.{coupled_symbols};
ghost use Rattle.path_cond.specs.Picks.{is_inside_pick};
ghost use Rattle.path_solver.specs.Origins.{IsMemberAt};
ghost use Rattle.path_solver.specs.Problems.{IsProblem};

use crate::problem::Problem;
use path_cond::{PathCond, inside_picks};
use path_formula::{Formula, can_split, case_count_of, member_at};
use refutation_check::Listed;
use sn_width::{NoMemory, Num, SymId};
use std::alloc::Global;

/// The most cases of a conjunction that is taken as one member, and not part by part.
const MOST_OF_ONE: u64 = 16;

/// The ways to the members of a formula that values break, as they are found. That a way leads to a member is asked where it is used.
#[derive(Drop)]
struct Search {
    ways: Vec<Vec<u32>>,
    /// The way to where the search is.
    here: Vec<u32>,
}

impl Search {
    /// Adds the way to where the search is.
    fn note(&mut self, alloc: Global) -> Result<(), NoMemory> {
        let way = Vec::from_slice(alloc, &self.here)?;
        self.ways.push(way)?;
        Ok(())
    }
}

/// Whether the formula has more cases than one member is to have.
fn is_large(alloc: Global, formula: &Formula, holds: bool) -> Result<bool, NoMemory> {
    Ok(can_split(formula) && case_count_of(alloc, formula, holds)? > MOST_OF_ONE)
}

/// Adds the ways to the broken members of the formula, which is to have the truth `holds` and stands where the search is.
#[cycle(broken)]
fn find_broken(
    alloc: Global,
    search: &mut Search,
    formula: &Formula,
    holds: bool,
    values: &[Num],
) -> Result<(), NoMemory> {
    match formula {
        Formula::And(parts) => {
            if holds && is_large(alloc, formula, true)? {
                find_in_parts(alloc, search, parts, true, values)
            } else {
                search.note(alloc)
            }
        }
        Formula::Or(parts) => {
            if !holds && is_large(alloc, formula, false)? {
                find_in_parts(alloc, search, parts, false, values)
            } else {
                search.note(alloc)
            }
        }
        Formula::Not(part) => find_broken(alloc, search, part, !holds, values),
        Formula::Truth(_) => search.note(alloc),
        Formula::Compare { .. } => search.note(alloc),
        Formula::Member { .. } => search.note(alloc),
    }
}

/// The same of the parts of a conjunction, each of which is to have the truth.
#[cycle(broken)]
fn find_in_parts(
    alloc: Global,
    search: &mut Search,
    parts: &Vec<Formula>,
    holds: bool,
    values: &[Num],
) -> Result<(), NoMemory> {
    let mut number: u32 = 0;
    for part in parts {
        if !part.agrees(holds, values) {
            search.here.push(number)?;
            find_broken(alloc, search, part, holds, values)?;
            search.here.pop();
        }
        number = number.saturating_add(1);
    }
    Ok(())
}

/// The ways to the members of the formula of the pick that the values break; none where they give it the truth that it must have.
fn broken_ways(
    alloc: Global,
    cond: &PathCond,
    pick: u32,
    values: &[Num],
) -> Result<Vec<Vec<u32>>, NoMemory> {
    let mut search = Search {
        ways: Vec::new(alloc),
        here: Vec::new(alloc),
    };
    if let Some((formula, holds)) = cond.entry(pick) {
        if !formula.agrees(holds, values) {
            find_broken(alloc, &mut search, formula, holds, values)?;
        }
    }
    let Search { ways, .. } = search;
    Ok(ways)
}

/// Whether the way leads to a member of the formula of the pick, which is inside.
fn leads(cond: &PathCond, pick: u32, way: &[u32]) -> bool
    requires { is_inside_pick cond.now pick ≡ true }
    ensures { IsTrue result → IsMemberAt cond.now pick way.now }
{
    match cond.entry(pick) {
        None => false,
        Some((formula, holds)) => match member_at(formula, holds, way) {
            None => false,
            Some(_member) => true,
        },
    }
}

impl Problem {
    /// Adds the member to which the way leads in the formula of the pick, which is inside; false where it leads to none.
    fn add_where_it_leads(
        &mut self,
        alloc: Global,
        cond: &PathCond,
        symbols: &[SymId],
        pick: u32,
        way: Listed<u32>,
    ) -> Result<bool, NoMemory>
        requires symbols { symbols.now ≡ coupled_symbols cond.now }
        requires few { length symbols.now ≤ 64 }
        requires inside { is_inside_pick cond.now pick ≡ true }
        requires problem { IsProblem cond.now self.old }
        ensures { OnOk result (IsProblem cond.now self.new) }
    {
        if !leads(cond, pick, way.as_slice()) {
            return Ok(false);
        }
        self.add_member(alloc, cond, symbols, pick, way)?;
        Ok(true)
    }

    /// Adds the members of the formula of the pick, which is inside, that the values break; false where there is none.
    fn add_broken_of(
        &mut self,
        alloc: Global,
        cond: &PathCond,
        symbols: &[SymId],
        pick: u32,
        values: &[Num],
    ) -> Result<bool, NoMemory>
        requires symbols { symbols.now ≡ coupled_symbols cond.now }
        requires few { length symbols.now ≤ 64 }
        requires inside { is_inside_pick cond.now pick ≡ true }
        requires problem { IsProblem cond.now self.old }
        ensures { OnOk result (IsProblem cond.now self.new) }
    {
        let mut is_any = false;
        let mut ways = broken_ways(alloc, cond, pick, values)?;
        while let Some(way) = ways.pop() {
            let way = Listed::from_vec(way);
            is_any = self.add_where_it_leads(alloc, cond, symbols, pick, way)? || is_any;
        }
        Ok(is_any)
    }

    /// Adds the members of the inside formulas that the values break; false where there is none.
    pub(crate) fn add_broken(
        &mut self,
        alloc: Global,
        cond: &PathCond,
        symbols: &[SymId],
        values: &[Num],
    ) -> Result<bool, NoMemory>
        requires symbols { symbols.now ≡ coupled_symbols cond.now }
        requires few { length symbols.now ≤ 64 }
        requires problem { IsProblem cond.now self.old }
        ensures { OnOk result (IsProblem cond.now self.new) }
    {
        let mut is_any = false;
        let picks = inside_picks(alloc, cond)?;
        for pick in &picks {
            is_any = self.add_broken_of(alloc, cond, symbols, *pick, values)? || is_any;
        }
        Ok(is_any)
    }
}
