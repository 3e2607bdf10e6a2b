//! What is kept of the formulas of a condition beside their picks by symbol.

ghost use Rattle.std.specs.Prelude.{◌≡◌, ◌==◌, ◌&&◌, [], ◌∷◌, ◌++◌, true, List, length, if◌then◌else◌, IfOk};
ghost use Rattle.path_formula.specs.Kinds.{kind_of};
ghost use Rattle.path_formula.specs.View.{view};
ghost use Rattle.path_formula.specs.CaseCounts.{capped};
ghost use Rattle.path_formula.specs.Splits.{CanSplit};
ghost use Rattle.path_cond.specs.Conditions.{Entry, broken_after};
ghost use Rattle.path_cond.specs.Summaries.{IsKnown, entry_case_count, is_inside_kind};

use crate::marks::{Marks, marked};
use crate::sequence::Sequence;
use crate::singles::{Single, singles_with};
use path_formula::{Formula, Kind, case_count_of};
use sn_tree::Shared;
use sn_width::NoMemory;
use std::alloc::Global;

/// What is kept of the formulas; each costs its own size once.
#[derive(Drop)]
pub(crate) struct Summary {
    /// The picks of the inside formulas, the newest first.
    pub(crate) inside: Shared<u32>,
    /// The picks of the outside formulas, the newest first.
    pub(crate) outside: Shared<u32>,
    /// The number of choices of a case of each inside formula.
    pub(crate) choices: u64,
    /// The bounds of the inside formulas that have one case.
    pub(crate) singles: Sequence<Single>,
    /// The least pick of an inside formula without cases.
    pub(crate) caseless: Option<u32>,
    /// A mark for each symbol that occurs in an inside formula.
    pub(crate) marks: Marks,
}

/// The same picks.
fn same(picks: &Shared<u32>) -> Result<Shared<u32>, NoMemory>
    ensures { IfOk result (λ list. list ≡ picks.now) }
{
    match picks.fork() {
        Ok(list) => Ok(list),
        Err(_) => Err(NoMemory),
    }
}

/// The picks, with one more on top where `yes`.
fn push_where(
    alloc: Global,
    picks: &Shared<u32>,
    yes: bool,
    pick: u32,
) -> Result<Shared<u32>, NoMemory>
    ensures { IfOk result (λ list. list ≡ (if yes then pick ∷ picks.now else picks.now)) }
{
    if !yes {
        return same(picks);
    }
    match picks.push(alloc, pick) {
        Ok(list) => Ok(list),
        Err(_) => Err(NoMemory),
    }
}

/// The first pick, with that of one more formula.
fn first_with(first: Option<u32>, yes: bool, pick: u32) -> Option<u32>
    ensures { result ≡ broken_after first yes pick }
{
    if first.is_none() && yes {
        return Some(pick);
    }
    first
}

/// The number of cases of an inside formula, 1 for any other.
fn count_of(alloc: Global, formula: &Formula, holds: bool, kind: Kind) -> Result<u64, NoMemory>
    requires kind { kind ≡ kind_of (view formula.now) }
    requires splits { is_inside_kind kind ≡ true → CanSplit (view formula.now) }
    ensures { IfOk result (λ n. n ≡ capped (entry_case_count (formula.now, holds))) }
{
    if kind.is_inside() {
        case_count_of(alloc, formula, holds)
    } else {
        Ok(1)
    }
}

/// Whether a formula of this kind and number of cases is inside and has one case.
fn is_single(kind: Kind, cases: u64) -> bool
    ensures { result ≡ (is_inside_kind kind && cases == 1) }
{
    kind.is_inside() && cases == 1
}

impl Summary {
    /// What is kept of no formulas.
    pub(crate) fn new() -> Summary
        ensures { IsKnown [] result }
    {
        Summary {
            inside: Shared::empty(),
            outside: Shared::empty(),
            choices: 1,
            singles: Sequence::empty(),
            caseless: None,
            marks: Marks::none(),
        }
    }

    pub(crate) fn fork(&self) -> Result<Summary, NoMemory>
        ensures { IfOk result (λ k. k ≡ self.now) }
    {
        let inside = same(&self.inside)?;
        let outside = same(&self.outside)?;
        let singles = self.singles.fork()?;
        let marks = self.marks.fork()?;
        Ok(Summary {
            inside,
            outside,
            choices: self.choices,
            singles,
            caseless: self.caseless,
            marks,
        })
    }

    /// With one formula more, of this kind.
    pub(crate) fn with(
        &self,
        alloc: Global,
        formula: &Formula,
        holds: bool,
        kind: Kind,
        pick: u32,
    ) -> Result<Summary, NoMemory>
        requires kind { kind ≡ kind_of (view formula.now) }
        requires splits { is_inside_kind kind ≡ true → CanSplit (view formula.now) }
        ensures { IfOk result (λ k. (entries : List Entry) → pick ≡ length entries → IsKnown entries self.now
            → IsKnown (entries ++ (formula.now, holds) ∷ []) k) }
    {
        let cases = count_of(alloc, formula, holds, kind)?;
        let splits = kind.is_inside();
        let inside = push_where(alloc, &self.inside, splits, pick)?;
        let marks = marked(alloc, &self.marks, formula, splits)?;
        let singles = singles_with(
            alloc,
            &self.singles,
            formula,
            holds,
            is_single(kind, cases),
            pick,
        )?;
        let outside = push_where(alloc, &self.outside, kind.is_outside(), pick)?;
        Ok(Summary {
            inside,
            outside,
            choices: self.choices.saturating_mul(cases),
            singles,
            caseless: first_with(self.caseless, cases == 0, pick),
            marks,
        })
    }
}
