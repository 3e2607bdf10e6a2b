//! The equalities of header cells.

ghost use Rattle.std.specs.Prelude.{◌≡◌, IfOk, map};
ghost use Rattle.sn_width.specs.declared.rel.Rel.TheVariants.{Eq};
ghost use Rattle.path_formula.specs.Formulas.{compared};
ghost use Rattle.path_formula.specs.View.{view};
ghost use Rattle.path_records.specs.Shown.{held_head};
ghost use Rattle.compare_meaning.specs.Facing.{AreCellEqualities, AreEqualities, IsEquality};
ghost use Rattle.net_compare.specs.Adding.{Adds};

use cell_stacks::Cell;
use lin_term::Term;
use path_formula::Formula;
use sn_width::{NoMemory, Rel};
use std::alloc::Global;

/// Adds the equalities of the cells of two headers, address by address.
#[tactic(auto, using(crate::proofs::EqualCells::heads_first, crate::proofs::EqualCells::heads_next, crate::proofs::EqualCells::heads_end))]
pub(crate) fn add_equalities(
    alloc: Global,
    heads: &[(i32, Vec<Cell<Term>>)],
    others: &[(i32, Vec<Cell<Term>>)],
    formulas: &mut Vec<Formula>,
) -> Result<(), NoMemory>
    ensures { IfOk result (λ done. Adds (AreEqualities (map held_head heads.now) (map held_head others.now))
        formulas.old.items formulas.new.items) }
{
    let count = heads.len().min(others.len());
    for at in 0..count {
        add_cell_equalities(alloc, &heads[at].1, &others[at].1, formulas)?;
    }
    Ok(())
}

/// Adds the equalities of the cells of two lists, one by one.
#[tactic(auto, using(crate::proofs::EqualCells::cells_first, crate::proofs::EqualCells::cells_next, crate::proofs::EqualCells::cells_end))]
fn add_cell_equalities(
    alloc: Global,
    cells: &[Cell<Term>],
    others: &[Cell<Term>],
    formulas: &mut Vec<Formula>,
) -> Result<(), NoMemory>
    ensures { IfOk result (λ done. Adds (AreCellEqualities cells.now others.now) formulas.old.items
        formulas.new.items) }
{
    let count = cells.len().min(others.len());
    for at in 0..count {
        add_equality(alloc, &cells[at].value, &others[at].value, formulas)?;
    }
    Ok(())
}

/// Adds that two set cells are equal, unless their terms are the same.
fn add_equality(
    alloc: Global,
    value: &Option<Term>,
    other: &Option<Term>,
    formulas: &mut Vec<Formula>,
) -> Result<(), NoMemory>
    ensures { IfOk result (λ done. Adds (IsEquality value.now other.now) formulas.old.items formulas.new.items) }
{
    let Some(left) = value else {
        return Ok(());
    };
    let Some(right) = other else {
        return Ok(());
    };
    if left.same(right) {
        return Ok(());
    }
    formulas.push(equality(alloc, left, right)?)?;
    Ok(())
}

/// That two terms are equal.
fn equality(alloc: Global, left: &Term, right: &Term) -> Result<Formula, NoMemory>
    ensures { IfOk result (λ f. view f ≡ compared Eq left.now right.now) }
{
    let left = left.copy(alloc)?;
    let right = right.copy(alloc)?;
    Ok(Formula::Compare {
        rel: Rel::Eq,
        left,
        right,
    })
}
