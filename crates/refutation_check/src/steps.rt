//! Refutations of conditions.

ghost use Rattle.std.specs.Prelude.{◌≡◌, IfOk};

use crate::list::Listed;
use sn_width::{NoMemory, SymId};
use std::alloc::Global;

/// A step of a refutation: why the bounds that are gathered so far cannot be met, or how they are
/// divided into cases, which the steps that follow refute one after another.
#[derive(Drop)]
pub enum Refute {
    /// No value of the symbol's width meets the formulas of these picks, which are simple on it.
    Empty { symbol: SymId, picks: Listed<u32> },
    /// The symbol lies in one of the ranges of its domain.
    Domain { symbol: SymId },
    /// One of the cases of a member of the formula of this pick is met: of the member to which the way leads, and of the
    /// formula itself where the way is empty.
    Split { pick: u32, way: Listed<u32> },
    /// The gathered bounds of these numbers, from 0, join head to tail, and their sum is below zero.
    Cycle { bounds: Listed<u32> },
}

/// The steps of a refutation, each before those that refute its cases.
pub type Refutation = Listed<Refute>;

impl Refute {
    /// An equal step.
    pub fn copy(&self, alloc: Global) -> Result<Refute, NoMemory>
        ensures { IfOk result (λ copy. copy ≡ self.now) }
    {
        match self {
            Refute::Empty { symbol, picks } => {
                let picks = picks.copy(alloc)?;
                Ok(Refute::Empty {
                    symbol: *symbol,
                    picks,
                })
            }
            Refute::Domain { symbol } => Ok(Refute::Domain { symbol: *symbol }),
            Refute::Split { pick, way } => {
                let way = way.copy(alloc)?;
                Ok(Refute::Split { pick: *pick, way })
            }
            Refute::Cycle { bounds } => {
                let bounds = bounds.copy(alloc)?;
                Ok(Refute::Cycle { bounds })
            }
        }
    }
}

/// An equal refutation.
pub fn copy_of(alloc: Global, refutation: &Refutation) -> Result<Refutation, NoMemory>
    ensures { IfOk result (λ copy. copy ≡ refutation.now) }
{
    let steps = copies_of(alloc, refutation.as_slice())?;
    Ok(Listed::from_vec(steps))
}

fn copies_of(alloc: Global, steps: &[Refute]) -> Result<Vec<Refute>, NoMemory>
    ensures { IfOk result (λ copies. copies.items ≡ steps.now) }
{
    let mut copies = Vec::with_capacity(alloc, steps.len())?;
    for step in steps {
        copies.push(step.copy(alloc)?)?;
    }
    Ok(copies)
}
