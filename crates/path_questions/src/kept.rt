//! What is known of a question while records come.

ghost use Rattle.std.specs.Prelude.{◌≡◌, IfOk, length};
ghost use Rattle.std.specs.List.{AllByRecursion, list_all};
ghost use Rattle.path_questions.specs.Known.{IsNothing, is_found};

use refutation_check::Listed;
use sn_width::{NoMemory, Num};
use std::alloc::Global;

/// What is known of a question.
#[derive(Drop)]
pub enum Kept {
    /// The record of this number is the first that shows a hit; its values.
    Found { number: u64, values: Listed<Num> },
    /// No record shows one; the numbers of those that leave the question open.
    LeftOpen { numbers: Vec<u64> },
}

impl Kept {
    /// Whether the question has its hit.
    pub fn is_found(&self) -> bool
        ensures { result ≡ is_found self.now }
    {
        match self {
            Kept::Found { .. } => true,
            Kept::LeftOpen { .. } => false,
        }
    }
}

/// Whether each question has its hit.
pub fn are_found(kept: &[Kept]) -> bool
    ensures { result ≡ list_all is_found kept.now }
{
    kept.iter().all(|known| known.is_found())
}

/// What is known of questions before the first record.
#[tactic(auto, using(crate::proofs::AllLemmas::all_more))]
pub fn nothing_kept(alloc: Global, count: usize) -> Result<Vec<Kept>, NoMemory>
    ensures one_each { IfOk result (λ kept. length kept.items ≡ count) }
    ensures open { IfOk result (λ kept. AllByRecursion IsNothing kept.items) }
{
    let mut kept = Vec::new(alloc);
    for _ in 0..count {
        let numbers = Vec::new(alloc);
        kept.push(Kept::LeftOpen { numbers })?;
    }
    Ok(kept)
}
