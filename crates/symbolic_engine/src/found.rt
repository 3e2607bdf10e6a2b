//! What an exploration finds.

ghost use Rattle.std.specs.Prelude.{◌≡◌, IfOk};
ghost use Rattle.exact_records.specs.View.{record_tree};
ghost use Rattle.symbolic_engine.specs.Finds.{found_tree};

use crate::writing;
use path_records::Record;
use refutation_check::{Refutation, Verdict};
use sefl_meaning::{Decision, End};
use sn_width::NoMemory;
use std::alloc::Global;
use std::rc::Rc;
use sym_state::SymState;

/// What was found before the decision of a refuted side, of `symbols` symbols. Symbols behind those of the verdict are 0.
#[derive(Drop)]
pub struct Before {
    pub verdict: Rc<Verdict>,
    pub symbols: u64,
}

/// What an exploration finds. The decisions that led there are handed over beside it.
#[derive(Drop)]
pub enum Found {
    /// A path that is over, with its state there.
    Path {
        state: SymState,
        end: End,
        verdict: Rc<Verdict>,
    },
    /// A side of a test that no packet takes; nothing is before a refuted injection.
    Pruned {
        before: Option<Before>,
        refutation: Refutation,
    },
    /// A decision that is not tried.
    Unexplored,
}

impl Found {
    /// The record of what was found behind these decisions.
    pub fn into_record(self, alloc: Global, decisions: &[Decision]) -> Result<Record, NoMemory>
        ensures { IfOk result (λ made. record_tree made ≡ found_tree self decisions.now) }
    {
        match self {
            Found::Path {
                state,
                end,
                verdict,
            } => writing::path(alloc, decisions, &state, end, &verdict),
            Found::Pruned { before, refutation } => {
                writing::pruned(alloc, decisions, &before, refutation)
            }
            Found::Unexplored => writing::unexplored(alloc, decisions),
        }
    }
}
