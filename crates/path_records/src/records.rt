//! Records of an exploration.

use cell_stacks::Cell;
use lin_term::Term;
use refutation_check::{Refutation, Verdict};
use sefl_meaning::{Decision, End, Place};
use sn_width::{NameId, NodeId, TagId};

/// What a packet carries, as it is shown. The lists ascend, globals first; there is a pair for each
/// address of a tag, and addresses and cells stand from bottom to top. Addresses are in bits.
#[derive(Drop)]
pub struct Fields {
    pub tags: Vec<(TagId, i32)>,
    pub heads: Vec<(i32, Vec<Cell<Term>>)>,
    pub metas: Vec<(Option<NodeId>, NameId, Vec<Cell<Term>>)>,
}

/// What an exploration tells of one list of decisions.
#[derive(Drop)]
pub enum Record {
    /// The path that the decisions lead along, to its end.
    Path {
        decisions: Vec<Decision>,
        /// The ports that it arrives at, in order.
        places: Vec<Place>,
        end: End,
        /// What is carried at the end.
        fields: Fields,
        verdict: Verdict,
    },
    /// A side of a test that no packet takes.
    Pruned {
        decisions: Vec<Decision>,
        /// The verdict without the last formula; `None` exactly where nothing was decided.
        before: Option<Verdict>,
        refutation: Refutation,
    },
    /// Decisions that were not tried.
    Unexplored {
        decisions: Vec<Decision>,
    },
}
