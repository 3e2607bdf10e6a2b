//! A list of sets whose copies share their members.

ghost use Rattle.std.specs.Prelude.{◌≡◌, ◌<◌, [], ◌∷◌, ◌++◌, length, slice_get, slice_set, IfOk, option_copied};

use sn_ranges::Ranges;
use sn_tree::Tree;
use sn_width::NoMemory;
use std::alloc::Global;
use std::marker::Model;

/// A list of sets, each under its place from 0. A changed list shares the sets of the list that it
/// was made of, and leaves that as it was.
#[derive(Drop)]
pub(crate) struct Sets {
    members: Tree<u64, Ranges>,
    len: u64,
}

impl Model for Sets {
    ghost use Rattle.std.specs.Prelude.{List};
    ghost use Rattle.sn_ranges.specs.Ranges.{RangeSet};
    ghost use Rattle.interval_solver.specs.Numbered.{values_of, IsNumbered};

    ghost Value = { List RangeSet };

    ghost view = { λ s. values_of s.members };

    ghost invariant = { λ s. IsNumbered s.members s.len };
}

impl Sets {
    pub fn empty() -> Sets
        ensures { result ≡ [] }
    {
        Sets {
            members: Tree::empty(),
            len: 0,
        }
    }

    /// The same list. Takes no memory; an `Err` says that the count of owners is full.
    pub fn fork(&self) -> Result<Sets, NoMemory>
        ensures { IfOk result (λ copy. copy ≡ self.now) }
    {
        let len = self.len;
        match self.members.fork() {
            Ok(members) => Ok(Sets { members, len }),
            Err(_) => Err(NoMemory),
        }
    }

    pub fn len(&self) -> u64
        ensures { result ≡ length self.now }
    {
        self.len
    }

    /// The set at a place; `None` past the last one.
    #[tactic(auto, using(crate::proofs::Places::value_at_place))]
    pub fn get(&self, place: u64) -> Option<&Ranges>
        ensures { option_copied result ≡ slice_get self.now place }
    {
        self.members.get(&place)
    }

    /// The list with one set more at its end.
    #[tactic(auto, using(crate::proofs::Places::values_of_more))]
    pub fn push(&self, alloc: Global, set: Ranges) -> Result<Sets, NoMemory>
        ensures { IfOk result (λ longer. longer ≡ self.now ++ set ∷ []) }
    {
        let Some(len) = self.len.checked_add(1) else {
            return Err(NoMemory);
        };
        match self.members.with(alloc, self.len, set) {
            Ok(members) => Ok(Sets { members, len }),
            Err(_) => Err(NoMemory),
        }
    }

    /// The list with this set at a place, in the stead of the one that is there.
    #[tactic(auto, using(crate::proofs::Places::values_of_with))]
    pub fn with(&self, alloc: Global, place: u64, set: Ranges) -> Result<Sets, NoMemory>
        requires { place < length self.now }
        ensures { IfOk result (λ sets. sets ≡ slice_set self.now place set) }
    {
        let len = self.len;
        match self.members.with(alloc, place, set) {
            Ok(members) => Ok(Sets { members, len }),
            Err(_) => Err(NoMemory),
        }
    }
}
