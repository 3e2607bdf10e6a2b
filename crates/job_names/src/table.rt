//! Lists of names whose members are found by name.

ghost use Rattle.std.specs.Prelude.{◌≡◌, ◌<◌, length, position, slice_get, Some, IfOk, bytes_eq};
ghost use Rattle.std.specs.Cmp.Lexicographic.{slice_cmp};
ghost use Rattle.std.specs.List.Sorted.{IsStrictlySortedBy};
ghost use Rattle.std.specs.Ordering.{nat_cmp};
ghost use Rattle.job_names.specs.Lent.{lent_names};

use sefl_syntax::Name;
use sn_width::NoMemory;
use std::alloc::Global;
use std::collections::BTreeSet;
use std::marker::Model;

/// At most 2^32 - 1 names, each once, ascending. Contracts see the list.
#[derive(Drop)]
pub(crate) struct NameTable {
    names: Vec<Name>,
}

impl Model for NameTable {
    ghost use Rattle.std.specs.Prelude.{ℕ, List};
    ghost use Rattle.job_names.specs.Tables.{IsNameTable};

    ghost Value = { List (List ℕ) };

    ghost view = { λ t. t.names.items };

    ghost invariant = { λ t. IsNameTable t.names.items };
}

impl NameTable {
    /// Copies of the names of a set, ascending; more than a table holds answer NoMemory.
    pub(crate) fn of(alloc: Global, names: &BTreeSet<&Name>) -> Result<NameTable, NoMemory>
        ensures { IfOk result (λ table. table ≡ lent_names names.now.keys) }
    {
        if names.len() > u32::MAX as usize {
            return Err(NoMemory);
        }
        let names = owned(alloc, names)?;
        Ok(NameTable { names })
    }

    /// How many names there are.
    pub(crate) fn len(&self) -> u32
        ensures { result ≡ length self.now }
    {
        self.names.len() as u32
    }

    /// The name at an index.
    pub(crate) fn name(&self, index: u32) -> &Name
        requires { index < length self.now }
        ensures { slice_get self.now index ≡ Some result.now }
    {
        self.names.get(index as usize).unwrap()
    }

    /// The index of a name, found by halving; None exactly where the table has no such name.
    pub(crate) fn index_of(&self, name: &Name) -> Option<u32>
        ensures { result ≡ position (bytes_eq name.now) self.now }
    {
        match self.names.binary_search(name) {
            Ok(index) => Some(index as u32),
            Err(_) => None,
        }
    }
}

/// Copies of the names of a set, ascending.
fn owned(alloc: Global, names: &BTreeSet<&Name>) -> Result<Vec<Name>, NoMemory>
    ensures copies { IfOk result (λ copies. copies.items ≡ lent_names names.now.keys) }
    ensures ascend { IfOk result (λ copies. IsStrictlySortedBy (slice_cmp nat_cmp) copies.items) }
{
    let mut copies = Vec::new(alloc);
    for name in names.iter() {
        let copy = (*name).clone()?;
        copies.push(copy)?;
    }
    Ok(copies)
}
