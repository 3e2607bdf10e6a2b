//! Lists whose contracts say nothing of the room that they have.

ghost use Rattle.std.specs.Prelude.{◌≡◌, IfOk};

use sn_width::NoMemory;
use std::alloc::Global;
use std::marker::Model;

/// A list, seen as the list of its members.
#[derive(Drop)]
pub struct Listed<T: Drop> {
    members: Vec<T>,
}

impl<T: Drop> Model for Listed<T> {
    ghost use Rattle.std.specs.Prelude.{List};

    ghost Value = { List T };

    ghost view = { λ list. list.members.items };
}

impl<T: Drop> Listed<T> {
    /// The members of the vector. Takes no memory.
    pub fn from_vec(members: Vec<T>) -> Listed<T>
        ensures { result ≡ members.items }
    {
        Listed { members }
    }

    /// The members, as a vector. Takes no memory.
    pub fn into_vec(self) -> Vec<T>
        ensures { result.items ≡ self }
    {
        let Listed { members } = self;
        members
    }

    /// The members.
    pub fn as_slice(&self) -> &[T]
        ensures { result.now ≡ self.now }
    {
        self.members.as_slice()
    }
}

impl<T: Copy + Drop> Listed<T> {
    /// An equal list.
    pub fn copy(&self, alloc: Global) -> Result<Listed<T>, NoMemory>
        ensures { IfOk result (λ copy. copy ≡ self.now) }
    {
        let members = Vec::from_slice(alloc, &self.members)?;
        Ok(Listed { members })
    }
}
