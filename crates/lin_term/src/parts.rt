//! The parts of a term, of which most have one.

ghost use Rattle.std.specs.Prelude.{◌≡◌, [], ◌∷◌, ◌++◌, IfOk, OnOk};

use sn_width::{NoMemory, Num, SymId};
use std::alloc::Global;
use std::marker::Model;
use std::slice;

/// A symbol with its coefficient.
pub(crate) type Part = (SymId, Num);

#[derive(Drop)]
enum Stored {
    Nothing,
    One(Part),
    Many(Vec<Part>),
}

/// A list of parts. One part takes no memory.
#[derive(Drop)]
pub(crate) struct Parts(Stored);

impl Model for Parts {
    ghost use Rattle.std.specs.Prelude.{List};
    ghost use Rattle.lin_term.specs.Parts.{list_of};
    ghost use Rattle.lin_term.specs.Terms.{Part};

    ghost Value = { List Part };

    ghost view = { λ parts. list_of parts.0 };
}

impl Parts {
    /// No part.
    pub(crate) fn none() -> Parts
        ensures { result ≡ [] }
    {
        Parts(Stored::Nothing)
    }

    /// One part.
    pub(crate) fn one(part: Part) -> Parts
        ensures { result ≡ part ∷ [] }
    {
        Parts(Stored::One(part))
    }

    /// The list as a slice.
    pub(crate) fn as_slice(&self) -> &[Part]
        ensures { result.now ≡ self.now }
    {
        match &self.0 {
            Stored::Nothing => &[],
            Stored::One(part) => slice::from_ref(part),
            Stored::Many(list) => list,
        }
    }

    /// These parts.
    pub(crate) fn from_vec(list: Vec<Part>) -> Parts
        ensures { result ≡ list.items }
    {
        match list.as_slice() {
            [] => Parts::none(),
            [part] => Parts::one(*part),
            _ => Parts(Stored::Many(list)),
        }
    }

    /// Adds a part at the end.
    pub(crate) fn push(&mut self, alloc: Global, part: Part) -> Result<(), NoMemory>
        ensures { OnOk result (self.new ≡ self.old ++ part ∷ []) }
    {
        match &mut self.0 {
            Stored::Nothing => self.0 = Stored::One(part),
            Stored::One(first) => self.0 = Stored::Many(vec![in alloc; *first, part]?),
            Stored::Many(list) => list.push(part)?,
        }
        Ok(())
    }

    /// An equal list.
    pub(crate) fn copy(&self, alloc: Global) -> Result<Parts, NoMemory>
        ensures { IfOk result (λ parts. parts ≡ self.now) }
    {
        match &self.0 {
            Stored::Nothing => Ok(Parts::none()),
            Stored::One(part) => Ok(Parts::one(*part)),
            Stored::Many(list) => Ok(Parts(Stored::Many(Vec::from_slice(alloc, list)?))),
        }
    }
}
