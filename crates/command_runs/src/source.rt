//! What commands read before their own work.

ghost use Rattle.std.specs.Prelude.{List, [], ◌∷◌, ◌++◌, IfOk, IfErr};
ghost use Rattle.sn_edge.specs.Told.{FolderKept, PatternsKept};
ghost use Rattle.command_edge.specs.Files.{InputShows};
ghost use Rattle.command_runs.specs.Inputs.{AllOpen, FirstFails, Given as GivenOf, Input, a_file, some_bytes};
ghost use Rattle.command_runs.specs.Outside.{outside};

use command_edge::{InputFault, load_file};
use sn_edge::{Folder, Patterns};
use std::alloc::{AllocError, Global};

/// What a command reads.
pub trait Source {
    type Given: Drop;

    /// The inputs, in order.
    ghost inputs: { Self → List Input };

    /// What they give.
    ghost givens: { Self.Given → List GivenOf };

    /// What is so of all that they give.
    ghost keeps: { Self.Given → Type 0 };

    /// Opens the inputs in order, up to the first that is refused.
    fn open<F: Folder, P: Patterns>(
        &self,
        alloc: Global,
        folder: &mut F,
        patterns: &mut P,
    ) -> Result<Self::Given, InputFault>
        ensures folder_kept { FolderKept (F.told folder.old) (F.told folder.new) }
        ensures patterns_kept { PatternsKept (P.told patterns.old) (P.told patterns.new) }
        ensures opened { IfOk result (λ given. AllOpen (outside F.told F.load_gives P.told P.find_gives)
            (folder.old, patterns.old) (inputs self.now) (givens given) (folder.new, patterns.new)) }
        ensures kept { IfOk result keeps }
        ensures fails { IfErr result (λ fault. FirstFails (outside F.told F.load_gives P.told P.find_gives)
            (folder.old, patterns.old) (inputs self.now) fault (folder.new, patterns.new)) }
        ensures shows { IfErr result (InputShows (F.told folder.old) (F.told folder.new) (P.told patterns.old)
            (P.told patterns.new)) };
}

/// A file of bytes, with the most that it may have.
#[derive(Clone, Copy)]
pub struct ByteFile<'a> {
    pub name: &'a str,
    pub limit: u64,
}

/// One source after another.
pub struct Both<A, B> {
    pub first: A,
    pub second: B,
}

// Not derived, which would clone each part.
impl<A: Copy, B: Copy> Clone for Both<A, B> {
    fn clone(&self) -> Result<Both<A, B>, AllocError> {
        Ok(*self)
    }
}

impl<A: Copy, B: Copy> Copy for Both<A, B> {}

/// What two sources gave.
#[derive(Drop)]
pub struct Two<A: Drop, B: Drop> {
    pub first: A,
    pub second: B,
}

impl Source for ByteFile<'_> {
    type Given = Vec<u8>;

    ghost inputs = { λ s. a_file s.limit s.name.now ∷ [] };

    ghost givens = { λ bytes. some_bytes bytes.items ∷ [] };

    ghost keeps = { λ _. Unit {0} };

    fn open<F: Folder, P: Patterns>(
        &self,
        alloc: Global,
        folder: &mut F,
        _patterns: &mut P,
    ) -> Result<Vec<u8>, InputFault> {
        load_file(alloc, self.name, self.limit, folder)
    }
}

impl<A: Source, B: Source> Source for Both<A, B> {
    type Given = Two<A::Given, B::Given>;

    ghost inputs = { λ s. A.inputs s.first ++ B.inputs s.second };

    ghost givens = { λ given. A.givens given.first ++ B.givens given.second };

    ghost keeps = { λ given. A.keeps given.first × B.keeps given.second };

    fn open<F: Folder, P: Patterns>(
        &self,
        alloc: Global,
        folder: &mut F,
        patterns: &mut P,
    ) -> Result<Two<A::Given, B::Given>, InputFault> {
        let first = self.first.open(alloc, folder, patterns)?;
        let second = self.second.open(alloc, folder, patterns)?;
        Ok(Two { first, second })
    }
}
