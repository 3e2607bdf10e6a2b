//! Files by name, each loaded whole.
ghost use Rattle.std.specs.Prelude.{◌≡◌, ◌<◌, ◌≤◌, ℕ, List, length, None, Some, IsSomeAnd};
ghost use Rattle.std.specs.Option.{ForSome};
ghost use Rattle.sn_edge.specs.Told.{FolderKept, FolderTold};
ghost use Rattle.sn_edge.specs.declared.folder.Loaded.{Loaded};
ghost use Rattle.sn_edge.specs.Loaded.{IfBytes, OnAbsent, OnTooBig, OnFailed, IsAbsentUnlessStopped, IsTooBigUnlessStopped, IsBytesUnlessStopped};

use std::alloc::Global;

/// What a load answers.
#[derive(Drop)]
pub enum Loaded {
    /// The whole file.
    Bytes(Vec<u8>),
    /// There is no such file.
    Absent,
    /// The file has more bytes than the limit.
    TooBig,
    /// The outside failed.
    Failed,
    /// There was no memory for the bytes, or a count is full.
    NoMemory,
}

/// A place with files, each under a name.
pub trait Folder {
    /// What it tells of its files, and its counts.
    ghost told: { Self → FolderTold };

    /// What one call of `load` may answer and leave, for a name and a limit.
    ghost load_gives: { Self → List ℕ → ℕ → Loaded → Self → Type 0 };

    /// The file of this name, of at most `limit` bytes.
    fn load(&mut self, alloc: Global, name: &str, limit: u64) -> Loaded
        ensures kept { FolderKept (told self.old) (told self.new) }
        ensures gives { load_gives self.old name.now limit result self.new }

        // An answer comes only where its count rose.
        ensures failed { OnFailed result ((told self.old).faults < (told self.new).faults) }
        ensures absent { OnAbsent result ((told self.old).misses < (told self.new).misses) }
        ensures too_big { OnTooBig result ((told self.old).excesses < (told self.new).excesses) }

        // What an answer says of the file.
        ensures within { IfBytes result (λ bytes. length bytes ≤ limit) }
        ensures bytes { IfBytes result (λ bytes. ForSome (told self.old).files (λ at. at name.now ≡ Some bytes)) }
        ensures no_file { OnAbsent result (ForSome (told self.old).files (λ at. at name.now ≡ None)) }
        ensures long_file { OnTooBig result (ForSome (told self.old).files
            (λ at. IsSomeAnd (at name.now) (λ bytes. limit < length bytes))) }

        // And the other way: which answer comes where the load is not stopped by a failure or for want of memory.
        ensures at_none { ForSome (told self.old).files (λ at. at name.now ≡ None → IsAbsentUnlessStopped result) }
        ensures at_long { ForSome (told self.old).files
            (λ at. ForSome (at name.now) (λ bytes. limit < length bytes → IsTooBigUnlessStopped result)) }
        ensures at_file { ForSome (told self.old).files
            (λ at. ForSome (at name.now) (λ bytes. length bytes ≤ limit → IsBytesUnlessStopped result)) };
}
