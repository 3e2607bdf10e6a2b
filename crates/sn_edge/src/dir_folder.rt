//! The files of the system.
ghost use Rattle.std.specs.Prelude.{◌≡◌, ◌<◌, ◌≤◌, length, None};
ghost use Rattle.sn_edge.specs.Loaded.{IfBytes};
ghost use Rattle.sn_edge.specs.DirFolder.{FolderCounts, IsCounted, after_answer};

use crate::count::raise;
use crate::transfer::read_whole;
use crate::{Folder, Loaded};
use std::alloc::Global;
use std::fs::File;
use std::io::ErrorKind;
use std::marker::Model;
use std::rt::Files;

/// The files that a runtime opens. It tells nothing of what they hold.
#[derive(Drop)]
pub struct DirFolder<'a, R> {
    rt: &'a R,
    faults: u64,
    misses: u64,
    excesses: u64,
}

impl<'a, R> Model for DirFolder<'a, R> {
    ghost use Rattle.sn_edge.specs.DirFolder.{FolderCounts};

    ghost Value = { FolderCounts };

    ghost view = { λ f. record { faults = f.faults; misses = f.misses; excesses = f.excesses } };
}

impl<'a, R> DirFolder<'a, R> {
    /// The files that `rt` opens, each named by its path.
    pub fn new(rt: &'a R) -> DirFolder<'a, R>
        ensures { result ≡ record { faults = 0; misses = 0; excesses = 0 } }
    {
        DirFolder {
            rt,
            faults: 0,
            misses: 0,
            excesses: 0,
        }
    }

    // Raises the count of an answer. Where it is full, the answer is NoMemory.
    fn count(&mut self, answer: Loaded) -> Loaded
        ensures same { IsCounted self.old answer result }
        ensures next { self.new ≡ after_answer self.old result }
    {
        let room = match &answer {
            Loaded::Failed => raise(&mut self.faults),
            Loaded::Absent => raise(&mut self.misses),
            Loaded::TooBig => raise(&mut self.excesses),
            Loaded::Bytes(_) | Loaded::NoMemory => true,
        };
        if room { answer } else { Loaded::NoMemory }
    }
}

impl<R: Files> Folder for DirFolder<'_, R> {
    ghost told = { λ f. record { files = None; faults = f.faults; misses = f.misses; excesses = f.excesses } };

    ghost load_gives = { λ old name limit answer new. IfBytes answer (λ bytes. length bytes ≤ limit) × (new ≡ after_answer old answer) };

    fn load(&mut self, alloc: Global, name: &str, limit: u64) -> Loaded
        ensures within { IfBytes result (λ bytes. length bytes ≤ limit) }
        ensures next { self.new ≡ after_answer self.old result }
    {
        let answer = match File::open(self.rt, name) {
            Ok(mut file) => read_whole(alloc, &mut file, limit),
            Err(error) => match error.kind() {
                ErrorKind::NotFound => Loaded::Absent,
                _ => Loaded::Failed,
            },
        };
        self.count(answer)
    }
}
