//! The files of a call as a folder.

ghost use Rattle.std.specs.Prelude.{◌≡◌, map};
ghost use Rattle.sn_edge.specs.MemFolder.{entry_of};
ghost use Rattle.caller_edge.specs.Outside.{IsGivenLoad, files_told};

use crate::lists::NamedFile;
use sn_edge::{Folder, Loaded, MemFolder};
use std::alloc::Global;
use std::marker::Model;

/// Files in memory. No load of one fails outside.
#[derive(Drop)]
pub struct GivenFiles {
    folder: MemFolder,
}

impl Model for GivenFiles {
    ghost use Rattle.std.specs.Prelude.{◌≡◌, []};
    ghost use Rattle.caller_edge.specs.Outside.{GivenState};

    ghost Value = { GivenState };

    ghost view = { λ g. record { entries = g.folder.entries; misses = g.folder.misses; excesses = g.folder.excesses } };

    ghost invariant = { λ g. g.folder.failing ≡ [] };
}

impl GivenFiles {
    /// These files, each under its name; of two files under one name the first counts.
    pub fn new(alloc: Global, files: Vec<NamedFile>) -> GivenFiles
        ensures { result ≡ record { entries = map entry_of files.items; misses = 0; excesses = 0 } }
    {
        let folder = MemFolder::new(files, Vec::new(alloc));
        GivenFiles { folder }
    }
}

impl Folder for GivenFiles {
    ghost told = { files_told };

    ghost load_gives = { IsGivenLoad };

    fn load(&mut self, alloc: Global, name: &str, limit: u64) -> Loaded {
        self.folder.load(alloc, name, limit)
    }
}
