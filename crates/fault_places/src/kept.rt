//! Folders that keep what was loaded, so that a fault is shown in the text that was refused, and no file is opened twice.
ghost use Rattle.std.specs.Prelude.{◌≤◌, length, IfSome, None};
ghost use Rattle.sn_edge.specs.Loaded.{IfBytes};

use sn_edge::{Folder, Loaded};
use std::alloc::{AllocError, Global};

/// How many bytes of files are kept together. Past it the first, that of the job, and the last are kept.
const MOST_KEPT: usize = 67_108_864;

/// A file as it was loaded.
#[derive(Drop)]
struct KeptFile {
    name: String,
    bytes: Vec<u8>,
}

/// A folder that keeps a copy of each file that it loads.
#[derive(Drop)]
pub struct KeepingFolder<F> {
    folder: F,
    kept: Kept,
}

/// The files that are kept.
#[derive(Drop)]
struct Kept {
    files: Vec<KeptFile>,
    /// The bytes of all of them.
    size: usize,
}

impl<F: Drop> KeepingFolder<F> {
    /// One over this folder, with nothing kept yet.
    pub fn new(alloc: Global, folder: F) -> KeepingFolder<F> {
        KeepingFolder {
            folder,
            kept: Kept {
                files: Vec::new(alloc),
                size: 0,
            },
        }
    }

    /// What was kept.
    pub fn kept(self) -> KeptFolder {
        let KeepingFolder { folder, kept } = self;
        drop(folder);
        KeptFolder {
            files: kept.files,
            next: 0,
        }
    }
}

impl<F: Folder> Folder for KeepingFolder<F> {
    ghost told = { λ k. F.told k.folder };

    ghost load_gives = { λ old name limit answer new. F.load_gives old.folder name limit answer new.folder };

    fn load(&mut self, alloc: Global, name: &str, limit: u64) -> Loaded {
        let answer = self.folder.load(alloc, name, limit);
        keep(alloc, &mut self.kept, name, &answer);
        answer
    }
}

/// Keeps the file, where one was loaded. A file that is longer than all that is kept, and one for which there is no memory, is not kept.
fn keep(alloc: Global, kept: &mut Kept, name: &str, answer: &Loaded) {
    let Loaded::Bytes(bytes) = answer else {
        return;
    };
    if bytes.len() <= MOST_KEPT {
        let _ = keep_bytes(alloc, kept, name, bytes);
    }
}

fn keep_bytes(alloc: Global, kept: &mut Kept, name: &str, bytes: &[u8]) -> Result<(), AllocError> {
    if MOST_KEPT < kept.size.saturating_add(bytes.len()) {
        forget_behind_first(kept);
    }
    let name = String::from_str(alloc, name)?;
    let size = kept.size.saturating_add(bytes.len());
    let bytes = bytes.to_vec(alloc)?;
    kept.files.push(KeptFile { name, bytes })?;
    kept.size = size;
    Ok(())
}

/// Keeps the first file alone.
fn forget_behind_first(kept: &mut Kept) {
    kept.files.truncate(1);
    kept.size = match kept.files.first() {
        Some(file) => file.bytes.len(),
        None => 0,
    };
}

/// The files that were kept, in the order in which they were loaded. It opens nothing.
#[derive(Drop)]
pub struct KeptFolder {
    files: Vec<KeptFile>,
    /// The file behind the one that was asked for last.
    next: usize,
}

impl KeptFolder {
    fn has_next(&self, name: &str) -> bool {
        match self.files.get(self.next) {
            Some(file) => file.name.as_str() == name,
            None => false,
        }
    }

    /// The file that is meant by the name: the next, if it has that name, else the last that has it.
    fn place_of(&self, name: &str) -> Option<usize> {
        if self.has_next(name) {
            return Some(self.next);
        }
        let mut found = None;
        for (index, file) in self.files.iter().enumerate() {
            if file.name.as_str() == name {
                found = Some(index);
            }
        }
        found
    }

    /// The bytes of the file of this number.
    fn copied(&self, alloc: Global, index: usize, limit: u64) -> Option<Vec<u8>>
        ensures { IfSome result (λ bytes. length bytes.items ≤ limit) }
    {
        let file = self.files.get(index)?;
        if limit < file.bytes.len() as u64 {
            return None;
        }
        file.bytes.to_vec(alloc).ok()
    }
}

impl Folder for KeptFolder {
    ghost told = { λ k. record { files = None; faults = 0; misses = 0; excesses = 0 } };

    ghost load_gives = { λ old name limit answer new. IfBytes answer (λ bytes. length bytes ≤ limit) };

    /// The bytes of the file as it was loaded; NoMemory where it was not kept too.
    fn load(&mut self, alloc: Global, name: &str, limit: u64) -> Loaded {
        let Some(index) = self.place_of(name) else {
            return Loaded::NoMemory;
        };
        self.next = index.saturating_add(1);
        match self.copied(alloc, index, limit) {
            Some(bytes) => Loaded::Bytes(bytes),
            None => Loaded::NoMemory,
        }
    }
}
