//! Files in memory.
ghost use Rattle.std.specs.Prelude.{◌≡◌, ◌<◌, ◌^◌, ◌-◌, ◌↔◌, map, Some, Contains, option_map};
ghost use Rattle.sn_edge.specs.MemFolder.{FolderState, entry_of, file_at, after_load, IsAnswerAt, IsLoad};

use crate::{Folder, Loaded};
use std::alloc::Global;
use std::marker::Model;

/// Files in memory. The loads with certain numbers fail.
#[derive(Drop)]
pub struct MemFolder {
    files: Vec<(String, Vec<u8>)>,
    failing: Vec<u64>,
    calls: u64,
    faults: u64,
    misses: u64,
    excesses: u64,
}

impl Model for MemFolder {
    ghost use Rattle.std.specs.Prelude.{map, ◌+◌, ◌≤◌};
    ghost use Rattle.sn_edge.specs.MemFolder.{FolderState, entry_of};

    ghost Value = { FolderState };

    ghost view = { λ f. record {
      entries = map entry_of f.files.items;
      failing = f.failing.items;
      calls = f.calls;
      faults = f.faults;
      misses = f.misses;
      excesses = f.excesses;
    } };

    // Each count goes up in a call of its own, so none is full before the calls are.
    ghost invariant = { λ f. f.faults + f.misses + f.excesses ≤ f.calls };
}

impl MemFolder {
    /// A folder of these files, each under its name; of two files under one name the first counts.
    /// The loads whose numbers are in `failing` fail, counted from 0. One that answers NoMemory is not
    /// counted. After 2^64 - 1 loads each answers NoMemory.
    pub fn new(files: Vec<(String, Vec<u8>)>, failing: Vec<u64>) -> MemFolder
        ensures { result ≡ record {
          entries = map entry_of files.items;
          failing = failing.items;
          calls = 0;
          faults = 0;
          misses = 0;
          excesses = 0;
        } }
    {
        MemFolder {
            files,
            failing,
            calls: 0,
            faults: 0,
            misses: 0,
            excesses: 0,
        }
    }
}

impl Folder for MemFolder {
    ghost told = { λ f. record {
      files = Some (file_at f.entries);
      faults = f.faults;
      misses = f.misses;
      excesses = f.excesses;
    } };

    ghost load_gives = { IsLoad };

    fn load(&mut self, alloc: Global, name: &str, limit: u64) -> Loaded
        ensures failing { (result ≡ Loaded.Failed) ↔
            (Contains self.old.failing self.old.calls × (self.old.calls < 2 ^ 64 - 1)) }
        ensures next { self.new ≡ after_load self.old result }
        ensures answer { IsAnswerAt (file_at self.old.entries name.now) limit result }
    {
        if self.calls == u64::MAX {
            return Loaded::NoMemory;
        }
        if self.failing.contains(&self.calls) {
            self.calls += 1;
            self.faults += 1;
            return Loaded::Failed;
        }
        let Some(bytes) = find_file(&self.files, name) else {
            self.calls += 1;
            self.misses += 1;
            return Loaded::Absent;
        };
        if bytes.len() as u64 > limit {
            self.calls += 1;
            self.excesses += 1;
            return Loaded::TooBig;
        }
        match bytes.to_vec(alloc) {
            Ok(copy) => {
                self.calls += 1;
                Loaded::Bytes(copy)
            }
            Err(_) => Loaded::NoMemory,
        }
    }
}

// The bytes of the first file under the name.
fn find_file<'a>(files: &'a [(String, Vec<u8>)], name: &str) -> Option<&'a [u8]>
    ensures { option_map (λ bytes. bytes.now) result ≡ file_at (map entry_of files.now) name.now }
{
    for (own_name, bytes) in files {
        if own_name.as_str() == name {
            return Some(bytes.as_slice());
        }
    }
    None
}
