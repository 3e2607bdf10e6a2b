//! Rows by their keys, in the order of the file.
//!
//! An ordered map finds the rows: who writes a file chooses its keys, and might choose those that a hash map puts into one place.

ghost use Rattle.std.specs.Map.{lookup};
ghost use Rattle.std.specs.Prelude.{◌≡◌, ◌++◌, ◌∷◌, [], None, OnErr, OnOk};
ghost use Rattle.table_lines.specs.Rows.{is_key};

use std::alloc::{AllocError, Global};
use std::collections::BTreeMap;
use std::marker::Model;

/// Where a row of a key stands first, and its port.
#[derive(Clone, Copy)]
pub(crate) struct Seen {
    pub line: u64,
    pub port: u32,
}

/// The first row of each key, in the order in which they were added.
#[derive(Drop)]
pub(crate) struct Entries {
    rows: Vec<((u64, u32), Seen)>,
    found: BTreeMap<(u64, u32), Seen>,
}

impl Model for Entries {
    ghost use Rattle.std.specs.Map.{lookup};
    ghost use Rattle.std.specs.Prelude.{◌≡◌, List};
    ghost use Rattle.table_lines.specs.Rows.{Key, is_key};
    ghost use Rattle.table_lines.specs.Found.{found_at};
    ghost use Rattle.table_lines.specs.declared.entries.Seen.{Seen};

    ghost Value = { List (Key × Seen) };

    ghost view = { λ e. e.rows.items };

    ghost invariant = { λ e. (key : Key) → found_at e.found.entries key ≡ lookup (is_key key) e.rows.items };
}

impl Entries {
    pub(crate) fn new(alloc: Global) -> Entries
        ensures { result ≡ [] }
    {
        Entries {
            rows: Vec::new(alloc),
            found: BTreeMap::new(alloc),
        }
    }

    /// The row of the key.
    pub(crate) fn get(&self, key: (u64, u32)) -> Option<Seen>
        ensures { result ≡ lookup (is_key key) self.now }
    {
        self.found.get(&key).copied()
    }

    /// One more row, of a key that no row has. A refusal changes nothing.
    pub(crate) fn add(&mut self, key: (u64, u32), seen: Seen) -> Result<(), AllocError>
        requires { lookup (is_key key) self.old ≡ None }
        ensures added { OnOk result (self.new ≡ self.old ++ (key, seen) ∷ []) }
        ensures kept { OnErr result (self.new ≡ self.old) }
    {
        self.rows.reserve(1)?;
        self.found.insert(key, seen)?;
        let Ok(()) = self.rows.push((key, seen)) else {
            unreachable!();
        };
        Ok(())
    }

    /// The rows.
    pub(crate) fn rows(&self) -> &[((u64, u32), Seen)]
        ensures { result.now ≡ self.now }
    {
        &self.rows
    }
}
