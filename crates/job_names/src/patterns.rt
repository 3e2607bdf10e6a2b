//! The patterns of a job.

ghost use Rattle.std.specs.Prelude.{◌≡◌, ◌<◌, ℕ, List, cond, length, position, slice_get, Some, None, IfOk, OnOk, bytes_eq};
ghost use Rattle.std.specs.Map.{keys_of};
ghost use Rattle.std.specs.Option.{option_or};
ghost use Rattle.job_names.specs.Tables.{AreIndexes, at_text};

use indexmap::IndexMap;
use sefl_syntax::Text;
use sn_width::NoMemory;
use std::alloc::Global;
use std::collections::BTreeMap;
use std::marker::Model;

/// Patterns in order of first occurrence, each with the site of the first For that has it. Contracts see the list.
#[derive(Drop)]
pub(crate) struct PatternTable {
    rows: Vec<(Text, u64)>,
    indexes: BTreeMap<Text, usize>,
}

impl Model for PatternTable {
    ghost use Rattle.std.specs.Prelude.{ℕ, List};
    ghost use Rattle.job_names.specs.Tables.{AreIndexes};

    ghost Value = { List (List ℕ × ℕ) };

    ghost view = { λ t. t.rows.items };

    ghost invariant = { λ t. AreIndexes t.rows.items t.indexes.entries };
}

impl PatternTable {
    /// The patterns that were noted.
    pub(crate) fn of(alloc: Global, noted: IndexMap<Text, u64>) -> Result<PatternTable, NoMemory>
        ensures { IfOk result (λ table. table ≡ noted.entries) }
    {
        let rows = rows_of(alloc, noted)?;
        let indexes = indexes_of(alloc, &rows)?;
        Ok(PatternTable { rows, indexes })
    }

    /// How many patterns there are.
    pub(crate) fn len(&self) -> usize
        ensures { result ≡ length self.now }
    {
        self.rows.len()
    }

    /// The pattern at an index, with its site.
    pub(crate) fn row(&self, index: usize) -> (&Text, u64)
        requires { index < length self.now }
        ensures { slice_get self.now index ≡ Some (result.0.now, result.1) }
    {
        let (pattern, site) = self.rows.get(index).unwrap();
        (pattern, *site)
    }

    /// The index of a pattern; None exactly where there is no such pattern.
    pub(crate) fn index_of(&self, pattern: &Text) -> Option<usize>
        ensures { result ≡ position (bytes_eq pattern.now) (keys_of self.now) }
    {
        self.indexes.get(pattern).copied()
    }
}

/// The rows, in order.
fn rows_of(alloc: Global, noted: IndexMap<Text, u64>) -> Result<Vec<(Text, u64)>, NoMemory>
    ensures { IfOk result (λ rows. rows.items ≡ noted.entries) }
{
    Ok(noted.into_iter().collect(alloc)?)
}

/// The index of the first row of each pattern.
fn indexes_of(alloc: Global, rows: &[(Text, u64)]) -> Result<BTreeMap<Text, usize>, NoMemory>
    ensures { IfOk result (λ indexes. AreIndexes rows.now indexes.entries) }
{
    let mut indexes = BTreeMap::new(alloc);
    for (index, row) in rows.iter().enumerate() {
        enter(&mut indexes, &row.0, index)?;
    }
    Ok(indexes)
}

/// Enters the index, unless the pattern has one.
fn enter(indexes: &mut BTreeMap<Text, usize>, pattern: &Text, index: usize) -> Result<(), NoMemory>
    ensures { OnOk result ((text : List ℕ) → at_text indexes.new.entries text
        ≡ option_or (at_text indexes.old.entries text) (cond (bytes_eq text pattern.now) (Some index) None)) }
{
    if indexes.contains_key(pattern) {
        return Ok(());
    }
    let own = pattern.clone()?;
    indexes.insert(own, index)?;
    Ok(())
}
