//! Patterns by a table.
ghost use Rattle.std.specs.Prelude.{◌≡◌, map, Some, string_bytes};
ghost use Rattle.sn_edge.specs.MemPatterns.{PatternTable, row_of, finds_by, is_listed, IsFoundBy, after_find};

use crate::count::raise;
use crate::{Found, Patterns};
use std::alloc::Global;
use std::marker::Model;

/// Patterns that a table answers for.
#[derive(Drop)]
pub struct MemPatterns {
    rows: Vec<(String, String, bool)>,
    bad: Vec<String>,
    refusals: u64,
}

impl Model for MemPatterns {
    ghost use Rattle.std.specs.Prelude.{map, string_bytes};
    ghost use Rattle.sn_edge.specs.MemPatterns.{PatternTable, row_of};

    ghost Value = { PatternTable };

    ghost view = { λ p. record {
      rows = map row_of p.rows.items;
      bad = map string_bytes p.bad.items;
      refusals = p.refusals;
    } };
}

impl MemPatterns {
    /// Each row is a pattern, a name and whether the pattern finds it; of two rows for one pair the first
    /// counts, and a pair with no row is not found. The patterns in `bad` are refused.
    pub fn new(rows: Vec<(String, String, bool)>, bad: Vec<String>) -> MemPatterns
        ensures { result ≡ record { rows = map row_of rows.items; bad = map string_bytes bad.items; refusals = 0 } }
    {
        MemPatterns {
            rows,
            bad,
            refusals: 0,
        }
    }
}

impl Patterns for MemPatterns {
    ghost told = { λ t. record { matches = Some (finds_by t.rows); bad = Some (is_listed t.bad); refusals = t.refusals } };

    ghost find_gives = { λ old pattern name answer new. IsFoundBy old pattern name answer × (new ≡ after_find old answer) };

    fn find(&mut self, _alloc: Global, pattern: &str, name: &str) -> Found
        ensures answer { IsFoundBy self.old pattern.now name.now result }
        ensures next { self.new ≡ after_find self.old result }
    {
        if is_bad(&self.bad, pattern) {
            if !raise(&mut self.refusals) {
                return Found::NoMemory;
            }
            return Found::Bad;
        }
        if finds(&self.rows, pattern, name) {
            Found::Yes
        } else {
            Found::No
        }
    }
}

// Whether the pattern is in the list.
fn is_bad(bad: &[String], pattern: &str) -> bool
    ensures { result ≡ is_listed (map string_bytes bad.now) pattern.now }
{
    for own_pattern in bad {
        if own_pattern.as_str() == pattern {
            return true;
        }
    }
    false
}

// What the first row for the pair says.
fn finds(rows: &[(String, String, bool)], pattern: &str, name: &str) -> bool
    ensures { result ≡ finds_by (map row_of rows.now) pattern.now name.now }
{
    for (own_pattern, own_name, yes) in rows {
        if own_pattern.as_str() == pattern && own_name.as_str() == name {
            return *yes;
        }
    }
    false
}
