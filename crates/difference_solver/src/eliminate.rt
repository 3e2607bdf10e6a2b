ghost use Rattle.std.specs.Prelude.{◌≡◌, ◌≢◌, ℕ, ◌+◌, ◌*◌, ◌^◌, ◌<◌, ◌≤◌, List};
ghost use Rattle.std.specs.Prelude.{Some, None, IfSome, IfNone, MatchOption};
ghost use Rattle.difference_solver.specs.declared.bound.Bound.{Bound};
ghost use Rattle.difference_solver.specs.Table.{entry};
ghost use Rattle.difference_solver.specs.Elimination.{sum_of, least_sum, AddsRow, AddsRows, HasNoLoop};
ghost use Rattle.difference_solver.specs.Elimination.{HasLimit, HasRowLimit, IsWithin, IsLoop, IsClosed};
ghost use Rattle.difference_solver.specs.Elimination.{HasSources, KeepsImplied};

use crate::table::{Kept, Source, Table};

/// An unknown and a greater one, where the two bounds between them sum below zero.
#[derive(Clone, Copy)]
pub struct Loop {
    pub unknown: u32,
    pub through: u32,
}

/// Eliminates the unknowns above 0, from the greatest on: each bound with `plus` at the unknown is
/// added to each with `minus` at it. Stops before the first one through which an unknown would be
/// less than itself.
pub fn eliminate_all(table: &mut Table) -> Option<Loop>
    requires { HasLimit (2 ^ 66) table.old }
    ensures count { table.new.count ≡ table.old.count }
    ensures limit { HasLimit (65 * 2 ^ 66) table.new }
    ensures kept { KeepsImplied table.old table.new }
    ensures sources { (bounds : List Bound) →
        HasSources bounds table.old.count table.old → HasSources bounds 0 table.new }
    ensures closed { IfNone result (IsClosed 0 table.new) }
    ensures negative { IfSome result (λ l. IsLoop l.through l.unknown table.new) }
{
    let count = table.count();
    for step in 0..count {
        let through = count - step;
        match loop_through(table, through) {
            Some(unknown) => return Some(Loop { unknown, through }),
            None => add_rows(table, through),
        }
    }
    None
}

/// The least unknown below `through` whose two bounds through it sum below zero.
fn loop_through(table: &Table, through: u32) -> Option<u32>
    requires within { through ≤ table.now.count }
    requires limit { HasLimit (65 * 2 ^ 66) table.now }
    ensures { MatchOption result
        (HasNoLoop through through table.now)
        (λ i. IsLoop through i table.now) }
{
    for unknown in 0..through {
        if let Some(sum) = sum_on(table, unknown, through)
            && sum < 0
        {
            return Some(unknown);
        }
    }
    None
}

/// The bound on `unknown` less itself that comes through another unknown.
fn sum_on(table: &Table, unknown: u32, through: u32) -> Option<i128>
    requires unknown { unknown < through }
    requires within { through ≤ table.now.count }
    requires limit { HasLimit (65 * 2 ^ 66) table.now }
    ensures { result ≡ sum_of (entry table.now unknown through) (entry table.now through unknown) }
{
    let upper = table.get(unknown, through)?;
    let lower = table.get(through, unknown)?;
    Some(upper.at_most + lower.at_most)
}

/// Adds each bound on an unknown less `through` to each on `through` less another unknown, and keeps
/// the least.
fn add_rows(table: &mut Table, through: u32)
    requires within { through ≤ table.old.count }
    requires limit { HasLimit (65 * 2 ^ 66) table.old }
    ensures { AddsRows through through table.old table.new }
{
    for unknown in 0..through {
        match table.get(unknown, through) {
            Some(upper) => add_row(table, through, unknown, upper),
            None => {}
        }
    }
}

/// Adds this bound, on `unknown` less `through`, to each one on `through` less another unknown.
fn add_row(table: &mut Table, through: u32, unknown: u32, upper: Kept)
    requires unknown { unknown < through }
    requires within { through ≤ table.old.count }
    requires upper { entry table.old unknown through ≡ Some upper }
    requires upper_limit { IsWithin (65 * 2 ^ 66) upper.at_most }
    requires row_limit { HasRowLimit (65 * 2 ^ 66) through table.old }
    ensures { AddsRow through unknown through table.old table.new }
{
    for other in 0..through {
        if other != unknown {
            add_pair(table, through, unknown, other, upper);
        }
    }
}

/// Adds this bound, on `unknown` less `through`, to the one on `through` less `other`.
fn add_pair(table: &mut Table, through: u32, unknown: u32, other: u32, upper: Kept)
    requires unknown { unknown < through }
    requires other { other < through }
    requires within { through ≤ table.old.count }
    requires upper_limit { IsWithin (65 * 2 ^ 66) upper.at_most }
    requires row_limit { HasRowLimit (65 * 2 ^ 66) through table.old }
    ensures changed { let kept = entry table.old unknown other in
        let lower = entry table.old through other in
        entry table.new unknown other ≡ least_sum through kept (Some upper) lower }
    ensures same { (p q : ℕ) → (p ≡ unknown → q ≢ other) → entry table.new p q ≡ entry table.old p q }
    ensures count { table.new.count ≡ table.old.count }
{
    if let Some(lower) = table.get(through, other) {
        let at_most = upper.at_most + lower.at_most;
        table.keep(
            unknown,
            other,
            Kept {
                at_most,
                source: Source::Sum { through },
            },
        );
    }
}
