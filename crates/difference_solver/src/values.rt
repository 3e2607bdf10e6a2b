ghost use Rattle.std.specs.Prelude.{◌≡◌, ◌+◌, ◌*◌, ◌^◌, ◌≤◌, ◌<◌, length, IfOk};
ghost use Rattle.difference_solver.specs.Elimination.{HasLimit, IsClosed};
ghost use Rattle.difference_solver.specs.Values.{larger_of, smaller_of, IsLowestOf, IsHighestOf};
ghost use Rattle.difference_solver.specs.Values.{AreWithin, AreValues, IsNext};

use crate::table::Table;
use std::alloc::{AllocError, Global};

/// One integer for each unknown of a table from which all unknowns were eliminated, from 0 on: each
/// the least that its bounds allow beside those before it.
pub fn find_values(alloc: Global, table: &Table) -> Result<Vec<i128>, AllocError>
    requires limit { HasLimit (65 * 2 ^ 66) table.now }
    requires closed { IsClosed 0 table.now }
    ensures len { IfOk result (λ v. length v.items ≡ table.now.count + 1) }
    ensures values { IfOk result (λ v. AreValues table.now v.items) }
{
    let mut values = Vec::with_capacity(alloc, table.count() as usize + 1)?;
    for unknown in 0..table.count() + 1 {
        let value = next_value(table, values.as_slice(), unknown);
        values.push(value)?;
    }
    Ok(values)
}

/// The least number of `unknown` that its bounds allow beside the numbers of those below it; where
/// nothing bounds it from below, the greatest; and 0 where nothing bounds it at all.
fn next_value(table: &Table, values: &[i128], unknown: u32) -> i128
    requires within { unknown ≤ table.now.count }
    requires len { length values.now ≡ unknown }
    requires limit { HasLimit (65 * 2 ^ 66) table.now }
    requires closed { IsClosed 0 table.now }
    requires values { AreValues table.now values.now }
    ensures { IsNext table.now values.now unknown result }
{
    match lowest(table, values, unknown) {
        Some(value) => value,
        None => highest(table, values, unknown).unwrap_or(0),
    }
}

/// The least number of `unknown` that the bounds on those below it less it allow.
fn lowest(table: &Table, values: &[i128], unknown: u32) -> Option<i128>
    requires within { unknown ≤ table.now.count }
    requires len { length values.now ≡ unknown }
    requires limit { HasLimit (65 * 2 ^ 66) table.now }
    requires values { AreWithin values.now }
    ensures { IsLowestOf table.now values.now unknown unknown result }
{
    let mut least = None;
    for other in 0..unknown {
        least = match table.get(other, unknown) {
            None => least,
            Some(bound) => Some(larger(least, values[other as usize] - bound.at_most)),
        };
    }
    least
}

/// The greatest number of `unknown` that the bounds on it less those below it allow.
fn highest(table: &Table, values: &[i128], unknown: u32) -> Option<i128>
    requires within { unknown ≤ table.now.count }
    requires len { length values.now ≡ unknown }
    requires limit { HasLimit (65 * 2 ^ 66) table.now }
    requires values { AreWithin values.now }
    ensures { IsHighestOf table.now values.now unknown unknown result }
{
    let mut most = None;
    for other in 0..unknown {
        most = match table.get(unknown, other) {
            None => most,
            Some(bound) => Some(smaller(most, values[other as usize] + bound.at_most)),
        };
    }
    most
}

fn larger(before: Option<i128>, value: i128) -> i128
    ensures { result ≡ larger_of before value }
{
    match before {
        None => value,
        Some(before) => before.max(value),
    }
}

fn smaller(before: Option<i128>, value: i128) -> i128
    ensures { result ≡ smaller_of before value }
{
    match before {
        None => value,
        Some(before) => before.min(value),
    }
}
