//! Whether a cell holds a reduced term.

ghost use Rattle.std.specs.Prelude.{◌≡◌, None, IfOk};
ghost use Rattle.serde_json.specs.View.{view, items_view};
ghost use Rattle.report_shape.specs.Reduced.{count_at, number_in, number_at, items_at, greatest, is_behind, term_fits, ascends, is_reduced};

use crate::large::large_of;
use serde_json::Value;
use sn_width::{NoMemory, Num};
use std::alloc::Global;

fn count_at(value: &Value, index: usize) -> u64
    ensures { result ≡ count_at index (view value.now) }
{
    value.get(index).and_then(Value::as_u64).unwrap_or(0)
}

fn number_in(alloc: Global, value: &Value) -> Result<Num, NoMemory>
    ensures { IfOk result (λ n. n ≡ number_in (view value.now)) }
{
    match value {
        Value::Number(number) => Ok(Num::from(number.as_u64().unwrap_or(0))),
        Value::String(text) => Ok(large_of(alloc, text)?.unwrap_or(0)),
        _ => Ok(0),
    }
}

fn number_at(alloc: Global, value: &Value, index: usize) -> Result<Num, NoMemory>
    ensures { IfOk result (λ n. n ≡ number_at index (view value.now)) }
{
    match value.get(index) {
        Some(found) => number_in(alloc, found),
        None => Ok(0),
    }
}

fn items_at(value: &Value, index: usize) -> &[Value]
    ensures { items_view result.now ≡ items_at index (view value.now) }
{
    let Some(found) = value.get(index) else {
        return &[];
    };
    match found.as_array() {
        Some(items) => items,
        None => &[],
    }
}

/// The greatest number of `width` bits, at most 128.
fn greatest(width: u64) -> Num
    ensures { result ≡ greatest width }
{
    if width < 128 {
        (1 << width) - 1
    } else {
        Num::MAX
    }
}

fn is_behind(last: Option<u64>, symbol: u64) -> bool
    ensures { result ≡ is_behind last symbol }
{
    match last {
        None => true,
        Some(last) => last < symbol,
    }
}

fn term_fits(last: Option<u64>, most: Num, symbol: u64, coefficient: Num) -> bool
    ensures { result ≡ term_fits last most symbol coefficient }
{
    is_behind(last, symbol) && 0 < coefficient && coefficient <= most
}

fn ascends(alloc: Global, most: Num, terms: &[Value]) -> Result<bool, NoMemory>
    ensures { IfOk result (λ holds. holds ≡ ascends None most (items_view terms.now)) }
{
    let mut last = None;
    for term in terms {
        let symbol = count_at(term, 0);
        let coefficient = number_at(alloc, term, 1)?;
        if !term_fits(last, most, symbol, coefficient) {
            return Ok(false);
        }
        last = Some(symbol);
    }
    Ok(true)
}

/// Whether the symbols of a cell ascend, no coefficient is 0, and no number is past the greatest of its width.
pub(crate) fn is_reduced(alloc: Global, cell: &Value) -> Result<bool, NoMemory>
    ensures { IfOk result (λ holds. holds ≡ is_reduced (view cell.now)) }
{
    let most = greatest(count_at(cell, 0));
    let constant = number_at(alloc, cell, 1)?;
    if constant <= most {
        ascends(alloc, most, items_at(cell, 2))
    } else {
        Ok(false)
    }
}
