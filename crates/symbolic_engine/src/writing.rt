//! Records, as they are written out.

ghost use Rattle.std.specs.Prelude.{◌≡◌, length, option_map, reverse, IfOk};
ghost use Rattle.sefl_meaning.specs.Fields.{fields_of};
ghost use Rattle.exact_records.specs.Records.{path, pruned, unexplored};
ghost use Rattle.exact_records.specs.Points.{filled, filled_cause, filled_verdict};
ghost use Rattle.exact_records.specs.View.{record_tree};
ghost use Rattle.symbolic_engine.specs.Finds.{filled_before};

use crate::found::Before;
use path_records::Record;
use refutation_check::{Cause, Listed, Refutation, Verdict};
use sefl_meaning::{Decision, End};
use sn_width::{NoMemory, Num};
use std::alloc::Global;
use sym_state::SymState;

/// The values, with zeros behind them until there are `count`.
fn filled(alloc: Global, values: &[Num], count: u64) -> Result<Listed<Num>, NoMemory>
    ensures { IfOk result (λ more. more ≡ filled count values.now) }
{
    let mut more = Vec::from_slice(alloc, values)?;
    for place in values.len() as u64..count {
        let _place = place;
        more.push(0)?;
    }
    Ok(Listed::from_vec(more))
}

fn filled_cause(alloc: Global, cause: &Cause, count: u64) -> Result<Cause, NoMemory>
    ensures { IfOk result (λ written. written ≡ filled_cause count cause.now) }
{
    match cause {
        Cause::Outside { pick, values } => {
            let values = filled(alloc, values.as_slice(), count)?;
            Ok(Cause::Outside {
                pick: *pick,
                values,
            })
        }
        Cause::Cases { count } => Ok(Cause::Cases { count: *count }),
        Cause::Coupled { count } => Ok(Cause::Coupled { count: *count }),
    }
}

/// The verdict with a value for each of `count` symbols.
fn filled_verdict(alloc: Global, verdict: &Verdict, count: u64) -> Result<Verdict, NoMemory>
    ensures { IfOk result (λ written. written ≡ filled_verdict count verdict.now) }
{
    match verdict {
        Verdict::Sat { values } => {
            let values = filled(alloc, values.as_slice(), count)?;
            Ok(Verdict::Sat { values })
        }
        Verdict::Undecided { cause } => {
            let cause = filled_cause(alloc, cause, count)?;
            Ok(Verdict::Undecided { cause })
        }
    }
}

/// The verdict before a refuted side, where there is one.
fn filled_before(alloc: Global, before: &Option<Before>) -> Result<Option<Verdict>, NoMemory>
    ensures { IfOk result (λ written. written ≡ option_map filled_before before.now) }
{
    match before {
        None => Ok(None),
        Some(before) => {
            let verdict = filled_verdict(alloc, &before.verdict, before.symbols)?;
            Ok(Some(verdict))
        }
    }
}

/// The path of a state whose run is over.
pub(crate) fn path(
    alloc: Global,
    decisions: &[Decision],
    state: &SymState,
    how: End,
    verdict: &Verdict,
) -> Result<Record, NoMemory>
    ensures { IfOk result (λ made. record_tree made
        ≡ path decisions.now (reverse state.now.places) how (fields_of state.now.carried)
        (filled_verdict (length state.now.condition.widths) verdict.now)) }
{
    let decisions = Vec::from_slice(alloc, decisions)?;
    let places = state.places(alloc)?;
    let fields = state.fields(alloc)?;
    let verdict = filled_verdict(alloc, verdict, state.condition().symbols())?;
    Ok(Record::Path {
        decisions,
        places,
        end: how,
        fields,
        verdict,
    })
}

/// A refuted side, where this was found before its decision.
pub(crate) fn pruned(
    alloc: Global,
    decisions: &[Decision],
    before: &Option<Before>,
    refutation: Refutation,
) -> Result<Record, NoMemory>
    ensures { IfOk result (λ made. record_tree made
        ≡ pruned decisions.now (option_map filled_before before.now) refutation) }
{
    let decisions = Vec::from_slice(alloc, decisions)?;
    let before = filled_before(alloc, before)?;
    Ok(Record::Pruned {
        decisions,
        before,
        refutation,
    })
}

/// Decisions that are not tried.
pub(crate) fn unexplored(alloc: Global, decisions: &[Decision]) -> Result<Record, NoMemory>
    ensures { IfOk result (λ made. record_tree made ≡ unexplored decisions.now) }
{
    let decisions = Vec::from_slice(alloc, decisions)?;
    Ok(Record::Unexplored { decisions })
}
