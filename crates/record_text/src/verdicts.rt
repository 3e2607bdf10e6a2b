//! Verdicts and causes.

ghost use Rattle.run_text.specs.Tokens.{Gains};
ghost use Rattle.record_text.specs.Records.{outside_data, counted_data, cause_data, sat_data, undecided_data, verdict_data, before_data};

use refutation_check::{Cause, Verdict};
use run_text::json_laws::objects_are_written;
use run_text::{JsonText, write_values};
use sn_width::{NoMemory, Num};
use std::alloc::Global;

fn write_outside(
    alloc: Global,
    out: &mut JsonText,
    pick: u32,
    values: &[Num],
) -> Result<(), NoMemory>
    ensures { Gains (outside_data pick values.now) result out.old out.new }
{
    objects_are_written();
    out.begin_object()?;
    out.key("cause")?;
    out.string("outside")?;
    out.key("pick")?;
    out.id(pick)?;
    out.key("values")?;
    write_values(alloc, out, values)?;
    out.end_object()?;
    Ok(())
}

fn write_counted(out: &mut JsonText, word: &str, count: u64) -> Result<(), NoMemory>
    ensures { Gains (counted_data word.now count) result out.old out.new }
{
    objects_are_written();
    out.begin_object()?;
    out.key("cause")?;
    out.string(word)?;
    out.key("count")?;
    out.count(count)?;
    out.end_object()?;
    Ok(())
}

fn write_cause(alloc: Global, out: &mut JsonText, cause: &Cause) -> Result<(), NoMemory>
    ensures { Gains (cause_data cause.now) result out.old out.new }
{
    match cause {
        Cause::Outside { pick, values } => write_outside(alloc, out, *pick, values.as_slice()),
        Cause::Cases { count } => write_counted(out, "cases", *count),
        Cause::Coupled { count } => write_counted(out, "coupled", *count),
    }
}

fn write_sat(alloc: Global, out: &mut JsonText, values: &[Num]) -> Result<(), NoMemory>
    ensures { Gains (sat_data values.now) result out.old out.new }
{
    objects_are_written();
    out.begin_object()?;
    out.key("sat")?;
    write_values(alloc, out, values)?;
    out.end_object()?;
    Ok(())
}

fn write_undecided(alloc: Global, out: &mut JsonText, cause: &Cause) -> Result<(), NoMemory>
    ensures { Gains (undecided_data cause.now) result out.old out.new }
{
    objects_are_written();
    out.begin_object()?;
    out.key("undecided")?;
    write_cause(alloc, out, cause)?;
    out.end_object()?;
    Ok(())
}

/// A verdict: `{"sat":[..]}` with values, or `{"undecided":..}` with the cause.
#[tactic(auto, unfolding(crate::specs::Records::verdict_data))]
pub fn write_verdict(alloc: Global, out: &mut JsonText, verdict: &Verdict) -> Result<(), NoMemory>
    ensures { Gains (verdict_data verdict.now) result out.old out.new }
{
    match verdict {
        Verdict::Sat { values } => write_sat(alloc, out, values.as_slice()),
        Verdict::Undecided { cause } => write_undecided(alloc, out, cause),
    }
}

/// A verdict, or null where there is none.
#[tactic(auto, unfolding(crate::specs::Records::before_data))]
pub fn write_before(
    alloc: Global,
    out: &mut JsonText,
    before: &Option<Verdict>,
) -> Result<(), NoMemory>
    ensures { Gains (before_data before.now) result out.old out.new }
{
    match before {
        None => out.null(),
        Some(verdict) => write_verdict(alloc, out, verdict),
    }
}
