//! Refutations.

ghost use Rattle.run_text.specs.Tokens.{Gains};
ghost use Rattle.record_text.specs.Records.{ids_data, empty_data, numbered_data, member_split_data, split_data, cycle_data, step_data, refutation_data};

use refutation_check::Refute;
use run_text::JsonText;
use run_text::json_laws::lists_are_written;
use sn_width::{NoMemory, SymId};

#[tactic(auto, unfolding(crate::specs::Records::ids_data))]
fn write_ids(out: &mut JsonText, ids: &[u32]) -> Result<(), NoMemory>
    ensures { Gains (ids_data ids.now) result out.old out.new }
{
    out.begin_list()?;
    for id in ids {
        out.id(*id)?;
    }
    out.end_list()?;
    Ok(())
}

fn write_empty(out: &mut JsonText, symbol: SymId, picks: &[u32]) -> Result<(), NoMemory>
    ensures { Gains (empty_data symbol.0 picks.now) result out.old out.new }
{
    lists_are_written();
    out.begin_list()?;
    out.string("empty")?;
    out.count(symbol.0)?;
    write_ids(out, picks)?;
    out.end_list()?;
    Ok(())
}

/// A word with a number.
fn write_numbered(out: &mut JsonText, word: &str, number: u64) -> Result<(), NoMemory>
    ensures { Gains (numbered_data word.now number) result out.old out.new }
{
    lists_are_written();
    out.begin_list()?;
    out.string(word)?;
    out.count(number)?;
    out.end_list()?;
    Ok(())
}

/// A split of the member of a formula to which the way leads.
fn write_member_split(out: &mut JsonText, pick: u32, way: &[u32]) -> Result<(), NoMemory>
    ensures { Gains (member_split_data pick way.now) result out.old out.new }
{
    lists_are_written();
    out.begin_list()?;
    out.string("split")?;
    out.id(pick)?;
    write_ids(out, way)?;
    out.end_list()?;
    Ok(())
}

/// A split: of the formula itself where the way is empty, which is then left out.
#[tactic(auto, using(crate::proofs::Splits::of_formula, crate::proofs::Splits::of_member))]
fn write_split(out: &mut JsonText, pick: u32, way: &[u32]) -> Result<(), NoMemory>
    ensures { Gains (split_data pick way.now) result out.old out.new }
{
    match way {
        [] => write_numbered(out, "split", u64::from(pick)),
        [_, ..] => write_member_split(out, pick, way),
    }
}

fn write_cycle(out: &mut JsonText, bounds: &[u32]) -> Result<(), NoMemory>
    ensures { Gains (cycle_data bounds.now) result out.old out.new }
{
    lists_are_written();
    out.begin_list()?;
    out.string("cycle")?;
    write_ids(out, bounds)?;
    out.end_list()?;
    Ok(())
}

fn write_step(out: &mut JsonText, step: &Refute) -> Result<(), NoMemory>
    ensures { Gains (step_data step.now) result out.old out.new }
{
    match step {
        Refute::Empty { symbol, picks } => write_empty(out, *symbol, picks.as_slice()),
        Refute::Domain { symbol } => write_numbered(out, "domain", symbol.0),
        Refute::Split { pick, way } => write_split(out, *pick, way.as_slice()),
        Refute::Cycle { bounds } => write_cycle(out, bounds.as_slice()),
    }
}

/// The steps of a refutation, in order.
#[tactic(auto, unfolding(crate::specs::Records::refutation_data))]
pub fn write_refutation(out: &mut JsonText, steps: &[Refute]) -> Result<(), NoMemory>
    ensures { Gains (refutation_data steps.now) result out.old out.new }
{
    out.begin_list()?;
    for step in steps {
        write_step(out, step)?;
    }
    out.end_list()?;
    Ok(())
}
