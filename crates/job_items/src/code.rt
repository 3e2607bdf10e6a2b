//! The rules on the instructions of a port's code.

ghost use Rattle.sefl_syntax.specs.Views.{instr_tree, code_tree};
ghost use Rattle.job_items.specs.Items.{code_items, instr_items};
ghost use Rattle.job_items.specs.Places.{place_of};
ghost use Rattle.job_items.specs.Progress.{progress_of, outcome_from, Follows};

use crate::halt::Halt;
use crate::instr::begin_instr;
use crate::place::Place;
use crate::rule::{Breach, Rule};
use crate::tally::Tally;
use sefl_syntax::Instr;
use std::alloc::Global;

/// Passes the instructions, those in blocks too, up to the first that breaks a rule.
#[cycle(check_code)]
pub(crate) fn check_code<'a>(
    alloc: Global,
    tally: &mut Tally<'a>,
    place: Place<'a>,
    code: &'a [Instr],
) -> Result<(), Halt>
    ensures { Follows (outcome_from (progress_of tally.old) (code_items (place_of place.entry) (code_tree code.now)))
        result (progress_of tally.new) }
{
    for instr in code {
        check_instr(alloc, tally, place, instr)?;
    }
    Ok(())
}

/// Passes an instruction and those in its blocks, up to the first that breaks a rule.
#[cycle(check_code)]
fn check_instr<'a>(
    alloc: Global,
    tally: &mut Tally<'a>,
    place: Place<'a>,
    instr: &'a Instr,
) -> Result<(), Halt>
    ensures { Follows (outcome_from (progress_of tally.old) (instr_items (place_of place.entry) (instr_tree instr.now)))
        result (progress_of tally.new) }
{
    begin_instr(alloc, tally, place, instr)?;
    match instr {
        Instr::If { first, other, .. } => {
            tally.step()?;
            check_code(alloc, tally, place, first)?;
            check_code(alloc, tally, place, other)
        }
        Instr::For { var, body, .. } => {
            let Some(inner) = place.within(var) else {
                return Err(Halt::Broken(Breach::Breaks(Rule::NestedFor)));
            };
            tally.step()?;
            check_code(alloc, tally, inner, body)
        }
        Instr::Block(body) => {
            tally.step()?;
            check_code(alloc, tally, place, body)
        }
        _ => tally.step(),
    }
}
