//! Terms.

ghost use Rattle.run_text.specs.Tokens.{Gains};
ghost use Rattle.run_text.specs.Forms.{term_part_data, term_parts_data};

use crate::JsonText;
use crate::json_laws::lists_are_written;
use crate::parts::write_value;
use lin_term::Term;
use sn_width::{NoMemory, Num, SymId};
use std::alloc::Global;

fn write_part(
    alloc: Global,
    out: &mut JsonText,
    symbol: SymId,
    coefficient: Num,
) -> Result<(), NoMemory>
    ensures { Gains (term_part_data (symbol, coefficient)) result out.old out.new }
{
    lists_are_written();
    out.begin_list()?;
    out.count(symbol.0)?;
    write_value(alloc, out, coefficient)?;
    out.end_list()?;
    Ok(())
}

/// A list of a term's symbols with their coefficients.
#[tactic(auto, unfolding(crate::specs::Forms::term_parts_data))]
pub(crate) fn write_parts(alloc: Global, out: &mut JsonText, term: &Term) -> Result<(), NoMemory>
    ensures { Gains (term_parts_data term.now.parts) result out.old out.new }
{
    out.begin_list()?;
    let mut index: usize = 0;
    while let Some((symbol, coefficient)) = term.part(index) {
        write_part(alloc, out, symbol, coefficient)?;
        index = index.checked_add(1).ok_or(NoMemory)?;
    }
    out.end_list()?;
    Ok(())
}
