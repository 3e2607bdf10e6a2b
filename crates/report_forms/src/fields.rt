//! What is carried at an end. Each function here does nothing: it says what types say, or that a term has more parts than
//! can be counted.

ghost use Rattle.std.specs.Prelude.{IfOk, map};
ghost use Rattle.std.specs.List.{AllByRecursion};
ghost use Rattle.path_records.specs.Shown.{fields_seen, held_head, held_meta};
ghost use Rattle.report_forms.specs.Ranges.{CellInRange, FieldsInRange, HeadInRange, MetaInRange, TagInRange, TermInRange};

use crate::numbers::{address_fits, number_of_symbol};
use cell_stacks::Cell;
use lin_term::Term;
use path_records::Fields;
use sn_width::{NameId, NoMemory, NodeId, TagId};

fn term_fits(term: &Term) -> Result<(), NoMemory>
    ensures { IfOk result (λ _. TermInRange term.now) }
{
    let _width = term.width();
    let mut index: usize = 0;
    while let Some((symbol, _)) = term.part(index) {
        let _number = number_of_symbol(symbol);
        index = index.checked_add(1).ok_or(NoMemory)?;
    }
    Ok(())
}

fn cell_fits(cell: &Cell<Term>) -> Result<(), NoMemory>
    ensures { IfOk result (λ _. CellInRange cell.now) }
{
    let _bits = cell.width.bits();
    match &cell.value {
        None => Ok(()),
        Some(term) => term_fits(term),
    }
}

fn cells_fit(cells: &[Cell<Term>]) -> Result<(), NoMemory>
    ensures { IfOk result (λ _. AllByRecursion CellInRange cells.now) }
{
    for cell in cells {
        cell_fits(cell)?;
    }
    Ok(())
}

fn tag_fits(tag: &(TagId, i32))
    ensures { TagInRange tag.now }
{
    address_fits(tag.1);
}

fn tags_fit(tags: &[(TagId, i32)])
    ensures { AllByRecursion TagInRange tags.now }
{
    for tag in tags {
        tag_fits(tag);
    }
}

fn head_fits(head: &(i32, Vec<Cell<Term>>)) -> Result<(), NoMemory>
    ensures { IfOk result (λ _. HeadInRange (held_head head.now)) }
{
    address_fits(head.0);
    cells_fit(&head.1)
}

fn heads_fit(heads: &[(i32, Vec<Cell<Term>>)]) -> Result<(), NoMemory>
    ensures { IfOk result (λ _. AllByRecursion HeadInRange (map held_head heads.now)) }
{
    for head in heads {
        head_fits(head)?;
    }
    Ok(())
}

fn meta_fits(meta: &(Option<NodeId>, NameId, Vec<Cell<Term>>)) -> Result<(), NoMemory>
    ensures { IfOk result (λ _. MetaInRange (held_meta meta.now)) }
{
    cells_fit(&meta.2)
}

fn metas_fit(metas: &[(Option<NodeId>, NameId, Vec<Cell<Term>>)]) -> Result<(), NoMemory>
    ensures { IfOk result (λ _. AllByRecursion MetaInRange (map held_meta metas.now)) }
{
    for meta in metas {
        meta_fits(meta)?;
    }
    Ok(())
}

pub(crate) fn fields_fit(fields: &Fields) -> Result<(), NoMemory>
    ensures { IfOk result (λ _. FieldsInRange (fields_seen fields.now)) }
{
    tags_fit(&fields.tags);
    heads_fit(&fields.heads)?;
    metas_fit(&fields.metas)
}
