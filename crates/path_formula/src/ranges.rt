//! Sets of values that stand in a relation to a number.

ghost use Rattle.std.specs.Prelude.{◌≡◌, ◌≤◌, ◌+◌, ◌%◌, ◌^◌, ◌&&◌, nat_le, false, IfOk};
ghost use Rattle.sn_width.specs.Rel.{relates};
ghost use Rattle.sn_width.specs.Width.{FitsWidth};
ghost use Rattle.sn_ranges.specs.Ranges.{IsSetOf, fits_width, is_member};
ghost use Rattle.path_formula.specs.Solutions.{agrees};

use sn_ranges::Ranges;
use sn_width::{NoMemory, Num, Rel, Width};
use std::alloc::Global;

/// Whether the truth is `holds`.
pub(crate) fn agree(holds: bool, truth: bool) -> bool
    ensures { result ≡ agrees holds truth }
{
    if holds { truth } else { !truth }
}

/// All values of the width, or none.
pub(crate) fn all_or_none(alloc: Global, width: Width, all: bool) -> Result<Ranges, NoMemory>
    ensures { IfOk result (IsSetOf width (λ x. fits_width width x && all)) }
{
    let none = no_values(alloc, width)?;
    if all { none.other(alloc) } else { Ok(none) }
}

fn no_values(alloc: Global, width: Width) -> Result<Ranges, NoMemory>
    ensures { IfOk result (IsSetOf width (λ _. false)) }
{
    match Ranges::from_list(alloc, width, &[]) {
        Ok(set) => Ok(set),
        Err(_) => Err(NoMemory),
    }
}

/// The numbers from `first` to `last`, which are values of the width.
fn range(alloc: Global, width: Width, first: Num, last: Num) -> Result<Ranges, NoMemory>
    requires ordered { first ≤ last }
    requires fits { FitsWidth width last }
    ensures { IfOk result (IsSetOf width (λ x. nat_le first x && nat_le x last)) }
{
    match Ranges::from_list(alloc, width, &[(first, last)]) {
        Ok(set) => Ok(set),
        Err(_) => Err(NoMemory),
    }
}

/// The values that stand in the relation to the number.
fn related(alloc: Global, width: Width, rel: Rel, number: Num) -> Result<Ranges, NoMemory>
    requires { FitsWidth width number }
    ensures { IfOk result (IsSetOf width (λ x. fits_width width x && relates rel x number)) }
{
    match rel {
        Rel::Eq => range(alloc, width, number, number),
        Rel::Ne => range(alloc, width, number, number)?.other(alloc),
        Rel::Lt => range(alloc, width, number, width.max())?.other(alloc),
        Rel::Le => range(alloc, width, 0, number),
        Rel::Gt => range(alloc, width, 0, number)?.other(alloc),
        Rel::Ge => range(alloc, width, number, width.max()),
    }
}

/// The values that lie in the set after `by` is added, modulo `2^w`.
pub(crate) fn moved_back(alloc: Global, set: &Ranges, by: Num) -> Result<Ranges, NoMemory>
    requires { FitsWidth set.now.width by }
    ensures { IfOk result (IsSetOf set.now.width (λ x. fits_width set.now.width x
        && is_member set.now.pairs ((by + x) % 2 ^ set.now.width))) }
{
    let width = set.width();
    set.shift(alloc, width.sub(0, by))
}

/// The values x for which whether `x + by`, modulo `2^w`, stands in the relation to the number is
/// `holds`.
pub(crate) fn moved_related(
    alloc: Global,
    width: Width,
    rel: Rel,
    by: Num,
    number: Num,
    holds: bool,
) -> Result<Ranges, NoMemory>
    requires by { FitsWidth width by }
    requires number { FitsWidth width number }
    ensures { IfOk result (IsSetOf width (λ x. fits_width width x
        && agrees holds (relates rel ((by + x) % 2 ^ width) number))) }
{
    if holds {
        let set = related(alloc, width, rel, number)?;
        moved_back(alloc, &set, by)
    } else {
        let set = related(alloc, width, rel.negated(), number)?;
        moved_back(alloc, &set, by)
    }
}
