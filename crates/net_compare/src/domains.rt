//! Symbols that two conditions have in common, and their domains.

ghost use Rattle.std.specs.Prelude.{◌≡◌, IfOk, IsTrue};
ghost use Rattle.interval_solver.specs.Domains.{AreDomainsOf};
ghost use Rattle.net_compare.specs.Apart.{IsApartAt, TellsApart};
ghost use Rattle.net_compare.specs.Saying.{seen_path};

use crate::delivery::Delivery;
use refutation_check::laws::a_condition_is_judged_by_its_trees;
use sn_width::{NoMemory, SymId};
use std::alloc::Global;

/// Whether some symbol that both paths have is found to have no value that is possible in both.
pub(crate) fn are_domains_apart(
    alloc: Global,
    path: &Delivery<'_>,
    other: &Delivery<'_>,
) -> Result<bool, NoMemory>
    requires path { AreDomainsOf path.now.condition.now path.now.domains.now }
    requires other { AreDomainsOf other.now.condition.now other.now.domains.now }
    ensures { IfOk result (TellsApart (seen_path path.now) (seen_path other.now)) }
{
    let count = path.condition.symbols().min(other.condition.symbols());
    for symbol in 0..count {
        if is_apart_at(alloc, path, other, SymId(symbol))? {
            return Ok(true);
        }
    }
    Ok(false)
}

/// Whether no value of the symbol is found in both domains.
fn is_apart_at(
    alloc: Global,
    path: &Delivery<'_>,
    other: &Delivery<'_>,
    symbol: SymId,
) -> Result<bool, NoMemory>
    requires path { AreDomainsOf path.now.condition.now path.now.domains.now }
    requires other { AreDomainsOf other.now.condition.now other.now.domains.now }
    ensures { IfOk result (λ yes. IsTrue yes → IsApartAt (seen_path path.now) (seen_path other.now) symbol) }
{
    a_condition_is_judged_by_its_trees();
    let (Some(one), Some(two)) = (path.domains.get(symbol), other.domains.get(symbol)) else {
        return Ok(false);
    };
    if one.width() != two.width() {
        return Ok(false);
    }
    let both = one.meet(alloc, two)?;
    Ok(both.is_empty())
}
