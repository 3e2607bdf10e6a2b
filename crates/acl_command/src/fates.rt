//! What each rule of a list decides.

ghost use Rattle.std.specs.Prelude.{map, IfOk};
ghost use Rattle.acl_rules.specs.Covers.{fate_seen};
ghost use Rattle.acl_command.specs.Commands.{AreFates};

use acl_model::{Acl, Fate};
use sn_width::NoMemory;
use std::alloc::Global;

/// The fate of each rule of a list, in order.
pub(crate) fn fates_of(alloc: Global, acl: &Acl) -> Result<Vec<Fate>, NoMemory>
    ensures { IfOk result (λ fates. AreFates acl.now (map fate_seen fates.items)) }
{
    let mut fates = Vec::new(alloc);
    for rule in 0..acl.rules().len() as u32 {
        fates.push(acl.fate(alloc, rule)?)?;
    }
    Ok(fates)
}
