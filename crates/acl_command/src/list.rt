//! The filter list of a file, or why it has none.

ghost use Rattle.std.specs.Prelude.{◌≡◌, Ok, IfOk, IfErr};
ghost use Rattle.acl_model.specs.Rules.{rules_of};
ghost use Rattle.acl_command.specs.Lists.{IsBadFile, fault_at, place_of};

use acl_model::{Acl, AclFault, read_acl};
use command_edge::OwnFault;
use sefl_syntax::Text;
use std::alloc::Global;

/// The line of a fault, and the number of the rule that is broken.
fn place_of(fault: AclFault) -> Option<(u64, u8)>
    ensures { result ≡ place_of fault }
{
    match fault {
        AclFault::BadLine { line } => Some((line, 1)),
        AclFault::Limit { line } => Some((line, 3)),
        AclFault::NoMemory => None,
    }
}

/// The list of the file with this name, which has these bytes.
#[tactic(auto, using(crate::proofs::Refusals::bad_file))]
pub(crate) fn list_of(alloc: Global, name: &str, bytes: &[u8]) -> Result<Acl, OwnFault>
    ensures list { IfOk result (λ acl. rules_of bytes.now ≡ Ok acl) }
    ensures refused { IfErr result (IsBadFile name.now bytes.now) }
{
    let own = Text::of(alloc, name)?;
    match read_acl(alloc, bytes) {
        Ok(acl) => Ok(acl),
        Err(fault) => Err(own_fault(own, fault)),
    }
}

/// The refusal that tells a fault of the file with this name.
fn own_fault(name: Text, fault: AclFault) -> OwnFault
    ensures { result ≡ fault_at name (place_of fault) }
{
    match place_of(fault) {
        Some((line, kind)) => OwnFault::BadTable { name, line, kind },
        None => OwnFault::NoMemory,
    }
}
