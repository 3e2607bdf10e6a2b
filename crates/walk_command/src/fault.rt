//! Why a packet has no text of walks.

ghost use Rattle.std.specs.Prelude.{◌≡◌};
ghost use Rattle.walk_command.specs.Walks.{fault_of_start, fault_of_walk};

use command_edge::OwnFault;
use concrete_run::{StartFault, WalkFault};

/// The refusal of a packet that does not start.
fn fault_of_start(fault: StartFault) -> OwnFault
    ensures { result ≡ fault_of_start fault }
{
    match fault {
        StartFault::Short { .. } => OwnFault::BadPacket { kind: 1 },
        StartFault::ValueTooWide { .. } => OwnFault::BadPacket { kind: 2 },
        StartFault::WhereFalse { .. } => OwnFault::BadPacket { kind: 3 },
        StartFault::NoMemory => OwnFault::NoMemory,
    }
}

/// The refusal of a packet without an answer of walks.
pub fn fault_of_walk(fault: WalkFault) -> OwnFault
    ensures { result ≡ fault_of_walk fault }
{
    match fault {
        WalkFault::Start { fault } => fault_of_start(fault),
        WalkFault::TooMany { count } => OwnFault::TooMany { count },
        WalkFault::NoMemory => OwnFault::NoMemory,
    }
}
