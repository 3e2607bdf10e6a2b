//! Why a report has no text of counts.

ghost use Rattle.std.specs.Prelude.{◌≡◌};
ghost use Rattle.replay_command.specs.Replays.{TellsBadReport, TellsFault, fault_of_replay, part_kind};
ghost use Rattle.replay_command.specs.Wholes.{fault_of_whole};

use command_edge::OwnFault;
use path_replay::{Part, ReplayFault, WholeFault};
use path_report::ReportFault;
use sefl_syntax::Text;
use std::alloc::Global;

/// The number of a broken part, in the order in which they are tried.
fn part_kind(part: Part) -> u8
    ensures { result ≡ part_kind part }
{
    match part {
        Part::NotTaken => 1,
        Part::NotRefuted => 2,
        Part::OtherEnd => 3,
        Part::NotUndecided => 4,
    }
}

/// The refusal of a report at this place.
fn bad_report(alloc: Global, kind: u8, pointer: &str) -> OwnFault
    ensures { TellsBadReport kind pointer.now result }
{
    match Text::of(alloc, pointer) {
        Ok(pointer) => OwnFault::BadReport { kind, pointer },
        Err(_) => OwnFault::NoMemory,
    }
}

/// The refusal of bytes that show no report.
pub(crate) fn fault_of_report(alloc: Global, fault: ReportFault) -> OwnFault
    ensures { TellsFault fault result }
{
    match fault {
        ReportFault::NotJson => bad_report(alloc, 1, ""),
        ReportFault::NotReport { pointer } => bad_report(alloc, 2, pointer.as_str()),
        ReportFault::NoMemory => OwnFault::NoMemory,
    }
}

/// The refusal of records that are not confirmed.
pub(crate) fn fault_of_replay(fault: ReplayFault) -> OwnFault
    ensures { result ≡ fault_of_replay fault }
{
    match fault {
        ReplayFault::NotConfirmed { number, part } => OwnFault::NotConfirmed {
            number,
            kind: part_kind(part),
        },
        ReplayFault::NoMemory => OwnFault::NoMemory,
    }
}

/// The refusal of records that are not confirmed as a whole: 5 is the kind of one before which another is missing.
pub(crate) fn fault_of_whole(fault: WholeFault) -> OwnFault
    ensures { result ≡ fault_of_whole fault }
{
    match fault {
        WholeFault::NotConfirmed { number, part } => OwnFault::NotConfirmed {
            number,
            kind: part_kind(part),
        },
        WholeFault::NotWhole { number } => OwnFault::NotConfirmed { number, kind: 5 },
        WholeFault::NoMemory => OwnFault::NoMemory,
    }
}
