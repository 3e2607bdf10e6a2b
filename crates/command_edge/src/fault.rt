//! Why a command gives no text.

use sefl_syntax::Text;
use sn_width::{NoMemory, Site};

/// Why an input of a command is refused; `name` is the file's. Lines and columns count from 1, columns in bytes.
#[derive(Drop)]
pub enum InputFault {
    NoFile { name: Text },
    ReadFault { name: Text },
    /// The file has more bytes than its limit.
    TooBig { name: Text },
    /// The file is the text of no job. The kind is 1 for bytes that are no text, 2 to 4 for a bad character, a bad
    /// number and an open text, 5 for what no job has there, and 6, with column 1, for too many constructs open at once.
    Syntax { line: u64, column: u64, kind: u8 },
    /// The line of the file of one of the job's tables is the first that breaks a rule. The kind is 1 for a line that is no
    /// row, 2 for a row that an earlier one contradicts, and 3 for the first row past the limit.
    BadTable { name: Text, line: u64, kind: u8 },
    /// The pattern of the For at the site is refused, and no rule is broken.
    BadPattern { site: Site },
    /// The item at the site is the first in the text that breaks a rule, and the kind is the number of the first rule
    /// that it breaks, 1 to 15.
    Refused { site: Site, kind: u8 },
    NoMemory,
}

/// Why the own work of a command gives no text, though all inputs are good.
#[derive(Drop)]
pub enum OwnFault {
    /// The line of the file is the first that breaks a rule. Of a table the kind is 1 to 3, as of a job's table. Of a Click
    /// configuration it is 1 for a token that the grammar does not allow, 2 for a name that is declared again, 3 for the first
    /// declaration past the limit, 4 for a class that there is not, 5 for its arguments, 6 for a port that is not free, and 7 for a
    /// name that is declared nowhere.
    BadTable { name: Text, line: u64, kind: u8 },
    /// The packet does not start: the kind is 1 for too few numbers, 2 for one that is too wide, and 3 for a test of
    /// the injection that is not true; 4 where the packet's file is no list of numbers.
    BadPacket { kind: u8 },
    /// The packet has more walks than the limit, which is one less than the count.
    TooMany { count: u64 },
    /// The file is no report: 1 for bytes that are no JSON, 2 for the place, as a JSON pointer, that has not its shape.
    BadReport { kind: u8, pointer: Text },
    /// The record of this number is the first that has not the meaning that it states: the kind is 1 where it is not taken, 2 where
    /// it is not refuted, 3 where its end, places or fields differ, and 4 where its cause is not lawful.
    NotConfirmed { number: u64, kind: u8 },
    /// The question of this number is the first that names no place of the net, or an input port where packets are to be delivered, 1;
    /// or no injected field, 2.
    BadAsk { number: u64, kind: u8 },
    /// The two jobs cannot be compared, for what these numbers name.
    BadCompare { kind: u8, one: u64, other: u64 },
    NoMemory,
}

impl From<NoMemory> for InputFault {
    ghost use Rattle.std.specs.Prelude.{◌≡◌};
    ghost use Rattle.command_edge.specs.declared.fault.InputFault.TheVariants.{NoMemory as OutOfMemory};

    ghost from_gives = { λ _ fault. fault ≡ OutOfMemory };

    fn from(_error: NoMemory) -> InputFault {
        InputFault::NoMemory
    }
}

impl From<NoMemory> for OwnFault {
    ghost use Rattle.std.specs.Prelude.{◌≡◌};
    ghost use Rattle.command_edge.specs.declared.fault.OwnFault.TheVariants.{NoMemory as OutOfMemory};

    ghost from_gives = { λ _ fault. fault ≡ OutOfMemory };

    fn from(_error: NoMemory) -> OwnFault {
        OwnFault::NoMemory
    }
}
