//! The statuses with which the program ends.

ghost use Rattle.std.specs.Fmt.{WritesOnOk};
ghost use Rattle.std.specs.Prelude.{◌≡◌, ◌++◌, codes, decimal};
ghost use Rattle.command_runs.specs.Status.{input_status, own_status, status_of};

use command_edge::{Ending, InputFault, OwnFault, Stop};
use sefl_syntax::Text;
use sn_width::Site;
use std::fmt;

/// The status of a run of the program; `name` is the file's. Lines and columns count from 1, columns in bytes.
#[derive(Drop)]
pub enum Status {
    /// The input was read to its end, and the text was written whole.
    Done,
    NoMemory,
    /// The words have no reading.
    Usage,
    NoFile { name: Text },
    ReadFault { name: Text },
    WriteFault,
    TooBig { name: Text },
    /// The file is the text of no job; the kind is 1 to 6, as in `InputFault`.
    Syntax { line: u64, column: u64, kind: u8 },
    /// The pattern of the For at the site is refused, and no rule is broken.
    BadPattern { site: Site },
    /// The item at the site is the first in the text that breaks a rule, and the kind is the number of the
    /// first rule that it breaks, 1 to 15.
    Refused { site: Site, kind: u8 },
    /// The line of the file of a table, or of a Click configuration, is the first that breaks a rule; the kind is 1 to 3, or 1 to 7, as in
    /// `OwnFault`.
    BadTable { name: Text, line: u64, kind: u8 },
    /// The packet does not start, or its file has no packet; the kind is 1 to 4, as in `OwnFault`.
    BadPacket { kind: u8 },
    /// The text was written whole, and says that some was left out.
    Partial,
    /// The packet has more walks than the limit, which is one less than the count.
    TooMany { count: u64 },
    /// The file is no report; the kind is 1 or 2, as in `OwnFault`, and the pointer is empty for 1.
    BadReport { kind: u8, pointer: Text },
    /// The record of this number, counted from 0, is the first that has not the meaning that it states; the kind is 1 to 4, as in `OwnFault`.
    NotConfirmed { number: u64, kind: u8 },
    /// The question of this number, counted from 0, is the first that cannot be asked; the kind is 1 or 2, as in `OwnFault`.
    BadAsk { number: u64, kind: u8 },
    /// The two jobs cannot be compared.
    BadCompare { kind: u8, one: u64, other: u64 },
}

impl Status {
    ghost use Rattle.command_runs.specs.Status.{number_of};

    /// The number with which the process ends.
    pub fn number(&self) -> u8
        ensures { result ≡ number_of self.now }
    {
        match self {
            Status::Done => 0,
            Status::NoMemory => 1,
            Status::Usage => 2,
            Status::NoFile { .. } => 3,
            Status::ReadFault { .. } => 4,
            Status::WriteFault => 5,
            Status::TooBig { .. } => 6,
            Status::Syntax { .. } => 7,
            Status::BadPattern { .. } => 8,
            Status::Refused { .. } => 9,
            Status::BadTable { .. } => 10,
            Status::BadPacket { .. } => 11,
            Status::Partial => 12,
            Status::TooMany { .. } => 13,
            Status::BadReport { .. } => 14,
            Status::NotConfirmed { .. } => 15,
            Status::BadAsk { .. } => 16,
            Status::BadCompare { .. } => 18,
        }
    }
}

/// The status that tells why an input is refused.
fn input_status(fault: InputFault) -> Status
    ensures { result ≡ input_status fault }
{
    match fault {
        InputFault::NoFile { name } => Status::NoFile { name },
        InputFault::ReadFault { name } => Status::ReadFault { name },
        InputFault::TooBig { name } => Status::TooBig { name },
        InputFault::Syntax { line, column, kind } => Status::Syntax { line, column, kind },
        InputFault::BadTable { name, line, kind } => Status::BadTable { name, line, kind },
        InputFault::BadPattern { site } => Status::BadPattern { site },
        InputFault::Refused { site, kind } => Status::Refused { site, kind },
        InputFault::NoMemory => Status::NoMemory,
    }
}

/// The status that tells why the own work of a command gives no text.
fn own_status(fault: OwnFault) -> Status
    ensures { result ≡ own_status fault }
{
    match fault {
        OwnFault::BadTable { name, line, kind } => Status::BadTable { name, line, kind },
        OwnFault::BadPacket { kind } => Status::BadPacket { kind },
        OwnFault::TooMany { count } => Status::TooMany { count },
        OwnFault::BadReport { kind, pointer } => Status::BadReport { kind, pointer },
        OwnFault::NotConfirmed { number, kind } => Status::NotConfirmed { number, kind },
        OwnFault::BadAsk { number, kind } => Status::BadAsk { number, kind },
        OwnFault::BadCompare { kind, one, other } => Status::BadCompare { kind, one, other },
        OwnFault::NoMemory => Status::NoMemory,
    }
}

/// The status that tells how a command ended.
pub fn status_of(answer: Result<Ending, Stop>) -> Status
    ensures { result ≡ status_of answer }
{
    match answer {
        Ok(Ending::Done) => Status::Done,
        Ok(Ending::Partial) => Status::Partial,
        Err(Stop::Input(fault)) => input_status(fault),
        Err(Stop::Own(fault)) => own_status(fault),
        Err(Stop::Write) => Status::WriteFault,
        Err(Stop::NoMemory) => Status::NoMemory,
    }
}

/// Writes words with a name behind them.
fn write_name<W: fmt::Write>(f: &mut fmt::Formatter<W>, words: &str, name: &Text) -> fmt::Result
    ensures { WritesOnOk W.write_str_gives f.old result (words.now ++ name.now) f.new }
{
    write!(f, "{words}{name}")
}

/// Writes words with a number behind them.
fn write_number<W: fmt::Write>(f: &mut fmt::Formatter<W>, words: &str, number: u64) -> fmt::Result
    ensures { WritesOnOk W.write_str_gives f.old result (words.now ++ decimal number) f.new }
{
    write!(f, "{words}{number}")
}

/// Writes words with a number behind them, and a kind behind that.
fn write_numbers<W: fmt::Write>(
    f: &mut fmt::Formatter<W>,
    words: &str,
    number: u64,
    kind: u8,
) -> fmt::Result
    ensures { WritesOnOk W.write_str_gives f.old result (words.now ++ (decimal number ++ (codes " " ++ decimal kind)))
        f.new }
{
    write!(f, "{words}{number} {kind}")
}

/// What standard error shows of it: nothing of Done, else a line without its end.
impl fmt::Display for Status {
    ghost use Rattle.std.specs.Prelude.{Some};
    ghost use Rattle.command_runs.specs.Status.{text_of};

    ghost output = { λ status. Some (text_of status) };

    fn fmt<W: fmt::Write>(&self, f: &mut fmt::Formatter<W>) -> fmt::Result {
        match self {
            Status::Done => Ok(()),
            Status::NoMemory => f.write_str("symnet: out of memory"),
            Status::Usage => f.write_str("symnet: usage"),
            Status::NoFile { name } => write_name(f, "symnet: no file ", name),
            Status::ReadFault { name } => write_name(f, "symnet: cannot read ", name),
            Status::WriteFault => f.write_str("symnet: cannot write"),
            Status::TooBig { name } => write_name(f, "symnet: too big ", name),
            Status::Syntax { line, column, kind } => write!(
                f,
                "symnet: syntax {line}:{column} {kind}"
            ),
            Status::BadPattern { site } => write_number(
                f,
                "symnet: bad pattern at ",
                u64::from(site.0),
            ),
            Status::Refused { site, kind } => write_numbers(
                f,
                "symnet: refused at ",
                u64::from(site.0),
                *kind,
            ),
            Status::BadTable { name, line, kind } => write!(
                f,
                "symnet: bad table {name}:{line} {kind}"
            ),
            Status::BadPacket { kind } => write_number(f, "symnet: bad packet ", u64::from(*kind)),
            Status::Partial => f.write_str("symnet: partial"),
            Status::TooMany { count } => write_number(f, "symnet: too many walks ", *count),
            Status::BadReport { kind, pointer } => write!(f, "symnet: bad report {kind} {pointer}"),
            Status::NotConfirmed { number, kind } => write_numbers(
                f,
                "symnet: not confirmed ",
                *number,
                *kind,
            ),
            Status::BadAsk { number, kind } => write_numbers(f, "symnet: bad ask ", *number, *kind),
            Status::BadCompare { kind, .. } => write_number(
                f,
                "symnet: bad compare ",
                u64::from(*kind),
            ),
        }
    }
}
