//! What is wrong in a configuration whose tokens the grammar allows, and what of it is told.

ghost use Rattle.std.specs.Prelude.{◌≡◌};
ghost use Rattle.click_model.specs.Faults.{number_of, precedes, lesser, noted, fault_at};

use crate::fault::ClickFault;

/// What is wrong with a declaration or a use.
#[derive(Clone, Copy)]
pub(crate) enum Wrong {
    Conflict { earlier: u64 },
    Limit,
    NoClass,
    BadArgument,
    PortClash,
    NoElement,
}

/// What is wrong in a line.
#[derive(Clone, Copy)]
pub(crate) struct Flaw {
    pub line: u64,
    pub wrong: Wrong,
}

fn number_of(wrong: Wrong) -> u8
    ensures { result ≡ number_of wrong }
{
    match wrong {
        Wrong::Conflict { .. } => 2,
        Wrong::Limit => 3,
        Wrong::NoClass => 4,
        Wrong::BadArgument => 5,
        Wrong::PortClash => 6,
        Wrong::NoElement => 7,
    }
}

/// By the line, and then by the number.
fn precedes(flaw: Flaw, other: Flaw) -> bool
    ensures { result ≡ precedes flaw other }
{
    flaw.line < other.line
        || (flaw.line == other.line && number_of(flaw.wrong) < number_of(other.wrong))
}

fn lesser(found: Option<Flaw>, flaw: Flaw) -> Flaw
    ensures { result ≡ lesser found flaw }
{
    let Some(found) = found else {
        return flaw;
    };
    if precedes(flaw, found) { flaw } else { found }
}

/// The flaw that is told, with what is wrong in one line more.
pub(crate) fn noted(found: Option<Flaw>, line: u64, wrong: Option<Wrong>) -> Option<Flaw>
    ensures { result ≡ noted found line wrong }
{
    let Some(wrong) = wrong else {
        return found;
    };
    Some(lesser(found, Flaw { line, wrong }))
}

pub(crate) fn fault_at(line: u64, wrong: Wrong) -> ClickFault
    ensures { result ≡ fault_at line wrong }
{
    match wrong {
        Wrong::Conflict { earlier } => ClickFault::Conflict { line, earlier },
        Wrong::Limit => ClickFault::Limit { line },
        Wrong::NoClass => ClickFault::NoClass { line },
        Wrong::BadArgument => ClickFault::BadArgument { line },
        Wrong::PortClash => ClickFault::PortClash { line },
        Wrong::NoElement => ClickFault::NoElement { line },
    }
}
