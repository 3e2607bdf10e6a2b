//! The refusals of jobs: of bytes that are no job's text, and of jobs that are not accepted.

ghost use Rattle.std.specs.Prelude.{◌≡◌};
ghost use Rattle.command_runs.specs.Flaws.{flaw_at, fault_of_reading, fault_of_lex, syntax};
ghost use Rattle.command_runs.specs.Refusals.{rule_number, fault_by_rule, fault_of_refusal};

use command_edge::InputFault;
use net_check::{AcceptFault, Rule};
use sefl_lex::LexFault;
use sefl_reader::{ReadFault, position};
use sn_width::Site;

/// The refusal that tells why the bytes are not the text of a job.
pub fn fault_of_reading(bytes: &[u8], fault: ReadFault) -> InputFault
    ensures { result ≡ fault_of_reading bytes.now fault }
{
    match fault {
        ReadFault::NotText { at } => syntax_at(bytes, at, 1),
        ReadFault::Lex { fault } => fault_of_lex(bytes, fault),
        ReadFault::Expected { line, column } => InputFault::Syntax {
            line,
            column,
            kind: 5,
        },
        ReadFault::TooDeep { line } => InputFault::Syntax {
            line,
            column: 1,
            kind: 6,
        },
        ReadFault::NoMemory => InputFault::NoMemory,
    }
}

/// The refusal that tells why the text has no tokens.
fn fault_of_lex(bytes: &[u8], fault: LexFault) -> InputFault
    ensures { result ≡ fault_of_lex bytes.now fault }
{
    match fault {
        LexFault::BadCharacter { at } => syntax_at(bytes, at, 2),
        LexFault::BadNumber { at } => syntax_at(bytes, at, 3),
        LexFault::OpenText { at } => syntax_at(bytes, at, 4),
        LexFault::NoMemory => InputFault::NoMemory,
    }
}

/// The refusal that tells a flaw at a byte.
fn syntax_at(bytes: &[u8], at: u64, kind: u8) -> InputFault
    ensures { result ≡ syntax (flaw_at bytes.now at kind) }
{
    let (line, column) = position(bytes, at);
    InputFault::Syntax { line, column, kind }
}

/// The refusal that tells why a job is not accepted.
pub fn fault_of_refusal(fault: AcceptFault) -> InputFault
    ensures { result ≡ fault_of_refusal fault }
{
    match fault {
        AcceptFault::Refused { site, rule } => fault_by_rule(site, rule),
        AcceptFault::NoMemory => InputFault::NoMemory,
    }
}

fn fault_by_rule(site: Site, rule: Rule) -> InputFault
    ensures { result ≡ fault_by_rule site rule }
{
    match rule_number(rule) {
        Some(kind) => InputFault::Refused { site, kind },
        None => InputFault::BadPattern { site },
    }
}

/// The number of a rule that looks at the job alone; bad patterns have a refusal of their own.
fn rule_number(rule: Rule) -> Option<u8>
    ensures { result ≡ rule_number rule }
{
    match rule {
        Rule::TwiceNode => Some(1),
        Rule::NoNode => Some(2),
        Rule::PortRange => Some(3),
        Rule::TwoLinks => Some(4),
        Rule::TwiceCode => Some(5),
        Rule::WidthMismatch => Some(6),
        Rule::TooWide => Some(7),
        Rule::Unbound => Some(8),
        Rule::OutForward => Some(9),
        Rule::EmptyFork => Some(10),
        Rule::BadRanges => Some(11),
        Rule::Overlap => Some(12),
        Rule::Limit { .. } => Some(13),
        Rule::NestedFor => Some(14),
        Rule::BadAddress => Some(15),
        Rule::BadPattern => None,
    }
}
