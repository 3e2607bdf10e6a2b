//! Reads the text of a job.

ghost use Rattle.std.specs.Prelude.{◌≡◌};
ghost use Rattle.std.specs.Str.{IsUtf8};
ghost use Rattle.sefl_syntax.specs.JobText.{job_text};
ghost use Rattle.sefl_syntax.specs.Trees.{JobTree};
ghost use Rattle.sefl_reader.specs.Outcome.{IsAnswer, IsOf, IsOutcome, IsSpellable, Lexes, Outcome, a_job};

use crate::fault::ReadFault;
use crate::place::{column_at, line_at, start_of};
use sefl_builder::build;
use sefl_builder::laws::one_job;
use sefl_grammar::laws::{canonical_text_is_read, one_nesting};
use sefl_grammar::{Finding, examine};
use sefl_lex::{LexFault, Token, tokens};
use sefl_syntax::Job;
use std::alloc::Global;

/// Reads the job that the bytes are the text of. The canonical text of a job that can be spelled
/// with at most 64 constructs open at once is read as that job.
pub fn read_job(alloc: Global, bytes: &[u8]) -> Result<Job, ReadFault>
    ensures answer { IsAnswer bytes.now result }
    ensures only { (outcome : Outcome) → IsOutcome bytes.now outcome → IsOf outcome result }
    ensures read_back { (j : JobTree) → IsSpellable j → IsUtf8 bytes.now → bytes.now ≡ job_text j
        → IsOf (a_job j) result }
{
    canonical_text_is_read();
    read_bytes(alloc, bytes)
}

/// Reads the job that the bytes are the text of.
fn read_bytes(alloc: Global, bytes: &[u8]) -> Result<Job, ReadFault>
    ensures answer { IsAnswer bytes.now result }
    ensures only { (outcome : Outcome) → IsOutcome bytes.now outcome → IsOf outcome result }
{
    match str::from_utf8(bytes) {
        Ok(text) => read_text(alloc, text),
        Err(fault) => Err(ReadFault::NotText {
            at: fault.valid_up_to() as u64,
        }),
    }
}

/// Reads the job that the text is of.
fn read_text(alloc: Global, text: &str) -> Result<Job, ReadFault>
    requires { IsUtf8 text.now }
    ensures answer { IsAnswer text.now result }
    ensures only { (outcome : Outcome) → IsOutcome text.now outcome → IsOf outcome result }
{
    match tokens(alloc, text) {
        Ok(tokens) => read_tokens(alloc, text, tokens),
        Err(LexFault::NoMemory) => Err(ReadFault::NoMemory),
        Err(fault) => Err(ReadFault::Lex { fault }),
    }
}

/// Reads the job that the tokens of the text are of.
fn read_tokens(alloc: Global, text: &str, tokens: Vec<Token>) -> Result<Job, ReadFault>
    requires { Lexes text.now tokens.items }
    ensures answer { IsAnswer text.now result }
    ensures only { (outcome : Outcome) → IsOutcome text.now outcome → IsOf outcome result }
{
    one_nesting();
    one_job();
    let Ok(finding) = examine(alloc, text, &tokens) else {
        return Err(ReadFault::NoMemory);
    };
    match finding {
        Finding::Job => {
            let Ok(Some(job)) = build(alloc, text, tokens) else {
                return Err(ReadFault::NoMemory);
            };
            Ok(job)
        }
        Finding::TooDeep { place } => {
            let at = start_of(text, &tokens, place);
            Err(ReadFault::TooDeep {
                line: line_at(text.as_bytes(), at),
            })
        }
        Finding::Unexpected { place } => {
            let at = start_of(text, &tokens, place);
            let bytes = text.as_bytes();
            Err(ReadFault::Expected {
                line: line_at(bytes, at),
                column: column_at(bytes, at),
            })
        }
    }
}
