//! Cuts a text into its tokens.

ghost use Rattle.std.specs.Prelude.{◌≡◌, ◌≢◌, Ok, Err, List, Result, All, IfOk, IfErr};
ghost use Rattle.sefl_lex.specs.declared.fault.LexFault.{LexFault};
ghost use Rattle.sefl_lex.specs.declared.token.Token.{Token};
ghost use Rattle.sefl_lex.specs.Reads.{IsReadAs, IsTokenOf};

use crate::fault::LexFault;
use crate::front::{Front, MOST_BYTES, front_of};
use crate::token::Token;
use std::alloc::Global;

/// All tokens of a text, in order, or its first fault.
pub fn tokens(alloc: Global, text: &str) -> Result<Vec<Token>, LexFault>
    ensures tokens { IfOk result (λ found. IsReadAs text.now (Ok found.items)) }
    ensures fault { IfErr result (λ fault. fault ≢ LexFault.NoMemory → IsReadAs text.now (Err fault)) }
    ensures only_tokens { IfOk result (λ found. (answer : Result (List Token) LexFault) →
        IsReadAs text.now answer → answer ≡ Ok found.items) }
    ensures only_fault { IfErr result (λ fault. fault ≢ LexFault.NoMemory →
        (answer : Result (List Token) LexFault) → IsReadAs text.now answer → answer ≡ Err fault) }
    ensures spans { IfOk result (λ found. All (IsTokenOf text.now) found.items) }
{
    let bytes = text.as_bytes();
    let mut found = Vec::new(alloc);
    let mut at = 0;
    while at < bytes.len() {
        let (_, rest) = bytes.split_at(at);
        match front_of(rest) {
            Front::Gap(count) => at += count,
            Front::Word(kind, count) => {
                let start = at as u64;
                at += count;
                found.push(Token {
                    kind,
                    start,
                    end: at as u64,
                })?;
            }
            Front::Stray => return Err(LexFault::BadCharacter { at: at as u64 }),
            Front::LongName => {
                return Err(LexFault::BadCharacter {
                    at: (at + MOST_BYTES) as u64,
                });
            }
            Front::NoNumber => return Err(LexFault::BadNumber { at: at as u64 }),
            Front::NoText => return Err(LexFault::OpenText { at: at as u64 }),
        }
    }
    Ok(found)
}
