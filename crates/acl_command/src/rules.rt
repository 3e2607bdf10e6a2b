//! The command `rules`.

ghost use Rattle.std.specs.Prelude.{IfOk, string_bytes};
ghost use Rattle.acl_command.specs.Commands.{IsRulesText, RulesComes};

use crate::fates::fates_of;
use crate::list::list_of;
use crate::text::rules_text;
use acl_model::Acl;
use command_edge::{Ending, OwnFault};
use command_runs::{ByteFile, OnePiece};
use sn_width::NoMemory;
use std::alloc::Global;

/// What each rule decides of the list whose file the source is.
#[derive(Clone, Copy)]
pub struct Rules<'a> {
    pub source: ByteFile<'a>,
}

/// The text of the fates of a list's rules.
fn text_of_fates(alloc: Global, acl: &Acl) -> Result<String, NoMemory>
    ensures { IfOk result (λ text. IsRulesText acl.now (string_bytes text)) }
{
    rules_text(alloc, &fates_of(alloc, acl)?)
}

impl<'a> OnePiece for Rules<'a> {
    type From = ByteFile<'a>;

    ghost source = { λ r. r.source };

    ghost comes = { λ r. RulesComes r.source.name.now };

    fn source(&self) -> &ByteFile<'a> {
        &self.source
    }

    fn text(&self, alloc: Global, given: Vec<u8>) -> Result<(Ending, String), OwnFault> {
        let acl = list_of(alloc, self.source.name, &given)?;
        let text = text_of_fates(alloc, &acl)?;
        Ok((Ending::Done, text))
    }
}
