//! The command `rules` on two lists.

ghost use Rattle.std.specs.Prelude.{[], ◌∷◌, IfOk, string_bytes};
ghost use Rattle.command_runs.specs.Inputs.{a_file, some_bytes};
ghost use Rattle.acl_command.specs.Commands.{BothRulesCome, IsVerdictText};

use crate::list::list_of;
use crate::verdict::verdict_text;
use acl_model::Acl;
use command_edge::{Ending, InputFault, OwnFault};
use command_runs::{Both, ByteFile, OnePiece, Source};
use sn_edge::{Folder, Patterns};
use sn_width::NoMemory;
use std::alloc::Global;

/// The files of two lists.
#[derive(Clone, Copy)]
pub struct BothFiles<'a> {
    pub left: ByteFile<'a>,
    pub right: ByteFile<'a>,
}

/// The bytes of two lists.
#[derive(Drop)]
pub struct BothBytes {
    pub left: Vec<u8>,
    pub right: Vec<u8>,
}

impl Source for BothFiles<'_> {
    type Given = BothBytes;

    ghost inputs = { λ s. a_file s.left.limit s.left.name.now ∷ a_file s.right.limit s.right.name.now ∷ [] };

    ghost givens = { λ bytes. some_bytes bytes.left.items ∷ some_bytes bytes.right.items ∷ [] };

    ghost keeps = { λ _. Unit {0} };

    fn open<F: Folder, P: Patterns>(
        &self,
        alloc: Global,
        folder: &mut F,
        patterns: &mut P,
    ) -> Result<BothBytes, InputFault> {
        let both = Both {
            first: self.left,
            second: self.right,
        };
        match both.open(alloc, folder, patterns) {
            Ok(given) => Ok(BothBytes {
                left: given.first,
                right: given.second,
            }),
            Err(fault) => Err(fault),
        }
    }
}

/// Whether two lists permit the same packets.
#[derive(Clone, Copy)]
pub struct BothRules<'a> {
    pub source: BothFiles<'a>,
}

/// The text of the verdict on two lists.
fn text_of_verdict(alloc: Global, left: &Acl, right: &Acl) -> Result<String, NoMemory>
    ensures { IfOk result (λ text. IsVerdictText left.now right.now (string_bytes text)) }
{
    verdict_text(alloc, &left.compare(alloc, right)?)
}

impl<'a> OnePiece for BothRules<'a> {
    type From = BothFiles<'a>;

    ghost source = { λ r. r.source };

    ghost comes = { λ r. BothRulesCome r.source.left.name.now r.source.right.name.now };

    fn source(&self) -> &BothFiles<'a> {
        &self.source
    }

    fn text(&self, alloc: Global, given: BothBytes) -> Result<(Ending, String), OwnFault> {
        let left = list_of(alloc, self.source.left.name, &given.left)?;
        let right = list_of(alloc, self.source.right.name, &given.right)?;
        let text = text_of_verdict(alloc, &left, &right)?;
        Ok((Ending::Done, text))
    }
}
