//! The command `model` of a table's file.

ghost use Rattle.std.specs.Prelude.{◌≡◌, IfOk, IfErr, string_bytes};
ghost use Rattle.sefl_syntax.specs.NetText.{node_text};
ghost use Rattle.sefl_syntax.specs.NetWords.{kind_text};
ghost use Rattle.sefl_syntax.specs.Trees.{NodeTree};
ghost use Rattle.table_files.specs.FileNodes.{IsNodeOf};
ghost use Rattle.model_command.specs.Models.{IsModelRefusal, ModelComes};

use command_edge::{Ending, OwnFault};
use command_runs::{ByteFile, OnePiece};
use sefl_syntax::{Style, TableKind, Text};
use std::alloc::Global;
use table_files::{FileFault, file_text};

/// The node, in a style, of the table of this kind whose file the source is.
#[derive(Clone, Copy)]
pub struct TableModel<'a> {
    pub source: ByteFile<'a>,
    pub kind: TableKind,
    pub style: Style,
}

/// The text of the node of a table's bytes.
fn text_of_table(
    alloc: Global,
    kind: TableKind,
    style: Style,
    name: &str,
    bytes: &[u8],
) -> Result<String, OwnFault>
    ensures text { IfOk result (λ text. (node : NodeTree) × IsNodeOf kind bytes.now style node
        × (string_bytes text ≡ node_text (kind_text kind) node)) }
    ensures refused { IfErr result (IsModelRefusal kind style name.now bytes.now) }
{
    match file_text(alloc, kind, bytes, style) {
        Ok(text) => Ok(text),
        Err(FileFault::Bad { line, kind }) => Err(OwnFault::BadTable {
            name: Text::of(alloc, name)?,
            line,
            kind,
        }),
        Err(FileFault::NoMemory) => Err(OwnFault::NoMemory),
    }
}

impl<'a> OnePiece for TableModel<'a> {
    type From = ByteFile<'a>;

    ghost source = { λ m. m.source };

    ghost comes = { λ m. ModelComes m.kind m.style m.source.name.now };

    fn source(&self) -> &ByteFile<'a> {
        &self.source
    }

    fn text(&self, alloc: Global, given: Vec<u8>) -> Result<(Ending, String), OwnFault> {
        let text = text_of_table(alloc, self.kind, self.style, self.source.name, &given)?;
        Ok((Ending::Done, text))
    }
}
