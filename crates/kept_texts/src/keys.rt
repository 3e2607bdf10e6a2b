//! The keys of stacks of cells.

ghost use Rattle.std.specs.Prelude.{◌≡◌, string_bytes, List, IfOk, IsTrue};
ghost use Rattle.net_check.specs.Network.{Network, network};
ghost use Rattle.serde_json.specs.Data.{Data};
ghost use Rattle.serde_json.specs.Written.{compact_text};
ghost use Rattle.lin_term.specs.Terms.{LinearTerm};
ghost use Rattle.cell_stacks.specs.declared.cell.Cell.{Cell as CellOf};
ghost use Rattle.run_text.specs.Tokens.{Gains};
ghost use Rattle.kept_texts.specs.Kept.{head_shown, meta_shown};

use cell_stacks::Cell;
use lin_term::Term;
use net_check::Net;
use run_text::{JsonText, write_head, write_meta};
use sn_width::{NameId, NoMemory, NodeId};
use std::alloc::Global;

/// The room that the text of a stack has at the start, in bytes.
const ROOM: usize = 64;

/// Where a stack of cells stands.
pub(crate) trait Key: Copy {
    ghost shown: { Network → Self → List (CellOf LinearTerm) → Data };

    /// Writes it with the cells there.
    fn write(
        self,
        alloc: Global,
        net: &Net,
        cells: &[Cell<Term>],
        out: &mut JsonText,
    ) -> Result<(), NoMemory>
        ensures { Gains (shown (network net.now) self cells.now) result out.old out.new };

    /// Whether it is the other one.
    fn is(self, other: Self) -> bool
        ensures { IsTrue result → self ≡ other };
}

/// The address of header cells.
impl Key for i32 {
    ghost shown = { head_shown };

    fn write(
        self,
        alloc: Global,
        _net: &Net,
        cells: &[Cell<Term>],
        out: &mut JsonText,
    ) -> Result<(), NoMemory> {
        write_head(alloc, out, self, cells)
    }

    fn is(self, other: i32) -> bool {
        self == other
    }
}

/// The owner of metadata, `None` for a global, and its name.
impl Key for (Option<NodeId>, NameId) {
    ghost shown = { meta_shown };

    fn write(
        self,
        alloc: Global,
        net: &Net,
        cells: &[Cell<Term>],
        out: &mut JsonText,
    ) -> Result<(), NoMemory> {
        write_meta(alloc, out, net, self.0, self.1, cells)
    }

    fn is(self, other: (Option<NodeId>, NameId)) -> bool {
        self == other
    }
}

/// The text of the cells at a key.
pub(crate) fn stack_text<K: Key>(
    alloc: Global,
    net: &Net,
    key: K,
    cells: &[Cell<Term>],
) -> Result<String, NoMemory>
    ensures { IfOk result (λ text. string_bytes text ≡ compact_text (K.shown (network net.now) key cells.now)) }
{
    let mut out = JsonText::with_capacity(alloc, ROOM)?;
    key.write(alloc, net, cells, &mut out)?;
    Ok(out.into_text())
}
