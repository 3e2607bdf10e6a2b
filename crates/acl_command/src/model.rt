//! The command `model acl`.

ghost use Rattle.std.specs.Prelude.{◌≡◌, true, codes, IfOk, string_bytes};
ghost use Rattle.sefl_syntax.specs.NetText.{node_text};
ghost use Rattle.acl_model.specs.Nodes.{acl_node};
ghost use Rattle.acl_command.specs.Commands.{AclComes, node_style};

use crate::list::list_of;
use acl_model::{Acl, acl_node};
use command_edge::{Ending, OwnFault};
use command_runs::{ByteFile, OnePiece};
use sefl_syntax::{Style, print_node};
use sn_width::NoMemory;
use std::alloc::Global;
use table_nodes::named;

/// How the code of a list's node tests packets: one test for each rule, or one for each longest run of rules with one action.
#[derive(Clone, Copy)]
pub enum ListStyle {
    Chain,
    Grouped,
}

/// The node, in a style, of the list whose file the source is.
#[derive(Clone, Copy)]
pub struct AclModel<'a> {
    pub source: ByteFile<'a>,
    pub style: ListStyle,
}

fn node_style(style: ListStyle) -> Style
    ensures { result ≡ node_style style }
{
    match style {
        ListStyle::Chain => Style::Chain,
        ListStyle::Grouped => Style::Grouped,
    }
}

/// The text of the node of a list, which is named `acl`.
fn text_of_node(alloc: Global, acl: &Acl, style: ListStyle) -> Result<String, NoMemory>
    ensures { IfOk result (λ text. string_bytes text ≡ node_text (codes "acl") (acl_node (node_style style) acl.now)) }
{
    print_node(
        alloc,
        &named(alloc, "acl")?,
        &acl_node(alloc, acl, node_style(style))?,
    )
}

impl<'a> OnePiece for AclModel<'a> {
    type From = ByteFile<'a>;

    ghost source = { λ m. m.source };

    ghost comes = { λ m. AclComes m.style m.source.name.now };

    fn source(&self) -> &ByteFile<'a> {
        &self.source
    }

    fn text(&self, alloc: Global, given: Vec<u8>) -> Result<(Ending, String), OwnFault> {
        let acl = list_of(alloc, self.source.name, &given)?;
        let text = text_of_node(alloc, &acl, self.style)?;
        Ok((Ending::Done, text))
    }
}
