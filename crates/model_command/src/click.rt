//! The command `model click`.

ghost use Rattle.std.specs.Prelude.{◌≡◌, IfOk, IfErr, string_bytes};
ghost use Rattle.sefl_syntax.specs.NetText.{net_text};
ghost use Rattle.click_model.specs.Configs.{click_of};
ghost use Rattle.click_model.specs.Nets.{click_net};
ghost use Rattle.model_command.specs.ClickModels.{IsClickRefusal, ClickComes, model_of, own_fault, place_of};
ghost use Rattle.command_edge.specs.Puts.{text};
ghost use Rattle.command_edge.specs.declared.ending.Ending.TheVariants.{Done};

use click_model::{ClickConfig, ClickFault, click_net, read_click};
use command_edge::{Ending, OwnFault};
use command_runs::{ByteFile, OnePiece};
use sefl_syntax::{Text, print_net};
use sn_width::NoMemory;
use std::alloc::Global;

/// The nodes and links of the configuration whose file the source is.
#[derive(Clone, Copy)]
pub struct ClickModel<'a> {
    pub source: ByteFile<'a>,
}

/// The line of a fault, and the number of the rule that is broken.
fn place_of(fault: ClickFault) -> Option<(u64, u8)>
    ensures { result ≡ place_of fault }
{
    match fault {
        ClickFault::BadLine { line } => Some((line, 1)),
        ClickFault::Conflict { line, .. } => Some((line, 2)),
        ClickFault::Limit { line } => Some((line, 3)),
        ClickFault::NoClass { line } => Some((line, 4)),
        ClickFault::BadArgument { line } => Some((line, 5)),
        ClickFault::PortClash { line } => Some((line, 6)),
        ClickFault::NoElement { line } => Some((line, 7)),
        ClickFault::NoMemory => None,
    }
}

/// The refusal that tells a fault of the file with this name.
fn own_fault(name: Text, fault: ClickFault) -> OwnFault
    ensures { result ≡ own_fault name fault }
{
    match place_of(fault) {
        Some((line, kind)) => OwnFault::BadTable { name, line, kind },
        None => OwnFault::NoMemory,
    }
}

/// The text of the net of a configuration.
fn net_text(alloc: Global, config: &ClickConfig) -> Result<String, NoMemory>
    ensures { IfOk result (λ text. string_bytes text ≡ net_text (click_net config.now)) }
{
    print_net(alloc, &click_net(alloc, config)?)
}

/// The text of the net of a configuration's bytes.
#[tactic(auto, using(crate::proofs::ClickRefusals::refused))]
fn file_text(alloc: Global, name: &str, bytes: &[u8]) -> Result<String, OwnFault>
    ensures text { IfOk result (λ whole. text Done (string_bytes whole) ≡ model_of name.now (click_of bytes.now)) }
    ensures refused { IfErr result (IsClickRefusal name.now bytes.now) }
{
    let own = Text::of(alloc, name)?;
    match read_click(alloc, bytes) {
        Ok(config) => Ok(net_text(alloc, &config)?),
        Err(fault) => Err(own_fault(own, fault)),
    }
}

impl<'a> OnePiece for ClickModel<'a> {
    type From = ByteFile<'a>;

    ghost source = { λ m. m.source };

    ghost comes = { λ m. ClickComes m.source.name.now };

    fn source(&self) -> &ByteFile<'a> {
        &self.source
    }

    fn text(&self, alloc: Global, given: Vec<u8>) -> Result<(Ending, String), OwnFault> {
        let text = file_text(alloc, self.source.name, &given)?;
        Ok((Ending::Done, text))
    }
}
