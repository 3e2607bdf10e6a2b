//! Configurations, and the texts that they have.

ghost use Rattle.std.specs.Prelude.{◌≡◌, map};
ghost use Rattle.click_model.specs.Configs.{Answers, click_of, finished};
ghost use Rattle.click_model.specs.Declarations.{seen_element};

use crate::connect::connect_all;
use crate::declare::declare_all;
use crate::element::Element;
use crate::fault::ClickFault;
use crate::flaw::{Flaw, fault_at};
use click_text::read_items;
use sefl_syntax::Link;
use std::alloc::Global;
use std::marker::Model;

/// A configuration. Contracts see its elements in the order of declaration, each with its name and its
/// class with the arguments, and its connections in the order of the text.
#[derive(Drop)]
pub struct ClickConfig {
    pub(crate) elements: Vec<Element>,
    pub(crate) connections: Vec<Link>,
}

impl Model for ClickConfig {
    ghost use Rattle.std.specs.Prelude.{map};
    ghost use Rattle.click_model.specs.Configs.{ConfigSeen};
    ghost use Rattle.click_model.specs.Declarations.{seen_element};

    ghost Value = { ConfigSeen };

    ghost view = { λ c. record { elements = map seen_element c.elements.items; connections = c.connections.items } };
}

/// The configuration, unless there is a flaw.
fn finished(
    elements: Vec<Element>,
    connections: Vec<Link>,
    flaw: Option<Flaw>,
) -> Result<ClickConfig, ClickFault>
    ensures { finished (map seen_element elements.items) connections.items flaw ≡ result }
{
    match flaw {
        None => Ok(ClickConfig {
            elements,
            connections,
        }),
        Some(flaw) => Err(fault_at(flaw.line, flaw.wrong)),
    }
}

/// The configuration that a text has, or its first fault: the line of the first token that the grammar
/// does not allow, or else the least line that breaks a rule, with the lowest number.
pub fn read_click(alloc: Global, bytes: &[u8]) -> Result<ClickConfig, ClickFault>
    ensures { Answers (click_of bytes.now) result }
{
    let items = read_items(alloc, bytes)?;
    let declared = declare_all(alloc, &items)?;
    let connected = connect_all(alloc, &declared.names, &items, declared.flaw)?;
    finished(declared.elements, connected.links, connected.flaw)
}
