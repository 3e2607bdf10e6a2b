//! Places by their texts.

ghost use Rattle.std.specs.Prelude.{◌≡◌, IfOk, option_map};
ghost use Rattle.net_check.specs.Network.{network, node_number};
ghost use Rattle.report_names.specs.Names.{halves, side_named, port_of, placed, placed_by, place_named};

use crate::names::node_named;
use net_check::Net;
use sefl_meaning::Place;
use sefl_syntax::Side;
use sn_width::{NoMemory, NodeId};
use std::alloc::Global;

fn at_blank(text: &str) -> Option<(&str, &str)>
    ensures { option_map (λ p. (p.0.now, p.1.now)) result ≡ halves 32 text.now }
{
    text.split_once(' ')
}

fn at_point(text: &str) -> Option<(&str, &str)>
    ensures { option_map (λ p. (p.0.now, p.1.now)) result ≡ halves 46 text.now }
{
    text.split_once('.')
}

fn side_named(text: &str) -> Option<Side>
    ensures { result ≡ side_named text.now }
{
    if text == "in" {
        Some(Side::Inward)
    } else if text == "out" {
        Some(Side::Outward)
    } else {
        None
    }
}

/// The number of 32 bits that the text is the decimal digits of, with no leading zero.
fn port_of(alloc: Global, text: &str) -> Result<Option<u32>, NoMemory>
    ensures { IfOk result (λ port. port ≡ port_of text.now) }
{
    let Ok(port) = text.parse::<u32>() else {
        return Ok(None);
    };
    let digits = port.to_string(alloc)?;
    if digits.as_str() == text {
        Ok(Some(port))
    } else {
        Ok(None)
    }
}

fn placed(side: Option<Side>, node: Option<NodeId>, port: Option<u32>) -> Option<Place>
    ensures { result ≡ placed side (option_map node_number node) port }
{
    let Some(side) = side else {
        return None;
    };
    let Some(node) = node else {
        return None;
    };
    match port {
        Some(port) => Some(Place { node, side, port }),
        None => None,
    }
}

fn placed_by(
    alloc: Global,
    net: &Net,
    side: &str,
    port: Option<(&str, &str)>,
) -> Result<Option<Place>, NoMemory>
    ensures { IfOk result (λ place. place ≡ placed_by (network net.now) side.now
        (option_map (λ p. (p.0.now, p.1.now)) port.entry)) }
{
    let Some((name, digits)) = port else {
        return Ok(None);
    };
    let node = node_named(alloc, net, name)?;
    let port = port_of(alloc, digits)?;
    Ok(placed(side_named(side), node, port))
}

/// The place of a text `in NODE.PORT` or `out NODE.PORT`; None where it is none of the net's.
#[tactic(auto, unfolding(crate::specs::Names::place_named))]
pub(crate) fn place_named(alloc: Global, net: &Net, text: &str) -> Result<Option<Place>, NoMemory>
    ensures { IfOk result (λ place. place ≡ place_named (network net.now) text.now) }
{
    match at_blank(text) {
        Some((side, port)) => placed_by(alloc, net, side, at_point(port)),
        None => Ok(None),
    }
}
