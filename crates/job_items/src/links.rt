//! Links, and the port of an injection.

ghost use Rattle.std.specs.Prelude.{◌≡◌, ◌∷◌, [], OnOk, IfOk};
ghost use Rattle.std.specs.List.{list_any};
ghost use Rattle.std.specs.BTreeSet.{insert_key};
ghost use Rattle.job_items.specs.Items.{link_item, link_items, injection_item};
ghost use Rattle.job_items.specs.LentNodes.{lent_nodes, lent_outputs};
ghost use Rattle.job_items.specs.Nodes.{node_named, output_cmp, with_link, is_same_output};
ghost use Rattle.job_items.specs.Progress.{progress_of, outcome_from, Follows};

use crate::halt::Halt;
use crate::nodes::node_named;
use crate::ports::{Ports, is_past};
use crate::rule::{Breach, Rule};
use crate::tally::{Tally, first_breach};
use indexmap::IndexMap;
use sefl_syntax::{Link, Name, Side};
use sn_width::NoMemory;
use std::collections::BTreeSet;

/// Passes the links, up to the first that breaks a rule.
pub(crate) fn check_links<'a>(
    tally: &mut Tally<'a>,
    nodes: &IndexMap<&'a Name, Ports>,
    used: &mut BTreeSet<(&'a Name, u32)>,
    links: &'a [Link],
) -> Result<(), Halt>
    ensures { Follows (outcome_from (progress_of tally.old)
        (link_items (lent_nodes nodes.now.entries) (lent_outputs used.old.keys) links.now)) result
        (progress_of tally.new) }
{
    for link in links {
        check_link(tally, nodes, used, link)?;
    }
    Ok(())
}

fn check_link<'a>(
    tally: &mut Tally<'a>,
    nodes: &IndexMap<&'a Name, Ports>,
    used: &mut BTreeSet<(&'a Name, u32)>,
    link: &'a Link,
) -> Result<(), Halt>
    ensures follows { Follows (outcome_from (progress_of tally.old)
        (link_item (lent_outputs used.old.keys) (node_named (lent_nodes nodes.now.entries) link.now.from)
        (node_named (lent_nodes nodes.now.entries) link.now.to) link.now ∷ []))
        result (progress_of tally.new) }
    ensures made { OnOk result (lent_outputs used.new.keys ≡ with_link (lent_outputs used.old.keys) link.now) }
{
    let from = node_named(nodes, &link.from);
    let to = node_named(nodes, &link.to);
    let is_second = leave(used, &link.from, link.from_port)?;
    let early = first_breach(&[
        (from.is_none() || to.is_none(), Breach::Breaks(Rule::NoNode)),
        (
            is_past(from, Side::Outward, link.from_port) || is_past(to, Side::Inward, link.to_port),
            Breach::Breaks(Rule::PortRange),
        ),
        (is_second, Breach::Breaks(Rule::TwoLinks)),
    ]);
    tally.weigh(&[], early, 0, 0)?;
    tally.step()
}

/// Notes an output port that a link leaves; whether an earlier link does.
fn leave<'a>(
    used: &mut BTreeSet<(&'a Name, u32)>,
    name: &'a Name,
    port: u32,
) -> Result<bool, NoMemory>
    ensures second { IfOk result (λ is_second. is_second
        ≡ list_any (is_same_output (name.now, port)) (lent_outputs used.old.keys)) }
    ensures made { OnOk result (lent_outputs used.new.keys
        ≡ insert_key output_cmp (lent_outputs used.old.keys) (name.now, port)) }
{
    let is_first = used.insert((name, port))?;
    Ok(!is_first)
}

/// Passes the heading of an injection.
pub(crate) fn check_entry<'a>(
    tally: &mut Tally<'a>,
    nodes: &IndexMap<&'a Name, Ports>,
    name: &'a Name,
    port: u32,
) -> Result<(), Halt>
    ensures { Follows (outcome_from (progress_of tally.old)
        (injection_item (node_named (lent_nodes nodes.now.entries) name.now) port ∷ [])) result
        (progress_of tally.new) }
{
    let node = node_named(nodes, name);
    let early = first_breach(&[
        (node.is_none(), Breach::Breaks(Rule::NoNode)),
        (
            is_past(node, Side::Inward, port),
            Breach::Breaks(Rule::PortRange),
        ),
    ]);
    tally.weigh(&[], early, 0, 0)?;
    tally.step()
}
