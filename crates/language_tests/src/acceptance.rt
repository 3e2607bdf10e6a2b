//! Jobs that are accepted, and what is told of them.

use crate::jobs::{check, job_of, joined, name_of, patterns_of, same_count};
use net_check::{AcceptFault, Accepted, Injection, Net, Rule, accept};
use sefl_syntax::{Job, Name, Side};
use sn_width::{NameId, NodeId, Site};
use std::alloc::Global;
use std::process::Abort;

/// Code of a node: with the node's name, four items.
const CODE: &str = " 1 -> 1 { in 0 { for v in \"^y\" { } forward 0; } } ";

/// Two nodes with a link from the first to the second, packets with the metadata y and x, one of
/// them unknown, at the input of the second, and a question on the metadata z.
fn job(rt: &impl Abort, alloc: Global, first: &str, second: &str) -> Job {
    let nodes = joined(rt, alloc, &["node ", first, CODE, "node ", second, CODE]);
    let link = joined(rt, alloc, &["link ", first, ".0 -> ", second, ".0; "]);
    let fields = ".0 { field global y:8; field global x:8 = 255; } ";
    let packet = joined(rt, alloc, &["inject ", second, fields]);
    let ask = joined(
        rt,
        alloc,
        &["ask invariant global z:8 at out ", first, ".0;"],
    );
    let parts = [nodes.as_str(), link.as_str(), packet.as_str(), ask.as_str()];
    job_of(rt, alloc, joined(rt, alloc, &parts).as_str())
}

/// The parts of the job with the nodes a and b.
fn accepted(rt: &impl Abort, alloc: Global) -> Accepted {
    let mut patterns = patterns_of(rt, alloc, &[("^y", "y")], &[]);
    match accept(alloc, job(rt, alloc, "a", "b"), &mut patterns) {
        Ok(accepted) => accepted,
        Err(_) => panic!(rt; "refused"),
    }
}

/// Whether the net has the name as that of a node or of metadata, and not of a tag.
fn has_name(net: &Net, name: &Name, node: Option<NodeId>, id: Option<NameId>) -> bool {
    net.node_id(name) == node && net.name_id(name) == id && net.tag_id(name).is_none()
}

fn check_name(
    rt: &impl Abort,
    alloc: Global,
    net: &Net,
    text: &str,
    node: Option<NodeId>,
    id: Option<NameId>,
) {
    let name = name_of(rt, alloc, text);
    check(rt, has_name(net, &name, node, id), text);
}

fn check_link(rt: &impl Abort, net: &Net, node: u32, end: Option<(NodeId, u32)>) {
    assert!(rt; net.link(NodeId(node), 0) == end);
}

fn check_site(rt: &impl Abort, net: &Net, side: Side, site: Option<Site>) {
    assert!(rt; net.code_site(NodeId(1), side, 0) == site, "{side}");
}

fn check_net(rt: &impl Abort, alloc: Global, net: &Net) {
    same_count(rt, u64::from(net.node_count()), 2);
    check_name(rt, alloc, net, "b", Some(NodeId(1)), None);
    check_name(rt, alloc, net, "c", None, None);
    check_name(rt, alloc, net, "z", None, Some(NameId(2)));
    check_link(rt, net, 0, Some((NodeId(1), 0)));
    check_link(rt, net, 1, None);
    check_site(rt, net, Side::Inward, Some(Site(5)));
    check_site(rt, net, Side::Outward, None);
}

/// Whether the packet comes in at the node's port 0, with `fields` fields, some of them unknown.
fn has_fields(injection: &Injection, node: NodeId, fields: usize, unknowns: usize) -> bool {
    injection.place() == (node, 0)
        && injection.unknowns() == unknowns
        && injection.raw().fields.len() == fields
}

#[test]
fn the_readers_of_a_net_and_of_a_packet_find_what_the_job_has(rt: HostRuntime) {
    let accepted = accepted(&rt, rt.alloc());
    check_net(&rt, rt.alloc(), &accepted.net);
    assert!(rt; has_fields(&accepted.injection, NodeId(1), 2, 1));
    drop(accepted);
}

fn refusal_of(rt: &impl Abort, alloc: Global, job: Job, bad: &str) -> Option<AcceptFault> {
    let mut patterns = patterns_of(rt, alloc, &[("^y", "y")], &[bad]);
    accept(alloc, job, &mut patterns).err()
}

fn refused(site: u32, rule: Rule) -> Option<AcceptFault> {
    let site = Site(site);
    Some(AcceptFault::Refused { site, rule })
}

fn check_refusal(
    rt: &impl Abort,
    alloc: Global,
    second: &str,
    bad: &str,
    wanted: Option<AcceptFault>,
) {
    let found = refusal_of(rt, alloc, job(rt, alloc, "a", second), bad);
    assert!(rt; found == wanted, "{second} {bad}");
}

#[test]
fn the_first_broken_rule_is_told_and_bad_patterns_last(rt: HostRuntime) {
    for (second, bad, wanted) in [
        ("a", "^y", refused(4, Rule::TwiceNode)),
        ("b", "^y", refused(2, Rule::BadPattern)),
        ("b", "other", None),
    ] {
        check_refusal(&rt, rt.alloc(), second, bad, wanted);
    }
}
