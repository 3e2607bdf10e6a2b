//! The text of walks.

use crate::cells::Act;
use crate::jobs::{accepted, nothing};
use crate::layers::{self, TagAct};
use crate::same::same_text;
use crate::scopes;
use sefl_meaning::{Decision, End, Failure, Place, State, Walk};
use sefl_syntax::{Side, Text};
use sn_width::{LayoutFault, NameId, NodeId, Num, Site, TagId};
use std::alloc::Global;
use std::process::Abort;
use walk_command::walks_text;

/// A box r with one port on each side, the tag name L3 and the metadata names m and n.
const JOB: &str =
    "symnet 1; node r 1 -> 1 { } inject r.0 { tag L3 = 112; field global m:8; field global n:8; }";

fn in_list<T: Drop>(rt: &impl Abort, alloc: Global, item: T) -> Vec<T> {
    let mut items = Vec::new(alloc);
    items.push(item).expect(rt, "memory");
    items
}

fn place(node: u32, side: Side, port: u32) -> Place {
    Place {
        node: NodeId(node),
        side,
        port,
    }
}

/// A walk of a packet that carries nothing, without decisions and places.
fn ended(alloc: Global, end: End) -> Walk {
    Walk {
        decisions: Vec::new(alloc),
        places: Vec::new(alloc),
        end,
        state: nothing(),
    }
}

fn failed(failure: Failure, site: u32) -> End {
    End::Failed {
        failure,
        site: Site(site),
    }
}

fn message(rt: &impl Abort, alloc: Global, text: &str) -> Failure {
    Failure::Message {
        text: Text::of(alloc, text).expect(rt, "memory"),
    }
}

/// The text of these walks of the box.
fn assert_text(rt: &impl Abort, alloc: Global, walks: &[Walk], expected: &str) {
    let job = accepted(rt, alloc, JOB);
    let text = walks_text(alloc, &job.net, walks).expect(rt, "memory");
    drop(job);
    same_text(rt, text.as_str(), expected);
}

/// The text of this walk of the box.
fn assert_walk(rt: &impl Abort, alloc: Global, walk: Walk, expected: &str) {
    let walks = in_list(rt, alloc, walk);
    assert_text(rt, alloc, walks.as_slice(), expected);
}

/// What a packet carries after these calls.
fn state_of(
    rt: &impl Abort,
    alloc: Global,
    tags: &[layers::TagRow],
    heads: &[layers::Row],
    metas: &[scopes::Row],
) -> State {
    let mut state = nothing();
    layers::assert_tag_rows(rt, alloc, &mut state.layers, tags);
    layers::assert_rows(rt, alloc, &mut state.layers, heads);
    scopes::assert_rows(rt, alloc, &mut state.scopes, metas);
    state
}

fn ttl_walk(rt: &impl Abort, alloc: Global, state: State) -> Walk {
    Walk {
        decisions: in_list(rt, alloc, Decision::Then),
        places: in_list(rt, alloc, place(0, Side::Inward, 0)),
        end: failed(message(rt, alloc, "dead"), 3),
        state,
    }
}

#[test]
fn the_ttl_walk_is_written(rt: HostRuntime) {
    const TAGS: &[layers::TagRow] = &[(TagAct::Create, TagId(0), None, 112, Ok(0))];
    const HEADS: &[layers::Row] = &[
        (Act::Allocate, None, 176, 8, Ok(0)),
        (Act::Assign(1), None, 176, 8, Ok(0)),
    ];
    let state = state_of(&rt, rt.alloc(), TAGS, HEADS, &[]);
    let walk = ttl_walk(&rt, rt.alloc(), state);
    let expected =
        "{\"symnet\":1,\"walks\":[{\"decisions\":[\"then\"],\"end\":{\"fault\":9,\"site\":3,\"text\":\"dead\"},\"fields\":{\"heads\":[[176,[[8,1]]]],\"metas\":[],\"tags\":[[\"L3\",112]]},\"places\":[\"in r.0\"]}]}\n";
    assert_walk(&rt, rt.alloc(), walk, expected);
}

fn all_decisions(rt: &impl Abort, alloc: Global) -> Vec<Decision> {
    let decisions = [
        Decision::Copy(4294967295),
        Decision::Else,
        Decision::Pass,
        Decision::Copy(0),
        Decision::Then,
        Decision::Broken,
    ];
    decisions.to_vec(alloc).expect(rt, "memory")
}

/// Through the box, with every kind of decision.
fn decided_walk(rt: &impl Abort, alloc: Global, state: State) -> Walk {
    let places = [place(0, Side::Inward, 0), place(0, Side::Outward, 12)];
    Walk {
        decisions: all_decisions(rt, alloc),
        places: places.to_vec(alloc).expect(rt, "memory"),
        end: End::Stopped,
        state,
    }
}

#[test]
fn fields_and_decisions_are_written(rt: HostRuntime) {
    const TAGS: &[layers::TagRow] = &[
        (TagAct::Create, TagId(0), None, 112, Ok(0)),
        (TagAct::Create, TagId(0), None, -8, Ok(0)),
    ];
    // Cells from bottom to top at an address below 0, the greatest number and the least text.
    const HEADS: &[layers::Row] = &[
        (Act::Allocate, None, 176, 64, Ok(0)),
        (Act::Assign(18446744073709551615), None, 176, 64, Ok(0)),
        (Act::Allocate, None, 300, 128, Ok(0)),
        (Act::Assign(18446744073709551616), None, 300, 128, Ok(0)),
        (Act::Allocate, None, -64, 8, Ok(0)),
        (Act::Assign(255), None, -64, 8, Ok(0)),
        (Act::Allocate, None, -64, 8, Ok(0)),
    ];
    // Metadata of the net and of the box.
    const METAS: &[scopes::Row] = &[
        (Act::Allocate, Some(NodeId(0)), NameId(0), 128, Ok(0)),
        (
            Act::Assign(Num::MAX),
            Some(NodeId(0)),
            NameId(0),
            128,
            Ok(0),
        ),
        (Act::Allocate, None, NameId(1), 16, Ok(0)),
        (Act::Allocate, None, NameId(1), 16, Ok(0)),
        (Act::Assign(7), None, NameId(1), 16, Ok(0)),
    ];
    let state = state_of(&rt, rt.alloc(), TAGS, HEADS, METAS);
    let walk = decided_walk(&rt, rt.alloc(), state);
    let expected =
        "{\"symnet\":1,\"walks\":[{\"decisions\":[4294967295,\"else\",\"pass\",0,\"then\",\"broken\"],\"end\":\"stopped\",\"fields\":{\"heads\":[[-64,[[8,255],[8]]],[176,[[64,18446744073709551615]]],[300,[[128,\"18446744073709551616\"]]]],\"metas\":[[null,\"n\",[[16],[16,7]]],[\"r\",\"m\",[[128,\"340282366920938463463374607431768211455\"]]]],\"tags\":[[\"L3\",112],[\"L3\",-8]]},\"places\":[\"in r.0\",\"out r.12\"]}]}\n";
    assert_walk(&rt, rt.alloc(), walk, expected);
}

/// Adds a walk that ends so.
fn put(rt: &impl Abort, alloc: Global, walks: &mut Vec<Walk>, end: End) {
    walks.push(ended(alloc, end)).expect(rt, "memory");
}

#[test]
fn ends_are_written(rt: HostRuntime) {
    let alloc = rt.alloc();
    let mut walks = Vec::new(alloc);
    put(&rt, alloc, &mut walks, End::Delivered);
    put(&rt, alloc, &mut walks, End::Cut);
    let fault = Failure::Layout(LayoutFault::WidthDiffers);
    put(&rt, alloc, &mut walks, failed(fault, 4));
    put(&rt, alloc, &mut walks, failed(Failure::Constraint, 5));
    let text = message(&rt, alloc, "a\"\\\x01\n");
    put(&rt, alloc, &mut walks, failed(text, 6));
    let expected =
        "{\"symnet\":1,\"walks\":[{\"decisions\":[],\"end\":\"delivered\",\"fields\":{\"heads\":[],\"metas\":[],\"tags\":[]},\"places\":[]},{\"decisions\":[],\"end\":\"cut\",\"fields\":{\"heads\":[],\"metas\":[],\"tags\":[]},\"places\":[]},{\"decisions\":[],\"end\":{\"fault\":4,\"site\":4},\"fields\":{\"heads\":[],\"metas\":[],\"tags\":[]},\"places\":[]},{\"decisions\":[],\"end\":{\"fault\":8,\"site\":5},\"fields\":{\"heads\":[],\"metas\":[],\"tags\":[]},\"places\":[]},{\"decisions\":[],\"end\":{\"fault\":9,\"site\":6,\"text\":\"a\\\"\\\\\\u0001\\n\"},\"fields\":{\"heads\":[],\"metas\":[],\"tags\":[]},\"places\":[]}]}\n";
    assert_text(&rt, alloc, walks.as_slice(), expected);
}

/// Out of a node of another net.
fn foreign_walk(rt: &impl Abort, alloc: Global, state: State) -> Walk {
    Walk {
        decisions: Vec::new(alloc),
        places: in_list(rt, alloc, place(4294967295, Side::Outward, 0)),
        end: End::Delivered,
        state,
    }
}

#[test]
fn foreign_ids_have_an_empty_name(rt: HostRuntime) {
    const TAGS: &[layers::TagRow] = &[(TagAct::Create, TagId(1), None, 0, Ok(0))];
    const METAS: &[scopes::Row] = &[
        (Act::Allocate, Some(NodeId(1)), NameId(2), 8, Ok(0)),
        (Act::Assign(5), Some(NodeId(1)), NameId(2), 8, Ok(0)),
    ];
    let state = state_of(&rt, rt.alloc(), TAGS, &[], METAS);
    let walk = foreign_walk(&rt, rt.alloc(), state);
    let expected =
        "{\"symnet\":1,\"walks\":[{\"decisions\":[],\"end\":\"delivered\",\"fields\":{\"heads\":[],\"metas\":[[\"\",\"\",[[8,5]]]],\"tags\":[[\"\",0]]},\"places\":[\"out .0\"]}]}\n";
    assert_walk(&rt, rt.alloc(), walk, expected);
}

#[test]
fn no_walks_are_an_empty_list(rt: HostRuntime) {
    assert_text(&rt, rt.alloc(), &[], "{\"symnet\":1,\"walks\":[]}\n");
}
