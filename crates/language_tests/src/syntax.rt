//! Rows of names and texts, and the texts of jobs.

use crate::jobs::{check, check_printed, name_of, one, same_text, text_of, two};
use sefl_syntax::{
    Addr, Ask, Body, Cond, Instr, Job, Link, Name, NodeDecl, PortCode, RawField, RawInjection,
    RawNet, RawNode, RawPlace, Side, Style, TableKind, Target, fill, is_filled, print_net,
    print_node,
};
use sn_width::Width;
use std::alloc::Global;
use std::process::Abort;

const LETTERS_64: &str = "abcdefghij_0123456789abcdefghij_0123456789abcdefghij_0123456789a";

const LETTERS_65: &str = "abcdefghij_0123456789abcdefghij_0123456789abcdefghij_0123456789az";

fn check_name(rt: &impl Abort, alloc: Global, text: &str) {
    let name = name_of(rt, alloc, text);
    same_text(rt, name.text(), text);
}

fn check_no_name(rt: &impl Abort, alloc: Global, text: &str) {
    let name = Name::of(alloc, text).expect(rt, "memory");
    check(rt, name.is_none(), text);
}

#[test]
fn names_have_one_to_64_letters(rt: HostRuntime) {
    for text in ["r", "_", "Z9"] {
        check_name(&rt, rt.alloc(), text);
    }
    check_name(&rt, rt.alloc(), LETTERS_64);
    for text in ["", "9a", "a-b"] {
        check_no_name(&rt, rt.alloc(), text);
    }
    check_no_name(&rt, rt.alloc(), LETTERS_65);
}

fn check_order(rt: &impl Abort, less: &Name, greater: &Name) {
    assert!(rt; *less < *greater);
}

fn check_clone(rt: &impl Abort, name: &Name) {
    let clone = name.clone().expect(rt, "memory");
    assert!(rt; clone == *name);
}

#[test]
fn names_are_ordered_and_cloned(rt: HostRuntime) {
    let upper = name_of(&rt, rt.alloc(), "Z9");
    let lower = name_of(&rt, rt.alloc(), "_");
    check_order(&rt, &upper, &lower);
    check_clone(&rt, &lower);
}

fn check_text(rt: &impl Abort, alloc: Global, text: &str, is_quotable: bool) {
    let made = text_of(rt, alloc, text);
    check(rt, made.text() == text, text);
    check(rt, made.is_quotable() == is_quotable, text);
}

#[test]
fn quotes_and_control_characters_are_not_quotable(rt: HostRuntime) {
    for (text, is_quotable) in [
        ("dead", true),
        ("", true),
        ("a \u{80}~", true),
        ("a \"b", false),
        ("\u{1f}", false),
        ("\u{7f}", false),
    ] {
        check_text(&rt, rt.alloc(), text, is_quotable);
    }
}

fn width_of(rt: &impl Abort, bits: u8) -> Width {
    Width::new(bits).expect(rt, "a width has 1 to 128 bits")
}

/// A Fork to two ports, and one to none.
fn forks(rt: &impl Abort, alloc: Global) -> Vec<Instr> {
    let fork = Instr::Fork(two(rt, alloc, 0, 1));
    two(rt, alloc, fork, Instr::Fork(Vec::new(alloc)))
}

/// A node with code at one port.
fn node_with(rt: &impl Abort, alloc: Global, code: Vec<Instr>) -> RawNode {
    let port = PortCode {
        side: Side::Inward,
        port: 3,
        code,
    };
    RawNode {
        ins: 4,
        outs: 2,
        codes: one(rt, alloc, port),
    }
}

/// The text of the node under the name `a`.
fn check_node(rt: &impl Abort, alloc: Global, node: &RawNode, wanted: &str) {
    let name = name_of(rt, alloc, "a");
    let found = print_node(alloc, &name, node).expect(rt, "memory");
    same_text(rt, found.as_str(), wanted);
}

#[test]
fn a_node_has_its_text(rt: HostRuntime) {
    let node = node_with(&rt, rt.alloc(), forks(&rt, rt.alloc()));
    let text = "node a 4 -> 2 {\n  in 3 {\n    fork 0, 1;\n    fork;\n  }\n}\n";
    check_node(&rt, rt.alloc(), &node, text);
}

const TABLE_JOB: &str = "symnet 2;
node sw = mac \"sw.mac\" egress;
link sw.0 -> sw.0;
inject sw.0 {
  tag L3 = -5;
  field head L3+0:8;
  field head L3-8:8 = 7;
  where true;
}
ask reach out sw.1;
ask visible head L3+0:8 at in sw.0;
";

const FILLED_NET: &str = "node sw 1 -> 2 {
}
link sw.0 -> sw.0;
";

/// A table `sw` with a link to itself.
fn table_net(rt: &impl Abort, alloc: Global) -> RawNet {
    let table = Body::Table {
        kind: TableKind::Mac,
        file: text_of(rt, alloc, "sw.mac"),
        style: Style::Egress,
    };
    let node = NodeDecl {
        name: name_of(rt, alloc, "sw"),
        body: table,
    };
    let link = Link {
        from: name_of(rt, alloc, "sw"),
        from_port: 0,
        to: name_of(rt, alloc, "sw"),
        to_port: 0,
    };
    RawNet {
        nodes: one(rt, alloc, node),
        links: one(rt, alloc, link),
    }
}

/// The cell of eight bits at the offset from the tag `L3`.
fn cell(rt: &impl Abort, alloc: Global, offset: i32) -> Target {
    let tag = Some(name_of(rt, alloc, "L3"));
    let width = width_of(rt, 8);
    Target::Header {
        addr: Addr { tag, offset },
        width,
    }
}

fn field(rt: &impl Abort, alloc: Global, offset: i32, value: Option<u128>) -> RawField {
    let target = cell(rt, alloc, offset);
    RawField { target, value }
}

fn injection(rt: &impl Abort, alloc: Global) -> RawInjection {
    let base = Addr {
        tag: None,
        offset: -5,
    };
    let unknown = field(rt, alloc, 0, None);
    RawInjection {
        node: name_of(rt, alloc, "sw"),
        port: 0,
        tags: one(rt, alloc, (name_of(rt, alloc, "L3"), base)),
        fields: two(rt, alloc, unknown, field(rt, alloc, -8, Some(7))),
        tests: one(rt, alloc, Cond::True),
    }
}

fn place(rt: &impl Abort, alloc: Global, side: Side, port: u32) -> RawPlace {
    let node = name_of(rt, alloc, "sw");
    RawPlace { side, node, port }
}

fn asks(rt: &impl Abort, alloc: Global) -> Vec<Ask> {
    let reach = Ask::Reach {
        place: place(rt, alloc, Side::Outward, 1),
        test: Cond::True,
    };
    let visible = Ask::Visible {
        target: cell(rt, alloc, 0),
        place: place(rt, alloc, Side::Inward, 0),
    };
    two(rt, alloc, reach, visible)
}

fn table_job(rt: &impl Abort, alloc: Global) -> Job {
    let net = table_net(rt, alloc);
    let injection = injection(rt, alloc);
    let asks = asks(rt, alloc);
    Job {
        net,
        injection,
        asks,
    }
}

#[test]
fn a_job_has_its_text(rt: HostRuntime) {
    let job = table_job(&rt, rt.alloc());
    check_printed(&rt, rt.alloc(), &job, TABLE_JOB);
    drop(job);
}

fn check_filled(rt: &impl Abort, job: &Job, wanted: bool) {
    assert!(rt; is_filled(job) == wanted);
}

/// Gives the first node, which is a table, code.
fn fill_first(rt: &impl Abort, alloc: Global, job: &mut Job) {
    assert!(rt;
        matches!(
            job.net.nodes.first(),
            Some(NodeDecl {
                body: Body::Table { .. },
                ..
            })
        )
    );
    let codes = Vec::new(alloc);
    fill(
        job,
        0,
        RawNode {
            ins: 1,
            outs: 2,
            codes,
        },
    );
}

fn check_net(rt: &impl Abort, alloc: Global, net: &RawNet, wanted: &str) {
    let text = print_net(alloc, net).expect(rt, "memory");
    same_text(rt, text.as_str(), wanted);
}

#[test]
fn a_table_is_filled_with_code(rt: HostRuntime) {
    let mut job = table_job(&rt, rt.alloc());
    check_filled(&rt, &job, false);
    fill_first(&rt, rt.alloc(), &mut job);
    check_filled(&rt, &job, true);
    check_net(&rt, rt.alloc(), &job.net, FILLED_NET);
    drop(job);
}
