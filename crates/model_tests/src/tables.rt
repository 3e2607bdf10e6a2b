//! Where the nodes of tables send addresses, in each style.

use crate::exits::assert_exits;
use fib_model::{fib_node, read_fib};
use mac_model::{mac_node, read_mac};
use sefl_syntax::{RawNode, Style, TableKind};
use sn_width::Num;
use std::alloc::Global;
use std::process::Abort;

const STYLES: [Style; 3] = [Style::Chain, Style::Grouped, Style::Egress];

fn node_of(rt: &impl Abort, alloc: Global, kind: TableKind, text: &str, style: Style) -> RawNode {
    match kind {
        TableKind::Mac => {
            let table = read_mac(alloc, text.as_bytes()).ok().expect(rt, "a table");
            mac_node(alloc, &table, style).ok().expect(rt, "memory")
        }
        TableKind::Fib => {
            let table = read_fib(alloc, text.as_bytes()).ok().expect(rt, "a table");
            fib_node(alloc, &table, style).ok().expect(rt, "memory")
        }
    }
}

#[test]
fn addresses_go_where_the_table_says(rt: HostRuntime) {
    let prefixes = "ports 3\n0.0.0.0/0 0\n10.0.0.0/8 1\n10.1.0.0/16 2\n";
    let rows: [(TableKind, &str, Num, &[u32]); 8] = [
        (TableKind::Fib, prefixes, 0x0a00_ffff, &[1]),
        (TableKind::Fib, prefixes, 0x0a01_0000, &[2]),
        (TableKind::Fib, prefixes, 0x0a01_ffff, &[2]),
        (TableKind::Fib, prefixes, 0x0a02_0000, &[1]),
        (TableKind::Fib, prefixes, 0xffff_ffff, &[0]),
        (TableKind::Fib, "ports 3\n", 7, &[]),
        (TableKind::Mac, "ports 2\n", 0, &[0, 1]),
        (TableKind::Mac, "ports 2\n", 0xffff_ffff_ffff, &[0, 1]),
    ];
    for (kind, text, address, ports) in &rows {
        for style in STYLES {
            let node = node_of(&rt, rt.alloc(), *kind, text, style);
            assert_exits(&rt, &node, *address, ports);
        }
    }
}

/// The ports of the first row that contains the address.
fn first_ports<'a>(rows: &[(Num, Num, &'a [u32])], address: Num) -> &'a [u32] {
    for row in rows {
        if row.0 <= address && address <= row.1 {
            return row.2;
        }
    }
    &[]
}

/// Each address up to 39 leaves the node as the rows say.
fn assert_searched(rt: &impl Abort, node: &RawNode, rows: &[(Num, Num, &[u32])]) {
    for number in 0..40_u32 {
        let address = Num::from(number);
        assert_exits(rt, node, address, first_ports(rows, address));
    }
}

/// The rows of the text as ranges, the ones that count first.
fn assert_all(
    rt: &impl Abort,
    alloc: Global,
    kind: TableKind,
    text: &str,
    rows: &[(Num, Num, &[u32])],
) {
    for style in STYLES {
        let node = node_of(rt, alloc, kind, text, style);
        assert_searched(rt, &node, rows);
    }
}

#[test]
fn all_addresses_go_as_a_search_of_the_rows_says(rt: HostRuntime) {
    assert_all(
        &rt,
        rt.alloc(),
        TableKind::Fib,
        "ports 4\n0.0.0.0/27 0\n0.0.0.8/29 1\n0.0.0.12/30 2\n0.0.0.13/32 0\n0.0.0.16/28 3\n",
        &[
            (13, 13, &[0]),
            (12, 15, &[2]),
            (8, 15, &[1]),
            (16, 31, &[3]),
            (0, 31, &[0]),
        ],
    );
    assert_all(
        &rt,
        rt.alloc(),
        TableKind::Mac,
        "ports 3\n0:0:0:0:0:9 1\n0:0:0:0:0:0 0\n0:0:0:0:0:8 1\n0:0:0:0:0:1F 0\n0:0:0:0:0:a 0\n",
        &[
            (9, 9, &[1]),
            (0, 0, &[0]),
            (8, 8, &[1]),
            (31, 31, &[0]),
            (10, 10, &[0]),
            (0, 99, &[0, 1, 2]),
        ],
    );
}
