//! Files of tables that are refused.

use fib_model::read_fib;
use mac_model::read_mac;
use sefl_syntax::TableKind;
use std::alloc::Global;
use table_lines::TableFault;
use table_lines::TableFault::{BadLine, Conflict};

fn fault_of(alloc: Global, kind: TableKind, text: &str) -> Option<TableFault> {
    match kind {
        TableKind::Mac => read_mac(alloc, text.as_bytes()).err(),
        TableKind::Fib => read_fib(alloc, text.as_bytes()).err(),
    }
}

/// Of rows that contradict a row the earliest is named, and an equal row contradicts none.
#[test]
fn the_first_line_that_breaks_a_rule_is_told(rt: HostRuntime) {
    let rows = [
        (TableKind::Fib, "", Some(BadLine { line: 1 })),
        (
            TableKind::Mac,
            "# none\n\n0:0:0:0:0:1 0\n",
            Some(BadLine { line: 3 }),
        ),
        (
            TableKind::Fib,
            "ports 3\n1.2.3.4/33 0\n",
            Some(BadLine { line: 2 }),
        ),
        (
            TableKind::Fib,
            "ports 3\n0.0.0.0/0 0\n10.0.0.0/8 1\n10.9.9.9/8 1\n",
            None,
        ),
        (
            TableKind::Fib,
            "ports 3\n0.0.0.0/0 0\n10.0.0.0/8 1\n10.1.0.0/16 2\n10.9.9.9/8 2\n",
            Some(Conflict {
                line: 5,
                earlier: 3,
            }),
        ),
        (
            TableKind::Mac,
            "ports 2\n0:0:0:0:0:1 0\n0:0:0:0:0:2 0\n0:0:0:0:0:1 0\n00:0:0:0:0:01 1\n",
            Some(Conflict {
                line: 5,
                earlier: 2,
            }),
        ),
    ];
    for (kind, text, wanted) in &rows {
        assert_eq!(&rt; fault_of(rt.alloc(), *kind, text), *wanted);
    }
}
