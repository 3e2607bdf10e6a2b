//! By which ports copies leave the node of a table.

use sefl_syntax::{Cond, Expr, Instr, RawNode, Side};
use sn_width::Num;
use std::process::Abort;

/// Whether the destination passes the test.
fn holds(test: &Cond, address: Num) -> bool {
    match test {
        Cond::True => true,
        Cond::Compare {
            right: Expr::Const(number),
            ..
        } => *number == address,
        Cond::Member { ranges, .. } => ranges.has(address),
        _ => false,
    }
}

fn forwards(code: &[Instr], port: u32) -> Option<bool> {
    match code.first()? {
        Instr::Forward(to) => Some(*to == port),
        _ => None,
    }
}

/// Whether the instruction sends a copy to the port; None where it goes on to the next one.
fn step(instr: &Instr, address: Num, port: u32) -> Option<bool> {
    match instr {
        Instr::If { test, first, .. } => {
            if holds(test, address) {
                forwards(first.as_slice(), port)
            } else {
                None
            }
        }
        Instr::Constrain(test) => {
            if holds(test, address) {
                None
            } else {
                Some(false)
            }
        }
        Instr::Fork(ports) => Some(ports.iter().any(|to| *to == port)),
        _ => Some(false),
    }
}

fn run(code: &[Instr], address: Num, port: u32) -> Option<bool> {
    for instr in code {
        let sent = step(instr, address, port);
        if sent.is_some() {
            return sent;
        }
    }
    None
}

fn code_of(node: &RawNode, side: Side, port: u32) -> &[Instr] {
    for code in &node.codes {
        if code.side == side && code.port == port {
            return code.code.as_slice();
        }
    }
    &[]
}

fn leaves_by(node: &RawNode, address: Num, port: u32) -> bool {
    run(code_of(node, Side::Inward, 0), address, port) == Some(true)
        && run(code_of(node, Side::Outward, port), address, port).is_none()
}

/// The address leaves the node by these ports and no other.
pub fn assert_exits(rt: &impl Abort, node: &RawNode, address: Num, ports: &[u32]) {
    for port in 0..node.outs {
        let wanted = ports.iter().any(|to| *to == port);
        assert_eq!(rt; leaves_by(node, address, port), wanted);
    }
}
