//! The numbers of packet files.

use sefl_lex::{PacketFault, read_packet};
use sn_width::Num;
use std::alloc::Global;
use std::process::Abort;

const MOST: u128 = 340282366920938463463374607431768211455;

fn numbers(rt: &impl Abort, alloc: Global, bytes: &[u8]) -> Vec<Num> {
    read_packet(alloc, bytes).expect(rt, "numbers")
}

fn check_numbers(rt: &impl Abort, alloc: Global, bytes: &[u8], wanted: &[Num]) {
    let found = numbers(rt, alloc, bytes);
    assert_eq!(rt; found.as_slice(), wanted);
}

#[test]
fn numbers_stand_between_blanks(rt: HostRuntime) {
    const ROWS: &[(&[u8], &[Num])] = &[
        (b"1", &[1]),
        (b"300", &[300]),
        (
            b"\r\n 0x1F\t007\n 340282366920938463463374607431768211455 ",
            &[31, 7, MOST],
        ),
        (b"", &[]),
        (b" \n\t\r", &[]),
    ];
    for (bytes, wanted) in ROWS {
        check_numbers(&rt, rt.alloc(), bytes, wanted);
    }
}

fn check_no_numbers(rt: &impl Abort, alloc: Global, bytes: &[u8]) {
    let fault = read_packet(alloc, bytes).err();
    assert!(rt; fault == Some(PacketFault::NotNumbers), "{bytes:?}");
}

#[test]
fn other_words_are_no_numbers(rt: HostRuntime) {
    const ROWS: &[&[u8]] = &[
        b"x",
        b"1 2x",
        b"1,2",
        b"0x",
        b"0X1",
        b"-1",
        b"1 // one",
        b"1//",
        b"1\x0c2",
        b"1 \xff",
        b"340282366920938463463374607431768211456",
    ];
    for bytes in ROWS {
        check_no_numbers(&rt, rt.alloc(), bytes);
    }
}

/// The number 7 on `count` lines.
fn sevens(rt: &impl Abort, alloc: Global, count: u32) -> Vec<u8> {
    let mut bytes = Vec::new(alloc);
    for _ in 0..count {
        bytes.extend_from_slice(b"7\n").expect(rt, "memory");
    }
    bytes
}

fn check_length(rt: &impl Abort, found: &[Num], wanted: usize) {
    assert_eq!(rt; found.len(), wanted);
}

fn check_last(rt: &impl Abort, found: &[Num], wanted: Num) {
    assert_eq!(rt; found.last().copied(), Some(wanted));
}

#[test]
fn a_long_file_is_read(rt: HostRuntime) {
    let bytes = sevens(&rt, rt.alloc(), 5_000_000);
    let found = numbers(&rt, rt.alloc(), &bytes);
    check_length(&rt, &found, 5_000_000);
    check_last(&rt, &found, 7);
}
