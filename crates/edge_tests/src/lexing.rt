//! The tokens of texts, and why a text has none.

use sefl_lex::{LexFault, Token, TokenKind, number_value, text_body, token_text, tokens};
use std::alloc::Global;
use std::process::Abort;

const NAME_OF_64: &str = "abcdefghijklmnopqrstuvwxyz_ABCDEFGHIJKLMNOPQRSTUVWXYZ_0123456789";

const NAME_OF_65: &str = "abcdefghijklmnopqrstuvwxyz_ABCDEFGHIJKLMNOPQRSTUVWXYZ_0123456789a";

/// Texts, and their first fault.
const FAULTS: &[(&str, LexFault)] = &[
    ("a # b", LexFault::BadCharacter { at: 2 }),
    ("0x", LexFault::BadNumber { at: 0 }),
    ("\"a", LexFault::OpenText { at: 0 }),
    ("1a \"b", LexFault::BadNumber { at: 0 }),
    ("1é", LexFault::BadCharacter { at: 1 }),
    ("0X1", LexFault::BadNumber { at: 0 }),
    (" \"a\tb\"", LexFault::OpenText { at: 1 }),
    // Names have 64 bytes at most, and numbers 128 bits.
    (NAME_OF_65, LexFault::BadCharacter { at: 64 }),
    (
        "340282366920938463463374607431768211456",
        LexFault::BadNumber { at: 0 },
    ),
    (
        "0x100000000000000000000000000000000",
        LexFault::BadNumber { at: 0 },
    ),
];

fn check_fault(rt: &impl Abort, alloc: Global, text: &str, fault: LexFault) {
    let found = tokens(alloc, text).err();
    assert!(rt; found == Some(fault), "{text}");
}

#[test]
fn the_first_fault_is_named(rt: HostRuntime) {
    for (text, fault) in FAULTS {
        check_fault(&rt, rt.alloc(), text, *fault);
    }
}

fn token(kind: TokenKind, start: u64, end: u64) -> Token {
    Token { kind, start, end }
}

fn check_tokens(rt: &impl Abort, alloc: Global, text: &str, wanted: &[Token]) {
    let found = tokens(alloc, text).expect(rt, "tokens");
    assert!(rt; found.as_slice() == wanted, "{text}");
}

#[test]
fn texts_have_their_tokens(rt: HostRuntime) {
    check_tokens(
        &rt,
        rt.alloc(),
        NAME_OF_64,
        &[token(TokenKind::Name, 0, 64)],
    );
    // Comments and blanks are no tokens.
    let comments = "\r\n// é \"\n\ta//b";
    check_tokens(&rt, rt.alloc(), comments, &[token(TokenKind::Name, 11, 12)]);
    check_tokens(&rt, rt.alloc(), "", &[]);
    let most = "340282366920938463463374607431768211455";
    check_tokens(&rt, rt.alloc(), most, &[token(TokenKind::Number, 0, 39)]);
    let most = "0xFFFFffffFFFFffffFFFFffffFFFFffff";
    check_tokens(&rt, rt.alloc(), most, &[token(TokenKind::Number, 0, 34)]);
}

#[test]
fn the_longest_sign_is_taken(rt: HostRuntime) {
    let sign = TokenKind::Sign;
    let signs = [
        token(sign, 0, 2),
        token(sign, 2, 3),
        token(sign, 3, 4),
        token(sign, 4, 5),
        token(sign, 5, 7),
        token(sign, 7, 8),
        token(sign, 8, 9),
    ];
    check_tokens(&rt, rt.alloc(), "...--->=<", &signs);
}

fn same_count(rt: &impl Abort, found: usize, wanted: usize) {
    assert_eq!(rt; found, wanted);
}

fn same_value(rt: &impl Abort, found: u128, wanted: u128) {
    assert_eq!(rt; found, wanted);
}

fn same_text(rt: &impl Abort, found: &str, wanted: &str) {
    assert_eq!(rt; found, wanted);
}

#[test]
fn tokens_have_their_words(rt: HostRuntime) {
    let text = "0x1F \"é\u{80}\"";
    let found = tokens(rt.alloc(), text).expect(&rt, "tokens");
    same_count(&rt, found.len(), 2);
    for token in &found {
        match token.kind {
            TokenKind::Number => same_value(&rt, number_value(text, *token), 31),
            TokenKind::Text => same_text(&rt, text_body(text, *token), "é\u{80}"),
            TokenKind::Name | TokenKind::Sign => panic!(rt; "{}", token_text(text, *token)),
        }
    }
}
