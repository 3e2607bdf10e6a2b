//! Classes of elements, and their arguments.

ghost use Rattle.std.specs.Prelude.{◌≡◌};
ghost use Rattle.click_elements.specs.Classes.{class_named};

use sn_width::Num;

/// The name of a class.
#[derive(Clone, Copy)]
pub enum ClassName {
    DecIpTtl,
    EtherMirror,
    IpMirror,
    Tee,
    Discard,
    Strip,
    EtherEncap,
    IpFilter,
    IpClassifier,
}

/// Which of the two addresses or ports of a packet is meant.
#[derive(Clone, Copy)]
pub enum Direction {
    Source,
    Destination,
}

/// A test of a packet.
#[derive(Clone, Copy)]
pub enum Primitive {
    /// Each packet passes.
    All,
    Host {
        direction: Direction,
        address: Num,
    },
    /// The addresses from the first one to the last.
    Net {
        direction: Direction,
        first: Num,
        last: Num,
    },
    Protocol(Num),
    /// The port of TCP or UDP.
    Port {
        direction: Direction,
        port: Num,
    },
}

/// All of these tests, one at least.
#[derive(Drop)]
pub struct Pattern {
    pub primitives: Vec<Primitive>,
}

/// What is done with the packets that pass: they are let through, or dropped.
#[derive(Drop)]
pub struct Rule {
    pub allows: bool,
    pub pattern: Pattern,
}

/// A class with its arguments.
#[derive(Drop)]
pub enum Class {
    DecIpTtl,
    EtherMirror,
    IpMirror,
    /// The number of outputs, where it is said.
    Tee(Option<u32>),
    Discard,
    /// Removes the 14 bytes of an Ethernet header.
    Strip,
    EtherEncap {
        /// The type field.
        kind: Num,
        source: Num,
        destination: Num,
    },
    IpFilter(Vec<Rule>),
    IpClassifier(Vec<Pattern>),
}

/// The class of that name, if there is one.
pub fn class_named(word: &[u8]) -> Option<ClassName>
    ensures { result ≡ class_named word.now }
{
    if word == "DecIPTTL".as_bytes() {
        Some(ClassName::DecIpTtl)
    } else if word == "EtherMirror".as_bytes() {
        Some(ClassName::EtherMirror)
    } else if word == "IPMirror".as_bytes() {
        Some(ClassName::IpMirror)
    } else if word == "Tee".as_bytes() {
        Some(ClassName::Tee)
    } else if word == "Discard".as_bytes() {
        Some(ClassName::Discard)
    } else if word == "Strip".as_bytes() {
        Some(ClassName::Strip)
    } else if word == "EtherEncap".as_bytes() {
        Some(ClassName::EtherEncap)
    } else if word == "IPFilter".as_bytes() {
        Some(ClassName::IpFilter)
    } else if word == "IPClassifier".as_bytes() {
        Some(ClassName::IpClassifier)
    } else {
        None
    }
}
