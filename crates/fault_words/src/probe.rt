//! The words that are tried at a place of a job's text, in an order in which a kind of many words comes before these.

/// A word; what is said where it may stand there, or nothing where that is the word itself; the bit of the kind that it shows; and the bits of
/// the kinds that it is one of: it is left out where one of these may stand there.
pub(crate) type Probe = (&'static str, &'static str, u8, u8);

const INSTRUCTION: u8 = 1;

const CONDITION: u8 = 2;

const VALUE: u8 = 4;

const COMPARISON: u8 = 8;

const NUMBER: u8 = 16;

const NAME: u8 = 32;

/// The kinds that a number may be one of.
const PARTS: u8 = 22;

/// Those that a field may be one of.
const FIELDS: u8 = 54;

/// Those that the first word of an instruction may be one of.
const FIRST: u8 = 33;

pub(crate) const PROBES: &[Probe] = &[
    ("name", "a name", NAME, 0),
    ("noop", "an instruction", INSTRUCTION, NAME),
    ("true", "a condition", CONDITION, NAME),
    ("any", "a value", VALUE, NAME),
    ("(", "a value", VALUE, PARTS),
    ("global", "a field", 0, FIELDS),
    ("==", "a comparison", COMPARISON, 0),
    ("4294967296", "a number", NUMBER, PARTS),
    (
        "1048577",
        "a number of at most 4,294,967,295",
        NUMBER,
        PARTS,
    ),
    ("129", "a number of at most 1,048,576", NUMBER, PARTS),
    ("3", "a number from 1 to 128", NUMBER, PARTS),
    ("\"\"", "a text in quotes", 0, 0),
    ("symnet", "", 0, NAME),
    ("1", "", 0, PARTS),
    ("2", "", 0, PARTS),
    ("node", "", 0, NAME),
    ("link", "", 0, NAME),
    ("inject", "", 0, NAME),
    ("in", "", 0, NAME),
    ("out", "", 0, NAME),
    ("mac", "", 0, NAME),
    ("fib", "", 0, NAME),
    ("chain", "", 0, NAME),
    ("grouped", "", 0, NAME),
    ("egress", "", 0, NAME),
    ("tag", "", 0, FIRST),
    ("field", "", 0, NAME),
    ("where", "", 0, NAME),
    ("else", "", 0, NAME),
    ("ask", "", 0, NAME),
    ("reach", "", 0, NAME),
    ("invariant", "", 0, NAME),
    ("visible", "", 0, NAME),
    ("at", "", 0, NAME),
    ("with", "", 0, NAME),
    ("and", "", 0, NAME),
    ("or", "", 0, NAME),
    ("+", "", 0, 0),
    ("-", "", 0, 0),
    (",", "", 0, 0),
    ("..", "", 0, 0),
    (".", "", 0, 0),
    (":", "", 0, 0),
    ("=", "", 0, 0),
    ("->", "", 0, 0),
    ("{", "", 0, INSTRUCTION),
    ("}", "", 0, 0),
    (")", "", 0, 0),
    ("]", "", 0, 0),
    (";", "", 0, 0),
];
