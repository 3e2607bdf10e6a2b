//! What is wrong with a line of a table's file, in words.

use command_words::{Command, reading};
use std::alloc::Global;

/// Of a filter list.
fn of_list(kind: u8) -> Option<&'static str> {
    match kind {
        1 => Some(
            "a rule is `permit` or `deny`, a protocol, two prefixes (source, destination) and two ports: permit 6 10.0.0.0/8 0.0.0.0/0 any 80-443",
        ),
        3 => Some(
            "a list has at most 1,024 rules: take out hidden ones (`rules` names them), or cut the list in two boxes",
        ),
        _ => None,
    }
}

/// Of a MAC or a forwarding table.
fn of_table(kind: u8) -> Option<&'static str> {
    match kind {
        1 => Some(
            "a table is `ports N`, and then rows: an address or a prefix, and a port that is less than N",
        ),
        2 => Some(
            "an earlier row has this address or prefix, and another port: take one of them out",
        ),
        3 => Some(
            "a MAC table has at most 32,768 rows, a forwarding table 200,000: use fewer, or two boxes",
        ),
        _ => None,
    }
}

/// Of a Click configuration.
fn of_click(kind: u8) -> Option<&'static str> {
    match kind {
        1 => Some("a statement does not go on so, or is not ended by `;`"),
        2 => Some("an earlier statement declares this name"),
        3 => Some("a configuration has at most 10,000 elements"),
        4 => Some("there is no class of this name"),
        5 => Some("the class does not take these arguments"),
        6 => Some("elements are entered by input 0, and each of their outputs is connected once"),
        7 => Some("no statement declares this name"),
        _ => None,
    }
}

/// The sentence for a kind of line that a table's file may not have, where the words name that file or a job with it.
pub(crate) fn of_line(alloc: Global, words: &[String], kind: u8) -> Option<&'static str> {
    let Ok(Some(command)) = reading(alloc, words) else {
        return None;
    };
    match command {
        Command::Acl { .. } => of_list(kind),
        Command::Rules { .. } => of_list(kind),
        Command::BothRules { .. } => of_list(kind),
        Command::Click { .. } => of_click(kind),
        _ => of_table(kind),
    }
}
