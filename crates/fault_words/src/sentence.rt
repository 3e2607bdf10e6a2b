//! A sentence for each status and its kind. `docs/statuses.md` has the same sentences, and `tools/documents.py` compares both.

use command_runs::Status;

/// Of a text that is no job's.
pub(crate) fn of_syntax(kind: u8) -> Option<&'static str> {
    match kind {
        1 => Some("a byte here is no UTF-8: save the file as UTF-8"),
        2 => Some("no word begins with this character, or a name has more than 64 bytes"),
        3 => Some(
            "a number is at most 2^128 - 1, has a digit behind `0x`, and no letter at once behind it",
        ),
        4 => Some("a text is closed by a quote on its line, and has no control character"),
        5 => Some("no job has this word here"),
        6 => Some("at most 64 blocks, brackets, parentheses and `not`s are open at once"),
        _ => None,
    }
}

/// Of an item that breaks a rule.
pub(crate) fn of_refusal(kind: u8) -> Option<&'static str> {
    match kind {
        1 => Some("an earlier node has this name: give it another"),
        2 => Some("no node has this name; names differ by case"),
        3 => Some("the node has no such port; ports are numbered from 0"),
        4 => Some(
            "an earlier link leaves this output port: for a copy each, `fork` to two output ports",
        ),
        5 => Some("an earlier code is of this port: join the two into one block"),
        6 => Some("fields of two widths meet here: read each field at its own width"),
        7 => Some("a number exceeds its width: a field of 8 bits holds at most 255"),
        _ => of_later_refusal(kind),
    }
}

fn of_later_refusal(kind: u8) -> Option<&'static str> {
    match kind {
        8 => Some(
            "a variable stands outside its `for`, a tag is made by no earlier line, or a `where` reads what is not injected",
        ),
        9 => Some(
            "the code of an output port has no `forward` and no `fork`: decide in that of an input port",
        ),
        10 => Some("a `fork` has at least one port: write `fail`, or an empty block"),
        11 => Some("the first number of a range exceeds its second: exchange them"),
        12 => Some(
            "an earlier field of the injection shares a bit or the name: mend its offset, width or tag",
        ),
        13 => Some(
            "the job is too large from here on: at most 10,000 nodes, 1,024 ports a node and side, 1,024 metadata names, 256 patterns, 1,000,000 instructions, 4,000,000 ranges, 1,024 ports of a `fork`, 256 fields, 256 `where`s and 256 questions",
        ),
        14 => Some("a `for` stands in at most one other `for`"),
        15 => Some("an address lies between -1,048,576 and 1,048,575 bits"),
        _ => None,
    }
}

/// Of a packet's file.
fn of_packet(kind: u8) -> Option<&'static str> {
    match kind {
        1 => Some(
            "the file has too few numbers: one for each `field` without a value, in the order of the job's lines",
        ),
        2 => Some("a number exceeds the width of its field: a field of 8 bits holds at most 255"),
        3 => Some(
            "a `where` of the injection is not true of this packet: change the packet, or the `where`",
        ),
        4 => Some(
            "the file of a packet has numbers alone, as they stand in a job, and no comments",
        ),
        _ => None,
    }
}

/// Of a report's file.
fn of_report(kind: u8) -> Option<&'static str> {
    match kind {
        1 => Some(
            "the file is no JSON: see whether it was cut off, since a run that ends with another status than 0 or 12 leaves no report",
        ),
        2 => Some(
            "the value that the pointer names is of no report of this job: its names of boxes, tags and metadata have to be those of the job",
        ),
        _ => None,
    }
}

/// Of a record that is not confirmed.
fn of_record(kind: u8) -> Option<&'static str> {
    match kind {
        1 => Some(
            "the decisions of the record lead to no end, its values are no packet that takes them, or a part that was not tried is not open: explore the job again",
        ),
        2 => Some(
            "the refutation of the record is not accepted, or its decisions end at no test: explore the job again",
        ),
        3 => Some(
            "the places, the end or the fields are not those of the decisions: explore the job again",
        ),
        4 => Some("an undecided path may not have this cause: explore the job again"),
        5 => Some(
            "before this record one is missing, it was not tried, or it stands in another place; behind the last record its number is told: explore the job again, with `--pruned all` and a `--limit` that is not met",
        ),
        6 => Some(
            "no record is missing, but the report says another `state`, `refuted` or `limit`: explore the job again",
        ),
        _ => None,
    }
}

/// Of a question that cannot be asked.
fn of_ask(kind: u8) -> Option<&'static str> {
    match kind {
        1 => Some(
            "the place is not in the net, or is an input port of an `invariant`: that is asked by `out BOX.PORT`",
        ),
        2 => Some(
            "the field is none of the injection: write it as it stands there, with the same tag, offset and width",
        ),
        _ => None,
    }
}

/// Of two jobs that cannot be compared.
fn of_comparison(kind: u8) -> Option<&'static str> {
    match kind {
        1 => Some("the injections of the two jobs differ: write the same lines in the same order"),
        2 => Some(
            "two paths that leave by one port chose values of other widths: let both jobs choose the same fields in the same order",
        ),
        _ => None,
    }
}

/// The sentence of a status that is told by its kind alone.
pub(crate) fn sentence_of(status: &Status) -> Option<&'static str> {
    match status {
        Status::ReadFault { .. } => Some("it is a folder, or its rights do not let it be read"),
        Status::WriteFault => Some(
            "what was written is a beginning of the text, and not to be used: make room, or keep the reader open",
        ),
        Status::TooBig { .. } => Some(
            "a file has at most 67,108,864 bytes, and that of a report 268,435,456: split it, or explore with `--pruned count`",
        ),
        Status::BadPattern { .. } => Some(
            "the pattern is no regular expression, or grows too large",
        ),
        Status::BadPacket { kind } => of_packet(*kind),
        Status::TooMany { .. } => Some(
            "raise `--limit`, or lower `--hops` where the net has a loop with a `fork`",
        ),
        Status::BadReport { kind, .. } => of_report(*kind),
        Status::NotConfirmed { kind, .. } => of_record(*kind),
        Status::BadAsk { kind, .. } => of_ask(*kind),
        Status::BadCompare { kind, .. } => of_comparison(*kind),
        _ => None,
    }
}
