//! The forms of a command line, for people.

/// An option of a command: its word, its bit, the most that its number may be (1 is the least; 0 where it takes no number), or the words that it
/// takes, and what it takes in words.
#[derive(Clone, Copy)]
pub(crate) struct Choice {
    pub(crate) flag: &'static str,
    pub(crate) bit: u16,
    pub(crate) most: u64,
    pub(crate) words: &'static [&'static str],
    pub(crate) says: &'static str,
}

/// What stands behind a command's name: files, and the bits of its options.
#[derive(Clone, Copy)]
pub(crate) struct Form {
    pub(crate) files: &'static [&'static str],
    pub(crate) options: u16,
}

const HOPS: u16 = 1;

const LIMIT: u16 = 2;

const PRUNED: u16 = 4;

const STYLE: u16 = 8;

const FILTER_STYLE: u16 = 16;

const OPEN: u16 = 32;

const CASES: u16 = 64;

/// A limit where what it bounds is not written.
const ANSWER_LIMIT: u16 = 128;

const RECORDS: u16 = 256;

const PACKETS: u16 = 512;

const CUT: u16 = 1024;

fn hops() -> Choice {
    Choice {
        flag: "--hops",
        bit: HOPS,
        most: 256,
        words: &[],
        says: "--hops takes a number from 1 to 256",
    }
}

fn limit() -> Choice {
    Choice {
        flag: "--limit",
        bit: LIMIT,
        most: 100_000,
        words: &[],
        says: "--limit takes a number from 1 to 100,000",
    }
}

fn answer_limit() -> Choice {
    Choice {
        flag: "--limit",
        bit: ANSWER_LIMIT,
        most: 4_294_967_295,
        words: &[],
        says: "--limit takes a number from 1 to 4,294,967,295",
    }
}

fn pruned() -> Choice {
    Choice {
        flag: "--pruned",
        bit: PRUNED,
        most: 0,
        words: &["all", "count"],
        says: "--pruned takes all or count",
    }
}

fn cases() -> Choice {
    Choice {
        flag: "--cases",
        bit: CASES,
        most: u64::MAX,
        words: &["all"],
        says: "--cases takes a number from 1 to 18,446,744,073,709,551,615, or all",
    }
}

fn open_paths() -> Choice {
    Choice {
        flag: "--open",
        bit: OPEN,
        most: 0,
        words: &["numbers", "visits"],
        says: "--open takes numbers or visits",
    }
}

fn records() -> Choice {
    Choice {
        flag: "--records",
        bit: RECORDS,
        most: 0,
        words: &["each", "whole"],
        says: "--records takes each or whole",
    }
}

fn cut() -> Choice {
    Choice {
        flag: "--cut",
        bit: CUT,
        most: 0,
        words: &["omit", "count"],
        says: "--cut takes omit or count",
    }
}

fn packets() -> Choice {
    Choice {
        flag: "--packets",
        bit: PACKETS,
        most: 0,
        words: &["one", "lines"],
        says: "--packets takes one or lines",
    }
}

fn style() -> Choice {
    Choice {
        flag: "--style",
        bit: STYLE,
        most: 0,
        words: &["chain", "grouped", "egress"],
        says: "--style takes chain, grouped or egress",
    }
}

fn filter_style() -> Choice {
    Choice {
        flag: "--style",
        bit: FILTER_STYLE,
        most: 0,
        words: &["chain", "grouped"],
        says: "--style takes chain or grouped here",
    }
}

/// The option of a word, where it is one of these.
pub(crate) fn choice_of(options: u16, flag: &str) -> Option<Choice> {
    let choice = match flag {
        "--hops" => hops(),
        "--limit" if options & ANSWER_LIMIT != 0 => answer_limit(),
        "--limit" => limit(),
        "--pruned" => pruned(),
        "--open" => open_paths(),
        "--cases" => cases(),
        "--records" => records(),
        "--packets" => packets(),
        "--cut" => cut(),
        "--style" if options & FILTER_STYLE != 0 => filter_style(),
        "--style" => style(),
        _ => return None,
    };
    if options & choice.bit != 0 {
        Some(choice)
    } else {
        None
    }
}

/// The form of the command of a name.
pub(crate) fn form_of(name: &str) -> Option<Form> {
    match name {
        "explore" => Some(Form {
            files: &["JOB"],
            options: HOPS | LIMIT | PRUNED | CASES,
        }),
        "walk" => Some(Form {
            files: &["JOB", "PACKET"],
            options: HOPS | LIMIT | PACKETS,
        }),
        "replay" => Some(Form {
            files: &["JOB", "REPORT"],
            options: RECORDS,
        }),
        "ask" => Some(Form {
            files: &["JOB"],
            options: HOPS | ANSWER_LIMIT | CASES,
        }),
        "loops" => Some(Form {
            files: &["JOB"],
            options: HOPS | OPEN | ANSWER_LIMIT | CASES,
        }),
        "compare" => Some(Form {
            files: &["JOB", "OTHER"],
            options: HOPS | ANSWER_LIMIT | CASES | CUT,
        }),
        // The words are right without OTHER, so it is never said to be missing.
        "rules" => Some(Form {
            files: &["FILE", "OTHER"],
            options: 0,
        }),
        "grow" => Some(Form {
            files: &["SEED", "NODES"],
            options: 0,
        }),
        _ => None,
    }
}

/// The form of `model` with the word behind it.
pub(crate) fn model_form_of(kind: &str) -> Option<Form> {
    let options = match kind {
        "mac" => STYLE,
        "fib" => STYLE,
        "click" => 0,
        "acl" => FILTER_STYLE,
        _ => return None,
    };
    Some(Form {
        files: &["FILE"],
        options,
    })
}
