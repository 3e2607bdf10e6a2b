//! The commands, and the words that give them.

ghost use Rattle.std.specs.Prelude.{◌≡◌, ◌≤◌, IfOk, IfSome, Some, option_map, map, string_bytes};
ghost use Rattle.clap.specs.Words.{first_value, found_of};
ghost use Rattle.command_words.specs.Commands.{AreInRange, HasRanges, cases_in, cases_of, command_from, command_of, cut_in, cut_of, extent_in, extent_of, filter_style_in, filter_style_of, form_of_verb, hops_in, limit_in, model_of, named, open_in, open_of, packets_in, packets_of, pruned_in, pruned_of, read_as, read_verb, reading, replay_of, second_of, style_in, style_of, verb_of, walk_of};
ghost use Rattle.command_words.specs.Shapes.{form_of, named_of};

use crate::form::Form;
use crate::number::{count_of, number_in, seed_of};
use crate::values::read;
use clap::ArgMatches;
use net_check::USUAL_CHOICES;
use path_records::RefutedSides;
use sefl_syntax::{Style, TableKind};
use std::alloc::{AllocError, Global};

/// The hops, and the limit of walks or records, where no option gives them.
pub const HOPS: u32 = 16;

pub const LIMIT: u32 = 10_000;

/// The most of each: of a limit where what it bounds is written, and where only an answer is.
pub const MOST_HOPS: u32 = 256;

pub const MOST_LIMIT: u32 = 100_000;

pub const MOST_ANSWER_LIMIT: u32 = 4_294_967_295;

/// The most boxes of a job that grows from a seed.
pub const MOST_BOXES: u32 = 10_000;

/// What is written of the paths that are cut and show no loop.
#[derive(Clone, Copy)]
pub enum Open {
    /// The numbers of their records.
    Numbers,
    /// Their earlier visits of the last port as well.
    Visits,
}

/// How many packets a file has.
#[derive(Clone, Copy)]
enum Packets {
    One,
    /// One on each line.
    Lines,
}

/// What is confirmed of the records of a report.
#[derive(Clone, Copy)]
enum Extent {
    /// That each has its own meaning.
    Each,
    /// And that together they leave nothing out.
    Whole,
}

/// How the code of a filter list's node tests packets.
#[derive(Clone, Copy)]
pub enum FilterStyle {
    Chain,
    Grouped,
}

/// A command, with the names of the files that it reads, and what its options give.
#[derive(Clone, Copy)]
pub enum Command<'a> {
    Explore {
        job: &'a str,
        hops: u32,
        limit: u32,
        cases: u64,
        pruned: RefutedSides,
    },
    Walk {
        job: &'a str,
        packet: &'a str,
        hops: u32,
        limit: u32,
    },
    /// Of each line of the file.
    WalkLines {
        job: &'a str,
        packets: &'a str,
        hops: u32,
        limit: u32,
    },
    Replay {
        job: &'a str,
        report: &'a str,
    },
    /// Of all records together.
    ReplayWhole {
        job: &'a str,
        report: &'a str,
    },
    Ask {
        job: &'a str,
        hops: u32,
        limit: u32,
        cases: u64,
    },
    Loops {
        job: &'a str,
        hops: u32,
        limit: u32,
        cases: u64,
        open: Open,
    },
    Compare {
        job: &'a str,
        other: &'a str,
        hops: u32,
        limit: u32,
        cases: u64,
        /// Whether paths that are cut are counted.
        counts_cut: bool,
    },
    Model {
        table: TableKind,
        file: &'a str,
        style: Style,
    },
    Click {
        file: &'a str,
    },
    Acl {
        file: &'a str,
        style: FilterStyle,
    },
    Rules {
        file: &'a str,
    },
    BothRules {
        file: &'a str,
        other: &'a str,
    },
    Grow {
        seed: u64,
        boxes: u32,
    },
}

/// The name of a command.
#[derive(Clone, Copy)]
enum Verb {
    Explore,
    Walk,
    Replay,
    Ask,
    Loops,
    Compare,
    Model(TableKind),
    Click,
    Acl,
    Rules,
    BothRules,
    Grow,
}

impl Verb {
    /// What the words behind the name may be.
    fn form(self) -> Form
        ensures { form_of result ≡ form_of_verb self }
    {
        match self {
            Verb::Explore => Form {
                positionals: &["JOB"],
                options: &["hops", "limit", "pruned", "cases"],
            },
            Verb::Walk => Form {
                positionals: &["JOB", "PACKET"],
                options: &["hops", "limit", "packets"],
            },
            Verb::Replay => Form {
                positionals: &["JOB", "REPORT"],
                options: &["records"],
            },
            Verb::Ask => Form {
                positionals: &["JOB"],
                options: &["hops", "limit", "cases"],
            },
            Verb::Loops => Form {
                positionals: &["JOB"],
                options: &["hops", "open", "limit", "cases"],
            },
            Verb::Compare => Form {
                positionals: &["JOB", "OTHER"],
                options: &["hops", "limit", "cases", "cut"],
            },
            Verb::Model(_) => Form {
                positionals: &["FILE"],
                options: &["style"],
            },
            Verb::Click => Form {
                positionals: &["FILE"],
                options: &[],
            },
            Verb::Acl => Form {
                positionals: &["FILE"],
                options: &["style"],
            },
            Verb::Rules => Form {
                positionals: &["FILE"],
                options: &[],
            },
            Verb::BothRules => Form {
                positionals: &["FILE", "OTHER"],
                options: &[],
            },
            Verb::Grow => Form {
                positionals: &["SEED", "NODES"],
                options: &[],
            },
        }
    }

    /// What the name stands for where the words behind it have no reading in that form.
    fn second(self) -> Option<Verb>
        ensures { result ≡ second_of self }
    {
        match self {
            Verb::Rules => Some(Verb::BothRules),
            _ => None,
        }
    }
}

/// The command of a name.
fn verb_of(word: &str) -> Option<Verb>
    ensures { result ≡ verb_of word.now }
{
    match word {
        "explore" => Some(Verb::Explore),
        "walk" => Some(Verb::Walk),
        "replay" => Some(Verb::Replay),
        "ask" => Some(Verb::Ask),
        "loops" => Some(Verb::Loops),
        "compare" => Some(Verb::Compare),
        "rules" => Some(Verb::Rules),
        "grow" => Some(Verb::Grow),
        _ => None,
    }
}

/// The command of the name behind `model`.
fn model_of(word: &str) -> Option<Verb>
    ensures { result ≡ model_of word.now }
{
    match word {
        "mac" => Some(Verb::Model(TableKind::Mac)),
        "fib" => Some(Verb::Model(TableKind::Fib)),
        "click" => Some(Verb::Click),
        "acl" => Some(Verb::Acl),
        _ => None,
    }
}

/// The command that the first words name, and the words behind its name.
fn named(words: &[String]) -> Option<(Verb, &[String])>
    ensures { named_of result ≡ named (map (λ w. string_bytes w) words.now) }
{
    match words {
        [word, kind, rest @ ..] if word.as_str() == "model" => Some((model_of(kind)?, rest)),
        [word, rest @ ..] => Some((verb_of(word)?, rest)),
        [] => None,
    }
}

/// The hops that are given, or the default.
fn hops_in(values: &ArgMatches<'_>) -> Option<u32>
    ensures value { result ≡ hops_in (first_value (found_of values.now)) }
    ensures range { IfSome result (λ n. (1 ≤ n) × (n ≤ MOST_HOPS)) }
{
    match values.get_str("hops") {
        Some(word) => number_in(1, MOST_HOPS, word),
        None => Some(HOPS),
    }
}

/// The limit that is given, at most this, or the default.
fn limit_in(most: u32, values: &ArgMatches<'_>) -> Option<u32>
    requires { LIMIT ≤ most }
    ensures value { result ≡ limit_in (first_value (found_of values.now)) most }
    ensures range { IfSome result (λ n. (1 ≤ n) × (n ≤ most)) }
{
    match values.get_str("limit") {
        Some(word) => number_in(1, most, word),
        None => Some(LIMIT),
    }
}

/// The bound on choices of cases that a word says.
fn cases_of(word: &str) -> Option<u64>
    ensures value { result ≡ cases_of word.now }
    ensures range { IfSome result (λ n. 1 ≤ n) }
{
    match word {
        "all" => Some(u64::MAX),
        _ => count_of(word),
    }
}

/// The bound on choices of cases that is given, or the usual one.
fn cases_in(values: &ArgMatches<'_>) -> Option<u64>
    ensures value { result ≡ cases_in (first_value (found_of values.now)) }
    ensures range { IfSome result (λ n. 1 ≤ n) }
{
    match values.get_str("cases") {
        Some(word) => cases_of(word),
        None => Some(USUAL_CHOICES),
    }
}

fn pruned_of(word: &str) -> Option<RefutedSides>
    ensures { result ≡ pruned_of word.now }
{
    match word {
        "all" => Some(RefutedSides::Written),
        "count" => Some(RefutedSides::Counted),
        _ => None,
    }
}

/// What is to be written of pruned records, or the default.
fn pruned_in(values: &ArgMatches<'_>) -> Option<RefutedSides>
    ensures { result ≡ pruned_in (first_value (found_of values.now)) }
{
    match values.get_str("pruned") {
        Some(word) => pruned_of(word),
        None => Some(RefutedSides::Written),
    }
}

fn open_of(word: &str) -> Option<Open>
    ensures { result ≡ open_of word.now }
{
    match word {
        "numbers" => Some(Open::Numbers),
        "visits" => Some(Open::Visits),
        _ => None,
    }
}

/// What is to be written of paths without a loop, or the default.
fn open_in(values: &ArgMatches<'_>) -> Option<Open>
    ensures { result ≡ open_in (first_value (found_of values.now)) }
{
    match values.get_str("open") {
        Some(word) => open_of(word),
        None => Some(Open::Numbers),
    }
}

fn extent_of(word: &str) -> Option<Extent>
    ensures { result ≡ extent_of word.now }
{
    match word {
        "each" => Some(Extent::Each),
        "whole" => Some(Extent::Whole),
        _ => None,
    }
}

/// What is to be confirmed of records, or the default.
fn extent_in(values: &ArgMatches<'_>) -> Option<Extent>
    ensures { result ≡ extent_in (first_value (found_of values.now)) }
{
    match values.get_str("records") {
        Some(word) => extent_of(word),
        None => Some(Extent::Each),
    }
}

fn cut_of(word: &str) -> Option<bool>
    ensures { result ≡ cut_of word.now }
{
    match word {
        "omit" => Some(false),
        "count" => Some(true),
        _ => None,
    }
}

/// Whether paths that are cut are to be counted, or the default.
fn cut_in(values: &ArgMatches<'_>) -> Option<bool>
    ensures { result ≡ cut_in (first_value (found_of values.now)) }
{
    match values.get_str("cut") {
        Some(word) => cut_of(word),
        None => Some(false),
    }
}

fn packets_of(word: &str) -> Option<Packets>
    ensures { result ≡ packets_of word.now }
{
    match word {
        "one" => Some(Packets::One),
        "lines" => Some(Packets::Lines),
        _ => None,
    }
}

/// How many packets the file has, or the default.
fn packets_in(values: &ArgMatches<'_>) -> Option<Packets>
    ensures { result ≡ packets_in (first_value (found_of values.now)) }
{
    match values.get_str("packets") {
        Some(word) => packets_of(word),
        None => Some(Packets::One),
    }
}

fn walk_of<'a>(
    packets: Packets,
    job: &'a str,
    packet: &'a str,
    hops: u32,
    limit: u32,
) -> Command<'a>
    ensures command { command_of result ≡ walk_of packets job.now packet.now hops limit }
    ensures ranges { AreInRange MOST_LIMIT hops limit → HasRanges (command_of result) }
{
    match packets {
        Packets::One => Command::Walk {
            job,
            packet,
            hops,
            limit,
        },
        Packets::Lines => Command::WalkLines {
            job,
            packets: packet,
            hops,
            limit,
        },
    }
}

fn replay_of<'a>(extent: Extent, job: &'a str, report: &'a str) -> Command<'a>
    ensures command { command_of result ≡ replay_of extent job.now report.now }
    ensures ranges { HasRanges (command_of result) }
{
    match extent {
        Extent::Each => Command::Replay { job, report },
        Extent::Whole => Command::ReplayWhole { job, report },
    }
}

fn style_of(word: &str) -> Option<Style>
    ensures { result ≡ style_of word.now }
{
    match word {
        "chain" => Some(Style::Chain),
        "grouped" => Some(Style::Grouped),
        "egress" => Some(Style::Egress),
        _ => None,
    }
}

/// The style that is given, or the default.
fn style_in(values: &ArgMatches<'_>) -> Option<Style>
    ensures { result ≡ style_in (first_value (found_of values.now)) }
{
    match values.get_str("style") {
        Some(word) => style_of(word),
        None => Some(Style::Grouped),
    }
}

fn filter_style_of(word: &str) -> Option<FilterStyle>
    ensures { result ≡ filter_style_of word.now }
{
    match word {
        "chain" => Some(FilterStyle::Chain),
        "grouped" => Some(FilterStyle::Grouped),
        _ => None,
    }
}

/// The style of a filter list's node that is given, or the default.
fn filter_style_in(values: &ArgMatches<'_>) -> Option<FilterStyle>
    ensures { result ≡ filter_style_in (first_value (found_of values.now)) }
{
    match values.get_str("style") {
        Some(word) => filter_style_of(word),
        None => Some(FilterStyle::Grouped),
    }
}

/// The command with these values.
fn command_from<'a>(verb: Verb, values: &ArgMatches<'a>) -> Option<Command<'a>>
    ensures command { option_map command_of result ≡ command_from verb (first_value (found_of values.now)) }
    ensures ranges { IfSome result (λ c. HasRanges (command_of c)) }
{
    match verb {
        Verb::Explore => {
            let job = values.get_str("JOB")?;
            let hops = hops_in(values)?;
            let limit = limit_in(MOST_LIMIT, values)?;
            let cases = cases_in(values)?;
            let pruned = pruned_in(values)?;
            Some(Command::Explore {
                job,
                hops,
                limit,
                cases,
                pruned,
            })
        }
        Verb::Walk => {
            let job = values.get_str("JOB")?;
            let packet = values.get_str("PACKET")?;
            let hops = hops_in(values)?;
            let limit = limit_in(MOST_LIMIT, values)?;
            let packets = packets_in(values)?;
            Some(walk_of(packets, job, packet, hops, limit))
        }
        Verb::Replay => {
            let job = values.get_str("JOB")?;
            let report = values.get_str("REPORT")?;
            let extent = extent_in(values)?;
            Some(replay_of(extent, job, report))
        }
        Verb::Ask => {
            let job = values.get_str("JOB")?;
            let hops = hops_in(values)?;
            let limit = limit_in(MOST_ANSWER_LIMIT, values)?;
            let cases = cases_in(values)?;
            Some(Command::Ask {
                job,
                hops,
                limit,
                cases,
            })
        }
        Verb::Loops => {
            let job = values.get_str("JOB")?;
            let hops = hops_in(values)?;
            let limit = limit_in(MOST_ANSWER_LIMIT, values)?;
            let cases = cases_in(values)?;
            let open = open_in(values)?;
            Some(Command::Loops {
                job,
                hops,
                limit,
                cases,
                open,
            })
        }
        Verb::Compare => {
            let job = values.get_str("JOB")?;
            let other = values.get_str("OTHER")?;
            let hops = hops_in(values)?;
            let limit = limit_in(MOST_ANSWER_LIMIT, values)?;
            let cases = cases_in(values)?;
            let counts_cut = cut_in(values)?;
            Some(Command::Compare {
                job,
                other,
                hops,
                limit,
                cases,
                counts_cut,
            })
        }
        Verb::Model(table) => {
            let file = values.get_str("FILE")?;
            let style = style_in(values)?;
            Some(Command::Model { table, file, style })
        }
        Verb::Click => {
            let file = values.get_str("FILE")?;
            Some(Command::Click { file })
        }
        Verb::Acl => {
            let file = values.get_str("FILE")?;
            let style = filter_style_in(values)?;
            Some(Command::Acl { file, style })
        }
        Verb::Rules => {
            let file = values.get_str("FILE")?;
            Some(Command::Rules { file })
        }
        Verb::BothRules => {
            let file = values.get_str("FILE")?;
            let other = values.get_str("OTHER")?;
            Some(Command::BothRules { file, other })
        }
        Verb::Grow => {
            let seed = seed_of(values.get_str("SEED")?)?;
            let boxes = number_in(1, MOST_BOXES, values.get_str("NODES")?)?;
            Some(Command::Grow { seed, boxes })
        }
    }
}

/// The command of the words behind a name, in the form of this one.
fn read_as(alloc: Global, verb: Verb, rest: &[String]) -> Result<Option<Command<'_>>, AllocError>
    ensures command { IfOk result (λ r. option_map command_of r
        ≡ read_as verb (map (λ w. string_bytes w) rest.entry.now)) }
    ensures ranges { IfOk result (λ r. IfSome r (λ c. HasRanges (command_of c))) }
{
    match read(alloc, &verb.form(), rest)? {
        Some(values) => Ok(command_from(verb, &values)),
        None => Ok(None),
    }
}

/// The command of the words behind a name, in one of its forms.
fn read_verb(alloc: Global, verb: Verb, rest: &[String]) -> Result<Option<Command<'_>>, AllocError>
    ensures command { IfOk result (λ r. option_map command_of r
        ≡ read_verb verb (map (λ w. string_bytes w) rest.entry.now)) }
    ensures ranges { IfOk result (λ r. IfSome r (λ c. HasRanges (command_of c))) }
{
    if let Some(command) = read_as(alloc, verb, rest)? {
        return Ok(Some(command));
    }
    match verb.second() {
        Some(second) => read_as(alloc, second, rest),
        None => Ok(None),
    }
}

/// The command that the words give; None where they have no reading.
pub fn reading(alloc: Global, words: &[String]) -> Result<Option<Command<'_>>, AllocError>
    ensures command { IfOk result (λ r. option_map command_of r ≡ reading words.entry.now) }
    ensures ranges { IfOk result (λ r. IfSome r (λ c. HasRanges (command_of c))) }
{
    let Some((verb, rest)) = named(words) else {
        return Ok(None);
    };
    read_verb(alloc, verb, rest)
}
