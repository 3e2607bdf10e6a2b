//! What patterns find among the names of a job.

ghost use Rattle.std.specs.Prelude.{None};
ghost use Rattle.sn_edge.specs.Found.{OnBad};

use crate::jobs::{check, job_of, joined, patterns_of, same_text};
use job_names::{JobNames, names_of};
use pattern_answers::{PatternAnswers, found_names};
use sn_edge::{Found, MemPatterns, Patterns};
use sn_width::NameId;
use std::alloc::{AllocError, Global};
use std::process::Abort;

/// A packet with the metadata y and x.
const TWO_FIELDS: &str = "field global y:8; field global x:8; ";

/// The names of a job with two Fors, the items 2 and 3, and a packet with these fields.
fn names_with(rt: &impl Abort, alloc: Global, fields: &str) -> JobNames {
    let net = "node r 1 -> 0 { in 0 { for v in \"^y\" { } for v in \".\" { } } } inject r.0 { ";
    let job = job_of(rt, alloc, joined(rt, alloc, &[net, fields, "}"]).as_str());
    let names = names_of(alloc, &job).expect(rt, "memory");
    drop(job);
    names
}

/// Patterns such that `^y` finds y, `.` finds both names, and these are bad.
fn table(rt: &impl Abort, alloc: Global, bad: &[&str]) -> MemPatterns {
    patterns_of(rt, alloc, &[("^y", "y"), (".", "x"), (".", "y")], bad)
}

/// What the patterns answer for a job with these fields.
fn answers_of<P: Patterns>(
    rt: &impl Abort,
    alloc: Global,
    fields: &str,
    patterns: &mut P,
) -> PatternAnswers {
    let names = names_with(rt, alloc, fields);
    let answers = found_names(alloc, &names, patterns).expect(rt, "memory");
    drop(names);
    answers
}

/// Whether the lists are those of `^y` and of `.`.
fn are_found(answers: &PatternAnswers) -> bool {
    match answers {
        PatternAnswers::Refused { .. } => false,
        PatternAnswers::Answered(lists) => match lists.as_slice() {
            [first, other] => {
                first.as_slice() == [NameId(1)].as_slice()
                    && other.as_slice() == [NameId(0), NameId(1)].as_slice()
            }
            _ => false,
        },
    }
}

fn is_refused_at(answers: &PatternAnswers, place: u64) -> bool {
    match answers {
        PatternAnswers::Refused { site } => *site == place,
        PatternAnswers::Answered(_) => false,
    }
}

#[test]
fn each_pattern_finds_its_names_in_order(rt: HostRuntime) {
    let mut patterns = table(&rt, rt.alloc(), &[]);
    let answers = answers_of(&rt, rt.alloc(), TWO_FIELDS, &mut patterns);
    assert!(rt; are_found(&answers));
}

/// Whether the second For's pattern is refused.
fn check_refused(
    rt: &impl Abort,
    alloc: Global,
    fields: &str,
    patterns: &mut MemPatterns,
    is_told: bool,
) {
    let answers = answers_of(rt, alloc, fields, patterns);
    check(rt, is_refused_at(&answers, 3) == is_told, fields);
}

#[test]
fn the_first_bad_pattern_is_told_with_its_site(rt: HostRuntime) {
    let mut patterns = table(&rt, rt.alloc(), &["."]);
    for (fields, is_told) in [(TWO_FIELDS, true), ("", false)] {
        check_refused(&rt, rt.alloc(), fields, &mut patterns, is_told);
    }
}

/// Patterns that find nothing and note what they are asked.
#[derive(Drop)]
struct Asked {
    pairs: String,
}

impl Patterns for Asked {
    ghost told = { λ _. record { matches = None; bad = None; refusals = 0 } };

    ghost find_gives = { λ _ _ _ answer _. OnBad answer ⊥ };

    fn find(&mut self, _alloc: Global, pattern: &str, name: &str) -> Found {
        if self.note(pattern).is_err() || self.note(name).is_err() {
            return Found::NoMemory;
        }
        Found::No
    }
}

impl Asked {
    fn note(&mut self, text: &str) -> Result<(), AllocError> {
        self.pairs.push_str(text)?;
        self.pairs.push_str(" ")
    }
}

#[test]
fn each_pair_is_asked_once(rt: HostRuntime) {
    let pairs = String::new(rt.alloc());
    let mut patterns = Asked { pairs };
    let answers = answers_of(&rt, rt.alloc(), TWO_FIELDS, &mut patterns);
    assert!(rt; !is_refused_at(&answers, 0));
    same_text(&rt, patterns.pairs.as_str(), "^y x ^y y . x . y ");
}
